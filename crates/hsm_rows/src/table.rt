//! The command table.
ghost use Rattle.std.specs.Prelude.{◌≡◌, ◌≤◌, map, length, IfSome};
ghost use Rattle.std.specs.Option.{option_map};
ghost use Rattle.hsm_rows.specs.Table.{shape_of, shown_shape, host_rows, console_rows, all_rows, row_with, IsHostRow, IsConsoleRow};

use super::fields::{a0, a6, a8, b2, bu, ca, da, fk, m6};
use super::row::{Code, Field, Form, Public, Row, Secret};
use super::rules::RuleSet;

// A row: its code, its reply code, its rules, its fields with their codes, and its reply fields.
macro_rules! row {
    ($code:literal, $reply:literal, $rules:expr, [$($form:expr => $refused:literal),*], [$($term:expr),*]) => {
        Row {
            code: $code,
            reply: $reply,
            fields: &[$(Field { form: $form, code: Code($refused) }),*],
            terms: &[$($term),*],
            rules: $rules,
        }
    };
}

// How many of the rows are host rows: they come first.
const HOST_ROWS: usize = 23;

/// The rows: those of the hosts, then those of the console.
#[rattlefmt::skip]
pub static ROWS: [Row; 30] = [
    row!(b"A0", b"A1", RuleSet::A0,
        [Form::ZeroToOne => 15, Form::KeyType => 4, Form::Scheme => 26, Form::Mode1Wrapper => 15, Form::Mode1Key => 15, Form::Mode1WrapScheme => 26],
        [Public::Sealed(Secret::DrawnKey), Public::SealedUnder { secret: Secret::DrawnKey, kek: a0::KEK }, Public::CheckValue(Secret::DrawnKey)]),
    row!(b"A6", b"A7", RuleSet::A6,
        [Form::KeyType => 4, Form::Key => 15, Form::WrappedKey => 15, Form::Scheme => 26],
        [Public::Sealed(Secret::OpenedUnder { field: a6::KEY, kek: a6::ZMK }), Public::CheckValue(Secret::OpenedUnder { field: a6::KEY, kek: a6::ZMK })]),
    row!(b"A8", b"A9", RuleSet::A8,
        [Form::KeyType => 4, Form::Wrapper => 15, Form::Key => 15, Form::Key => 15, Form::WrapScheme => 26],
        [Public::SealedUnder { secret: Secret::Opened(a8::KEY), kek: a8::KEK }, Public::CheckValue(Secret::Opened(a8::KEY))]),
    row!(b"BU", b"BV", RuleSet::Bu,
        [Form::Type2 => 4, Form::Flag => 5, Form::KeyByFlag(bu::FLAG) => 15, Form::FfSemicolon(bu::PAIR_CODE) => 15, Form::FfType(bu::PAIR_CODE) => 4],
        [Public::CheckValue(Secret::Opened(bu::KEY))]),
    row!(b"CA", b"CB", RuleSet::Ca,
        [Form::Key => 15, Form::Key => 15, Form::Length => 15, Form::Hex16 => 15, Form::Format => 23, Form::Format => 23, Form::Digits12 => 15],
        [Public::PinLength, Public::BlockUnder { format: ca::SECOND_FORMAT, key: ca::ZPK }, Public::Given(ca::SECOND_FORMAT)]),
    row!(b"CC", b"CD", RuleSet::Cc,
        [Form::Key => 15, Form::Key => 15, Form::Length => 15, Form::Hex16 => 15, Form::Format => 23, Form::Format => 23, Form::Digits12 => 15],
        [Public::PinLength, Public::BlockUnder { format: ca::SECOND_FORMAT, key: ca::ZPK }, Public::Given(ca::SECOND_FORMAT)]),
    row!(b"DE", b"DF", RuleSet::De,
        [Form::Key => 15, Form::Hex16 => 15, Form::Length => 15, Form::Digits12 => 15, Form::Digits16 => 15, Form::Validation => 15],
        [Public::Value]),
    row!(b"DG", b"DH", RuleSet::Dg,
        [Form::Pair => 15, Form::Hex16 => 15, Form::Digits12 => 15, Form::Digits1 => 15],
        [Public::Value]),
    row!(b"DA", b"DB", RuleSet::Da,
        [Form::Key => 15, Form::Key => 15, Form::Length => 15, Form::Hex16 => 15, Form::Format => 23, Form::Length => 15, Form::Digits12 => 15,
            Form::Digits16 => 15, Form::Validation => 15, Form::Offset(da::CHECK_LENGTH) => 15],
        []),
    row!(b"EA", b"EB", RuleSet::Ea,
        [Form::Key => 15, Form::Key => 15, Form::Length => 15, Form::Hex16 => 15, Form::Format => 23, Form::Length => 15, Form::Digits12 => 15,
            Form::Digits16 => 15, Form::Validation => 15, Form::Offset(da::CHECK_LENGTH) => 15],
        []),
    row!(b"DC", b"DD", RuleSet::Dc,
        [Form::Key => 15, Form::Pair => 15, Form::Hex16 => 15, Form::Format => 23, Form::Digits12 => 15, Form::Digits1 => 15, Form::Digits4 => 15],
        []),
    row!(b"EC", b"ED", RuleSet::Ec,
        [Form::Key => 15, Form::Pair => 15, Form::Hex16 => 15, Form::Format => 23, Form::Digits12 => 15, Form::Digits1 => 15, Form::Digits4 => 15],
        []),
    row!(b"BA", b"BB", RuleSet::Ba,
        [Form::ClearPin => 15, Form::Digits12 => 15],
        [Public::SealedPin]),
    row!(b"NG", b"NH", RuleSet::Ng,
        [Form::Digits12 => 15, Form::Hex16 => 15],
        [Public::ShowPin]),
    row!(b"JA", b"JB", RuleSet::Ja,
        [Form::Digits12 => 15, Form::Length => 15],
        [Public::SealedPin]),
    row!(b"CW", b"CX", RuleSet::Cw,
        [Form::Pair => 15, Form::Account => 15, Form::Digits4 => 15, Form::Digits3 => 15],
        [Public::Value]),
    row!(b"CY", b"CZ", RuleSet::Cy,
        [Form::Pair => 15, Form::Digits3 => 15, Form::Account => 15, Form::Digits4 => 15, Form::Digits3 => 15],
        []),
    row!(b"M6", b"M7", RuleSet::M6,
        [Form::ZeroToThree => 15, Form::ZeroToTwo => 15, Form::ZeroToOne => 15, Form::OneOrThree => 15, Form::ZeroToThree => 15, Form::MacType => 4,
            Form::Key => 15, Form::Mode23Chain => 15, Form::Count => 15, Form::DataByInput(m6::INPUT) => 15],
        [Public::Value, Public::Chain]),
    row!(b"M8", b"M9", RuleSet::M8,
        [Form::ZeroToThree => 15, Form::ZeroToTwo => 15, Form::ZeroToOne => 15, Form::OneOrThree => 15, Form::ZeroToThree => 15, Form::MacType => 4,
            Form::Key => 15, Form::Mode23Chain => 15, Form::Count => 15, Form::DataByInput(m6::INPUT) => 15, Form::Mode03Mac(m6::SIZE) => 15],
        [Public::Chain]),
    row!(b"B2", b"B3", RuleSet::Plain,
        [Form::Count => 15, Form::Data => 15],
        [Public::Given(b2::DATA)]),
    row!(b"NC", b"ND", RuleSet::Plain,
        [],
        [Public::LmkCheck, Public::Fixed("0001-LAB1")]),
    row!(b"NO", b"NP", RuleSet::Looks,
        [Form::TwoZeros => 15],
        [Public::LiveGrants, Public::Hosts]),
    row!(b"RA", b"RB", RuleSet::Ra,
        [],
        []),
    row!(b"A", b"", RuleSet::A,
        [Form::Act => 15, Form::Minutes => 15, Form::Word => 15, Form::Word => 15],
        [Public::Done]),
    row!(b"C", b"", RuleSet::C,
        [Form::ActOrAll => 15],
        [Public::Cancelled]),
    row!(b"VA", b"", RuleSet::Looks,
        [],
        [Public::Grants]),
    row!(b"Q", b"", RuleSet::Looks,
        [],
        [Public::Numbers]),
    row!(b"LOG", b"", RuleSet::Log,
        [],
        [Public::Notes]),
    row!(b"GC", b"", RuleSet::Gc,
        [Form::KeyType => 4, Form::Scheme => 26, Form::SetNumber => 15],
        [Public::ShowKey(Secret::DrawnKey), Public::Sealed(Secret::DrawnKey), Public::CheckValue(Secret::DrawnKey)]),
    row!(b"FK", b"", RuleSet::Fk,
        [Form::KeyType => 4, Form::Scheme => 26, Form::Component(fk::SCHEME) => 15, Form::Component(fk::SCHEME) => 15, Form::LastComponent(fk::SCHEME) => 15,
            Form::SetNumber => 15],
        [Public::Sealed(Secret::Joined), Public::CheckValue(Secret::Joined)]),
];

/// All rows, those of the hosts first.
pub fn rows() -> &'static [Row]
    ensures { map shape_of result.now ≡ all_rows }
{
    &ROWS
}

// The host rows.
fn host_side() -> &'static [Row]
    ensures { map shape_of result.now ≡ host_rows }
{
    &ROWS[..HOST_ROWS]
}

// The console rows.
fn console_side() -> &'static [Row]
    ensures { map shape_of result.now ≡ console_rows }
{
    &ROWS[HOST_ROWS..]
}

// The row of a code among these rows.
fn find_row(rows: &'static [Row], code: &[u8]) -> Option<&'static Row>
    ensures { option_map shown_shape result ≡ row_with code.now (map shape_of rows.now) }
{
    for row in rows {
        if code == row.code {
            return Some(row);
        }
    }
    None
}

/// The host row of a command code. None exactly where no host row has the code.
pub fn row_of(code: &[u8; 2]) -> Option<&'static Row>
    ensures row { option_map shown_shape result ≡ row_with code.now host_rows }
    ensures host { IfSome result (λ r. IsHostRow (shape_of r.now)) }
    ensures few { IfSome result (λ r. length r.now.fields.now ≤ 12) }
{
    find_row(host_side(), code)
}

/// The console row of a word. None exactly where no console row has the word.
pub fn console_row(word: &[u8]) -> Option<&'static Row>
    ensures row { option_map shown_shape result ≡ row_with word.now console_rows }
    ensures console { IfSome result (λ r. IsConsoleRow (shape_of r.now)) }
    ensures few { IfSome result (λ r. length r.now.fields.now ≤ 12) }
{
    find_row(console_side(), word)
}
