//! A row as a user sees it.
ghost use Rattle.std.specs.Prelude.{◌≡◌, ◌≤◌, ◌<◌, ◌+◌, ◌++◌, [], length, map, codes};
ghost use Rattle.std.specs.List.{flat_map};
ghost use Rattle.hsm_rows.specs.Table.{shape_of, term_of, IsHostRow};
ghost use Rattle.hsm_rows.specs.Texts.{form_text, number_text};
ghost use Rattle.hsm_rows.specs.Clear.{shows};
ghost use Rattle.hsm_rows.specs.Explain.{line, field_line, clear_lines, explain_text};

use super::row::{Field, Form, Public, Row};
use hsm_text::Reply;

impl Form {
    ghost use Rattle.std.specs.Prelude.{◌≡◌};
    ghost use Rattle.hsm_rows.specs.Texts.{form_text};

    /// The form as it is printed.
    pub fn text(self) -> &'static str
        ensures { result.now ≡ form_text self }
    {
        match self {
            Form::Digits1 => "1N",
            Form::Digits3 => "3N",
            Form::Digits4 => "4N",
            Form::Digits12 => "12N",
            Form::Digits16 => "16N",
            Form::Hex16 => "16H",
            Form::Key => "K",
            Form::Pair => "P",
            Form::WrappedKey => "W",
            Form::KeyByFlag(_) => "KF",
            Form::KeyType => "type",
            Form::MacType => "mactype",
            Form::Type2 => "type2",
            Form::Flag => "flag",
            Form::Scheme => "scheme",
            Form::WrapScheme => "wscheme",
            Form::Format => "format",
            Form::Length => "len",
            Form::Wrapper => "[;f]",
            Form::Account => "pan",
            Form::ClearPin => "12F",
            Form::Offset(_) => "offs",
            Form::Validation => "12V",
            Form::ZeroToOne => "0to1",
            Form::ZeroToTwo => "0to2",
            Form::ZeroToThree => "0to3",
            Form::OneOrThree => "1or3",
            Form::Count => "count",
            Form::Data => "data",
            Form::DataByInput(_) => "data",
            Form::Mode03Mac(_) => "mode03:mac",
            Form::TwoZeros => "00",
            Form::FfSemicolon(_) => "FF:;",
            Form::FfType(_) => "FF:type",
            Form::Mode1Wrapper => "mode1:[;f]",
            Form::Mode1Key => "mode1:K",
            Form::Mode1WrapScheme => "mode1:wscheme",
            Form::Mode23Chain => "mode23:16H",
            Form::Component(_) => "comp",
            Form::LastComponent(_) => "[comp]",
            Form::SetNumber => "[%nn]",
            Form::Act => "act",
            Form::ActOrAll => "act*",
            Form::Minutes => "min",
            Form::Word => "word",
        }
    }
}

// The first line: the code, a space and the reply code.
fn put_codes(out: &mut Reply, code: &[u8], reply: &[u8])
    requires { length out.old + length (line (code.now ++ (codes " " ++ reply.now))) ≤ 65535 }
    ensures { out.new ≡ out.old ++ line (code.now ++ (codes " " ++ reply.now)) }
{
    out.put(code);
    out.put(b" ");
    out.put(reply);
    out.put(b"\n");
}

// A field's line: its form, a space and its code.
fn put_field(out: &mut Reply, field: Field)
    requires { length out.old + length (field_line field) ≤ 65535 }
    ensures { out.new ≡ out.old ++ field_line field }
{
    out.put(field.form.text().as_bytes());
    out.put(b" ");
    out.put(&field.code.digits());
    out.put(b"\n");
}

// The lines of the fields.
fn put_fields(out: &mut Reply, fields: &[Field])
    requires { length out.old + length (flat_map field_line fields.now) ≤ 65535 }
    ensures { out.new ≡ out.old ++ flat_map field_line fields.now }
{
    for field in fields {
        put_field(out, *field);
    }
}

// The digits of a number below 100, without a leading zero.
fn put_number(out: &mut Reply, number: u8)
    requires { length out.old + length (number_text number) ≤ 65535 }
    ensures { out.new ≡ out.old ++ number_text number }
{
    if number < 10 {
        out.put(&[b'0' + number]);
    } else {
        out.put(&[b'0' + number / 10, b'0' + number % 10]);
    }
}

// Whether a reply field shows a secret in the clear.
fn shows(term: Public) -> bool
    ensures { result ≡ shows term }
{
    matches!(term, Public::ShowKey(_) | Public::ShowPin)
}

// The lines of the clear reply fields, the first field being at this place.
fn put_clear(out: &mut Reply, first: u8, terms: &[Public])
    requires few { first + length terms.now < 100 }
    requires room { length out.old + length (clear_lines first (map term_of terms.now)) ≤ 65535 }
    ensures { out.new ≡ out.old ++ clear_lines first (map term_of terms.now) }
{
    let mut place = first;
    for term in terms {
        if shows(*term) {
            out.put(b"clear ");
            put_number(out, place);
            out.put(b"\n");
        }
        place += 1;
    }
}

/// Writes what a user is told of a host row: its code and reply code; each field's form and the code of its refusal;
/// and of each reply field that shows a clear key or PIN its place, counted from 1.
#[tactic(auto, unfolding(crate::specs::Explain::explain_text))]
pub fn explain(row: &Row, out: &mut Reply)
    requires host { IsHostRow (shape_of row.now) }
    requires empty { out.old ≡ [] }
    ensures { out.new ≡ explain_text (shape_of row.now) }
{
    put_codes(out, row.code, row.reply);
    put_fields(out, row.fields);
    put_clear(out, 1, row.terms);
}
