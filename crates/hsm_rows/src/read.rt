//! Reads the fields of a message.
ghost use Rattle.std.specs.Prelude.{◌≡◌, ◌≤◌, map, length, IfSome, IfOk, IfErr, MatchResult, IsTrue, Ok, Err};
ghost use Rattle.hsm_rows.specs.Forms.{set_number, shown};
ghost use Rattle.hsm_rows.specs.Table.{shape_of};
ghost use Rattle.hsm_rows.specs.Reading.{spot_of, is_trailer, set_text_of, behind_set, is_ending, is_left_out, is_end, is_console, ends_with_set, naming, read_text_of, reading, RowReads, RowRefuses};
ghost use Rattle.hsm_rows.specs.Places.{InPlace};

use super::forms::size_of_form;
use super::row::{Code, Field, Form, Row};
use super::texts::{begins_with_set, last_text, set_number};
use arrayvec::ArrayVec;

// Where a field's text lies in what is left: the bytes from here to there.
#[derive(Clone, Copy, Debug, PartialEq, Eq)]
pub(crate) struct Spot {
    pub(crate) from: usize,
    pub(crate) to: usize,
}

/// The texts of a row's fields in order, the number of the LMK set that the message names, and the trailer. An absent
/// field is an empty slice.
#[derive(Drop)]
pub struct Fields<'m> {
    pub texts: ArrayVec<&'m [u8], 12>,
    /// 0 where none is named.
    pub set: u8,
    /// Nothing, or the byte 19 (hex) and at most 32 bytes.
    pub trailer: &'m [u8],
}

// Whether a console field of the form is left out before what is left.
fn is_left_out(form: Form, rest: &[u8]) -> bool
    ensures { result ≡ is_left_out form rest.now }
{
    match form {
        Form::LastComponent(_) => rest.is_empty() || rest.starts_with(b" %"),
        Form::SetNumber => rest.is_empty(),
        _ => false,
    }
}

#[tactic(auto, unfolding(crate::specs::Reading::spot_of))]
fn find_spot(console: bool, form: Form, texts: &[&[u8]], rest: &[u8]) -> Option<Spot>
    ensures spot { result ≡ spot_of console form (map shown texts.now) rest.now }
    ensures within { IfSome result (λ s. (s.from ≤ s.to) × (s.to ≤ length rest.now)) }
{
    if !console {
        return match size_of_form(form, texts, rest) {
            Some(n) => Some(Spot { from: 0, to: n }),
            None => None,
        };
    }
    if is_left_out(form, rest) {
        return Some(Spot { from: 0, to: 0 });
    }
    if !rest.starts_with(b" ") {
        return None;
    }
    match size_of_form(form, texts, &rest[1..]) {
        None | Some(0) => None,
        Some(n) => Some(Spot { from: 1, to: 1 + n }),
    }
}

#[tactic(auto, unfolding(crate::specs::Reading::is_trailer))]
fn is_trailer(rest: &[u8]) -> bool
    ensures stands { result ≡ is_trailer rest.now }
    ensures short { IsTrue result → length rest.now ≤ 33 }
{
    rest.is_empty() || rest.starts_with(&[0x19]) && rest.len() <= 33
}

// What follows the fields: the text of a set or nothing, and what follows that.
#[tactic(auto, unfolding(crate::specs::Reading::set_text_of, crate::specs::Reading::behind_set))]
fn split_ending(rest: &[u8]) -> (&[u8], &[u8])
    ensures set { result.0.now ≡ set_text_of rest.entry.now }
    ensures behind { result.1.now ≡ behind_set rest.entry.now }
{
    if begins_with_set(rest) {
        (&rest[..3], &rest[3..])
    } else {
        (b"", rest)
    }
}

// Whether it may follow the fields, and what follows the text of a set is no longer than a trailer.
#[tactic(auto, unfolding(crate::specs::Reading::is_ending, crate::specs::Reading::behind_set))]
fn is_ending(console: bool, rest: &[u8]) -> bool
    ensures stands { result ≡ is_ending console rest.now }
    ensures short { IsTrue result → length (behind_set rest.now) ≤ 33 }
{
    if console {
        rest.is_empty()
    } else {
        is_trailer(split_ending(rest).1)
    }
}

// Whether the last field names a set.
fn ends_with_set(fields: &[Field]) -> bool
    ensures { result ≡ ends_with_set fields.now }
{
    match fields {
        [] => false,
        [field] => matches!(field.form, Form::SetNumber),
        [_, more @ ..] => ends_with_set(more),
    }
}

// The set that the last field, or what follows the fields, names.
fn named_set(fields: &[Field], texts: &[&[u8]], following: &[u8]) -> u8
    ensures { result ≡ set_number (naming fields.now (map shown texts.now) following.now) }
{
    if ends_with_set(fields) {
        set_number(last_text(texts))
    } else {
        set_number(following)
    }
}

/// Whether the row is the console's: it has no reply code.
pub fn is_console(row: &Row) -> bool
    ensures { result ≡ is_console (shape_of row.now) }
{
    row.reply.is_empty()
}

/// Reads the texts of a row's fields off a message: what follows its command code, or its word; and the LMK set that it
/// names, which is set 0 where it names none.
///
/// The refusal is the code of the first field, from the left, of which no text stands; else 15 where what follows the
/// fields is no `%` and two decimal digits, or nothing, followed by a trailer, which is nothing, or the byte 19 (hex) and
/// at most 32 bytes. In a console row nothing follows the fields. Before each present field of a console row stands one
/// space.
pub fn read_fields<'m>(row: &Row, text: &'m [u8]) -> Result<Fields<'m>, Code>
    requires few { length row.now.fields.now ≤ 12 }

    // What is read is what the row reads, and else the row refuses.
    ensures reading { MatchResult result (λ f. reading (shape_of row.now) text.now ≡ Ok (read_text_of f)) (λ code. reading (shape_of row.now) text.now ≡ Err code) }
    ensures reads { IfOk result (λ f. RowReads (shape_of row.now) text.now (read_text_of f)) }
    ensures refuses { IfErr result (λ code. RowRefuses (shape_of row.now) text.now code) }

    // Each text is the slice of the message at its place.
    ensures in_place { IfOk result (λ f. InPlace (is_console (shape_of row.now)) text.now (read_text_of f)) }
    ensures all { IfOk result (λ f. length f.texts.items ≡ length row.now.fields.now) }
    ensures short { IfOk result (λ f. length f.trailer.now ≤ 33) }
{
    let console = is_console(row);
    let mut texts = ArrayVec::new();
    let mut rest = text;
    for field in row.fields {
        match find_spot(console, field.form, texts.as_slice(), rest) {
            Some(spot) => {
                texts.push(&rest[spot.from..spot.to]);
                rest = &rest[spot.to..];
            }
            None => return Err(field.code),
        }
    }
    if !is_ending(console, rest) {
        return Err(Code(15));
    }
    let (following, trailer) = split_ending(rest);
    let set = named_set(row.fields, texts.as_slice(), following);
    Ok(Fields {
        texts,
        set,
        trailer,
    })
}
