//! The values that the texts of a message's fields name.
ghost use Rattle.std.specs.Prelude.{◌≡◌, map, IsTrue};
ghost use Rattle.std.specs.List.{list_all};
ghost use Rattle.hsm_types.specs.Pins.{is_decimal};
ghost use Rattle.hsm_rows.specs.Standing.{AreDigits, AreHexDigits};
ghost use Rattle.hsm_answers.specs.Keys.{field_text, set_of};
ghost use Rattle.hsm_answers.specs.Pins.{digits_at, block_at, number_at, format_at};
ghost use Rattle.hsm_commands.specs.Request.{texts_of, message_of};

use crate::request::Request;
use hsm_answers::{block, digits};
use hsm_lmk::LmkSet;
use hsm_pinblock::Format;
use hsm_rows::{text_at, two_digit_value};

// The text of field k.
#[inline]
pub(crate) fn text_of<'m>(request: &Request<'_, 'm>, k: u8) -> &'m [u8]
    ensures { result.now ≡ field_text (texts_of request.now) k }
{
    text_at(request.fields.texts.as_slice(), k)
}

// The LMK set that the message names.
#[inline]
pub(crate) fn lmk_of<'a>(request: &Request<'a, '_>) -> &'a LmkSet
    ensures { result.now ≡ set_of (message_of request.now) }
{
    &request.module.lmks.as_slice()[usize::from(request.fields.set)]
}

// The values of the N decimal digits of field k.
pub(crate) fn digits_of<const N: usize>(request: &Request<'_, '_>, k: u8) -> [u8; N]
    requires { AreDigits N (field_text (texts_of request.now) k) }
    ensures values { result ≡ digits_at (texts_of request.now) k }
    ensures decimal { IsTrue (list_all is_decimal result) }
{
    digits(text_of(request, k))
}

// The block of the 16 hexadecimal digits of field k.
pub(crate) fn block_of_field(request: &Request<'_, '_>, k: u8) -> u64
    requires { AreHexDigits 16 (field_text (texts_of request.now) k) }
    ensures { result ≡ block_at (texts_of request.now) k }
{
    block(text_of(request, k))
}

// The number of the two decimal digits of field k.
#[inline]
pub(crate) fn number_at(request: &Request<'_, '_>, k: u8) -> usize
    ensures { result ≡ number_at (texts_of request.now) k }
{
    two_digit_value(text_of(request, k))
}

// The format that field k names.
#[inline]
pub(crate) fn format_of(request: &Request<'_, '_>, k: u8) -> Format
    ensures { result ≡ format_at (texts_of request.now) k }
{
    match text_of(request, k) {
        b"03" => Format::F03,
        b"05" => Format::F05,
        b"47" => Format::F47,
        _ => Format::F01,
    }
}
