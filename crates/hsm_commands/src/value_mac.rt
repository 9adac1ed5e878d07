//! The MAC or the chaining value of a message.
ghost use Rattle.std.specs.Prelude.{◌≡◌, ◌||◌, None, Some, true, take, length, codes, if◌then◌else◌};
ghost use Rattle.std.specs.Str.{bytes_eq};
ghost use Rattle.std.specs.Option.{option_map};
ghost use Rattle.hsm_mac.specs.Macs.{takes_key};
ghost use Rattle.hsm_rows.specs.declared.rules.ValueSource.TheVariants.{MacOf};
ghost use Rattle.hsm_answers.specs.Checks.{checks_fault};
ghost use Rattle.hsm_answers.specs.Macs.{is_only, is_digit_at, mac_algorithm, mac_data, mac_fault, mac_padding, mac_start};
ghost use Rattle.hsm_answers.specs.Values.{row_value, chain_value};
ghost use Rattle.hsm_answers.specs.Plans.{code_number};
ghost use Rattle.hsm_commands.specs.Macs.{AreMacTexts, ends_by, mac_asked, part_by, refused_by, value_under};
ghost use Rattle.hsm_commands.specs.Demands.{value_demands};
ghost use Rattle.hsm_commands.specs.Written.{written_text};
ghost use Rattle.hsm_commands.specs.Request.{Meets, row_rules, texts_of, message_of};

use crate::fields::text_of;
use crate::keys::{OpenedKeys, held_key};
use crate::mac::{MacAsked, Part, value_of_data};
use crate::request::Request;
use crate::value::{Texts, Written};
use hsm_answers::block;
use hsm_mac::{Alg, Pad};
use hsm_nibbles::block_characters;
use hsm_rows::{Code, MacFields, same_text};
use hsm_tdes::Key;

// The chaining value that is given, else 0.
fn mac_start(request: &Request<'_, '_>, f: &MacFields) -> u64
    requires { AreMacTexts (texts_of request.now) f.now }
    ensures { result ≡ mac_start (texts_of request.now) f.now }
{
    let text = text_of(request, f.chain);
    if text.is_empty() { 0 } else { block(text) }
}

// The part that the mode tells, after the chaining value.
fn part_by(mode: &[u8], start: u64) -> Part
    ensures { result ≡ part_by mode.now start }
{
    if same_text(mode, b"0") {
        Part::Only
    } else if same_text(mode, b"3") {
        Part::Last(start)
    } else {
        Part::Open(start)
    }
}

// The algorithm that the message names.
fn mac_algorithm(request: &Request<'_, '_>, f: &MacFields) -> Alg
    ensures { result ≡ mac_algorithm (texts_of request.now) f.now }
{
    if same_text(text_of(request, f.algorithm), b"3") {
        Alg::Three
    } else {
        Alg::One
    }
}

// The padding that the message names.
fn mac_padding(request: &Request<'_, '_>, f: &MacFields) -> Pad
    ensures { result ≡ mac_padding (texts_of request.now) f.now }
{
    match text_of(request, f.padding) {
        b"1" => Pad::Zeros,
        b"2" => Pad::Bit,
        b"3" => Pad::Length,
        _ => Pad::Bare,
    }
}

// What a message asks of its data.
fn mac_asked(request: &Request<'_, '_>, f: &MacFields) -> MacAsked
    requires { AreMacTexts (texts_of request.now) f.now }
    ensures { result ≡ mac_asked (texts_of request.now) f.now }
{
    MacAsked {
        part: part_by(text_of(request, f.mode), mac_start(request, f)),
        alg: mac_algorithm(request, f),
        pad: mac_padding(request, f),
    }
}

// Whether the mode ends its message.
fn ends_by(mode: &[u8]) -> bool
    ensures { result ≡ ends_by mode.now }
{
    same_text(mode, b"0") || same_text(mode, b"3")
}

// The number of bytes of the data.
#[tactic(auto, using(crate::proofs::MacLaws::hex_half))]
fn data_length(request: &Request<'_, '_>, f: &MacFields) -> usize
    requires { AreMacTexts (texts_of request.now) f.now }
    ensures { result ≡ length (mac_data (texts_of request.now) f.now) }
{
    let text = text_of(request, f.message);
    if same_text(text_of(request, f.input), b"1") {
        text.len() / 2
    } else {
        text.len()
    }
}

// 80 for so many bytes of data.
fn refused_by(only: bool, three: bool, pad: Pad, n: usize) -> Option<Code>
    ensures { option_map code_number result ≡ refused_by only three pad n }
{
    if n == 0 {
        return Some(Code(80));
    }
    if (!(only || three) || pad == Pad::Bare) && n % 8 != 0 {
        return Some(Code(80));
    }
    if pad == Pad::Length && !only {
        Some(Code(80))
    } else {
        None
    }
}

// 80 where the data has no MAC.
pub(crate) fn mac_code(request: &Request<'_, '_>, f: &MacFields) -> Option<Code>
    requires { AreMacTexts (texts_of request.now) f.now }
    ensures { option_map code_number result ≡ mac_fault (texts_of request.now) f.now }
{
    let mode = text_of(request, f.mode);
    let n = data_length(request, f);
    refused_by(
        same_text(mode, b"0"),
        same_text(mode, b"3"),
        mac_padding(request, f),
        n,
    )
}

// The MAC where the data ends its message, else the chaining value after it.
fn data_value(request: &Request<'_, '_>, f: &MacFields, key: &Key) -> u64
    requires texts { AreMacTexts (texts_of request.now) f.now }
    requires takes { takes_key (mac_algorithm (texts_of request.now) f.now) key.now ≡ true }
    requires sound { mac_fault (texts_of request.now) f.now ≡ None }
    ensures { result ≡ value_under key.now (texts_of request.now) f.now }
{
    let asked = mac_asked(request, f);
    let hexadecimal = same_text(text_of(request, f.input), b"1");
    match value_of_data(key, &asked, hexadecimal, text_of(request, f.message)) {
        Ok(value) => value,
        // the data checks hold, and one of them is that of this data
        Err(_) => unreachable!(),
    }
}

// A MAC of so many digits by its size.
fn mac_digits(size: &[u8], digits: &[u8; 16]) -> Written
    ensures { written_text result ≡ (if bytes_eq size.now (codes "0") then take 8 digits.now else digits.now) }
{
    if same_text(size, b"0") {
        let mut half = [0; 8];
        half.copy_from_slice(&digits[..8]);
        Written::Eight(half)
    } else {
        Written::Sixteen(*digits)
    }
}

// The MAC where the data ends its message, else the chaining value after it, as they are written. It is not inlined: only
// the messages that have one should make its room.
#[inline(never)]
#[tactic(auto, unfolding(hsm_answers::specs::Values::row_value, hsm_answers::specs::Values::chain_value))]
pub(crate) fn mac_texts(request: &Request<'_, '_>, keys: &OpenedKeys, f: &MacFields) -> Texts
    requires stands { Meets request.now keys.now (value_demands (row_rules request.now) (MacOf f.now)) }
    requires good { checks_fault (message_of request.now) ≡ None }
    ensures value { written_text result.value ≡ row_value (message_of request.now) (MacOf f.now) }
    ensures chain { written_text result.chain ≡ chain_value (message_of request.now) (MacOf f.now) }
{
    let digits = block_characters(data_value(request, f, &held_key(keys, f.key)));
    if ends_by(text_of(request, f.mode)) {
        Texts {
            value: mac_digits(text_of(request, f.size), &digits),
            chain: Written::Nothing,
        }
    } else {
        Texts {
            value: Written::Nothing,
            chain: Written::Sixteen(digits),
        }
    }
}
