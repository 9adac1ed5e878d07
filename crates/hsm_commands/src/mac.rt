//! MACs of messages, whole and in parts.
ghost use Rattle.std.specs.Prelude.{◌≡◌, ◌≤◌, ◌/◌, ◌%◌, true, IfOk, IsTrue, is_err, length, if◌then◌else◌};
ghost use Rattle.std.specs.List.{list_all};
ghost use Rattle.std.specs.Char.{is_ascii_hexdigit};
ghost use Rattle.hsm_nibbles.specs.Characters.{bytes_of_hex};
ghost use Rattle.hsm_mac.specs.Macs.{takes_key};
ghost use Rattle.hsm_commands.specs.Macs.{part_value, is_uneven};

use hsm_mac::{Alg, Mac, Pad, Uneven, whole};
use hsm_tdes::Key;

// What the data of a message is of its whole message.
#[derive(Clone, Copy)]
pub(crate) enum Part {
    // The whole of it.
    Only,
    // The last part, after this chaining value.
    Last(u64),
    // An earlier part, after this chaining value.
    Open(u64),
}

// What a message asks of its data.
#[derive(Clone, Copy)]
pub(crate) struct MacAsked {
    pub(crate) part: Part,
    pub(crate) alg: Alg,
    pub(crate) pad: Pad,
}

// The MAC where the data ends its message, else the chaining value after it, without the closing step. `Uneven` exactly
// where such data has none.
fn value_of(key: &Key, asked: &MacAsked, bytes: &[u8]) -> Result<u64, Uneven>
    requires { IsTrue (takes_key asked.now.alg key.now) }
    ensures refused { is_err result ≡ is_uneven asked.now.pad bytes.now asked.now.part }
    ensures value { IfOk result (λ value. value ≡ part_value key.now asked.now.alg asked.now.pad bytes.now asked.now.part) }
{
    match asked.part {
        Part::Only => whole(key, asked.alg, asked.pad, bytes),
        Part::Last(start) => Mac::begin(key, asked.alg, start).end(asked.pad, bytes),
        Part::Open(start) => {
            if asked.pad == Pad::Length {
                return Err(Uneven);
            }
            let mut mac = Mac::begin(key, asked.alg, start);
            match mac.update(bytes) {
                Ok(()) => Ok(mac.chain()),
                Err(Uneven) => Err(Uneven),
            }
        }
    }
}

// Writes the bytes that hexadecimal digits name.
fn decode(digits: &[u8], bytes: &mut [u8])
    requires hexadecimal { IsTrue (list_all is_ascii_hexdigit digits.now) }
    requires even { length digits.now % 2 ≡ 0 }
    requires room { length bytes.old ≡ length digits.now / 2 }
    ensures { bytes.new ≡ bytes_of_hex digits.now }
{
    let _ = hex::decode_to_slice(digits, bytes);
}

// The same of the bytes that hexadecimal digits name. It is not inlined: only this way should take the room that they may need.
#[inline(never)]
fn value_of_hex(key: &Key, asked: &MacAsked, digits: &[u8]) -> Result<u64, Uneven>
    requires key { IsTrue (takes_key asked.now.alg key.now) }
    requires hexadecimal { IsTrue (list_all is_ascii_hexdigit digits.now) }
    requires even { length digits.now % 2 ≡ 0 }
    requires short { length digits.now ≤ 65535 }
    ensures refused { is_err result ≡ is_uneven asked.now.pad (bytes_of_hex digits.now) asked.now.part }
    ensures value { IfOk result (λ value. value ≡ part_value key.now asked.now.alg asked.now.pad (bytes_of_hex digits.now) asked.now.part) }
{
    let mut room = [0; 32767];
    let bytes = &mut room[..digits.len() / 2];
    decode(digits, bytes);
    value_of(key, asked, bytes)
}

// The same of data that is given as bytes, or as hexadecimal digits.
pub(crate) fn value_of_data(
    key: &Key,
    asked: &MacAsked,
    hexadecimal: bool,
    text: &[u8],
) -> Result<u64, Uneven>
    requires key { IsTrue (takes_key asked.now.alg key.now) }
    requires digits { hexadecimal ≡ true → list_all is_ascii_hexdigit text.now ≡ true }
    requires even { hexadecimal ≡ true → length text.now % 2 ≡ 0 }
    requires short { length text.now ≤ 65535 }
    ensures refused { is_err result ≡ is_uneven asked.now.pad (if hexadecimal then bytes_of_hex text.now else text.now) asked.now.part }
    ensures value { IfOk result (λ value.
        value ≡ part_value key.now asked.now.alg asked.now.pad (if hexadecimal then bytes_of_hex text.now else text.now) asked.now.part) }
{
    if hexadecimal {
        value_of_hex(key, asked, text)
    } else {
        value_of(key, asked, text)
    }
}
