//! Digits and blocks in the fields of a message.
ghost use Rattle.std.specs.Prelude.{◌≡◌, ◌+◌, ◌≤◌, ◌++◌, length, map, IsTrue};
ghost use Rattle.std.specs.Str.{bytes_eq};
ghost use Rattle.std.specs.Option.{option_map};
ghost use Rattle.std.specs.List.{list_all};
ghost use Rattle.std.specs.Int.Digits.{AllBelowBase};
ghost use Rattle.hsm_types.specs.Pins.{is_decimal};
ghost use Rattle.hsm_nibbles.specs.Nibbles.{block_of};
ghost use Rattle.hsm_nibbles.specs.Characters.{digit_value, hex_character};
ghost use Rattle.hsm_rows.specs.Standing.{AreDigits, AreHexDigits};
ghost use Rattle.hsm_answers.specs.Pins.{block_text};
ghost use Rattle.hsm_answers.specs.Plans.{code_number};
ghost use Rattle.hsm_answers.specs.Given.{compared_code};

use hsm_nibbles::{block_characters, block_of, hex_character};
use hsm_rows::{Code, digit};
use hsm_text::Reply;

/// The values of N characters, as those of hexadecimal digits of either case.
fn digit_values<const N: usize>(text: &[u8]) -> [u8; N]
    requires { length text.now ≡ N }
    ensures { result ≡ map digit_value text.now }
{
    let mut out = [0; N];
    for i in 0..N {
        out[i] = digit(text[i]);
    }
    out
}

/// The values of N decimal digits.
pub fn digits<const N: usize>(text: &[u8]) -> [u8; N]
    requires { AreDigits N text.now }
    ensures values { result ≡ map digit_value text.now }
    ensures decimal { IsTrue (list_all is_decimal result) }
{
    digit_values(text)
}

// The nibbles of 16 hexadecimal digits.
fn nibbles(text: &[u8]) -> [u8; 16]
    requires { AreHexDigits 16 text.now }
    ensures values { result ≡ map digit_value text.now }
    ensures bounds { AllBelowBase 16 result }
{
    digit_values(text)
}

/// The block of 16 hexadecimal digits, of either case.
pub fn block(text: &[u8]) -> u64
    requires { AreHexDigits 16 text.now }
    ensures { result ≡ block_of (map digit_value text.now) }
{
    block_of(&nibbles(text))
}

/// The upper-case hexadecimal characters of N digits.
pub fn characters<const N: usize>(digits: &[u8; N]) -> [u8; N]
    requires { AllBelowBase 16 digits.now }
    ensures { result ≡ map hex_character digits.now }
{
    let mut out = [0; N];
    for i in 0..N {
        out[i] = hex_character(digits[i]);
    }
    out
}

// Whether the two texts are of the same digits, letters being of either case.
fn same_digits(given: &[u8], written: &[u8]) -> bool
    ensures { result ≡ bytes_eq (map digit_value given.now) (map digit_value written.now) }
{
    let mut left = given;
    let mut right = written;
    while let [x, more @ ..] = left {
        match right {
            [y, rest @ ..] if digit(*x) == digit(*y) => right = rest,
            _ => return false,
        }
        left = more;
    }
    right.is_empty()
}

/// 01 where a value is given that isn't the row's value as it is written; letters may be of either case.
pub fn compared(given: &[u8], written: &[u8]) -> Option<Code>
    ensures { option_map code_number result ≡ compared_code given.now written.now }
{
    if given.is_empty() || same_digits(given, written) {
        None
    } else {
        Some(Code(1))
    }
}

/// Appends the 16 upper-case hexadecimal digits of a block.
pub fn put_block(reply: &mut Reply, block: u64)
    requires room { length reply.old ≤ 65000 }
    ensures text { reply.new ≡ reply.old ++ block_text block }
    ensures grown { length reply.new ≡ length reply.old + 16 }
{
    reply.put(&block_characters(block));
}
