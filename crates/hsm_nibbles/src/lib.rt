//! Blocks of 64 bits as nibbles, and hexadecimal characters: words that several crates need.
#![tactic(auto)]

ghost use Rattle.std.specs.Prelude.{◌≡◌, ◌<◌, map, IsTrue};
ghost use Rattle.std.specs.Char.{is_ascii_hexdigit};
ghost use Rattle.std.specs.Int.Digits.{AllBelowBase};
ghost use Rattle.hsm_nibbles.specs.Nibbles.{nibbles_of, block_of, xor_nibbles};
ghost use Rattle.hsm_nibbles.specs.Characters.{hex_character, digit_value};

pub mod laws;

/// The sixteen nibbles of a block, the most significant first.
pub fn nibbles_of(block: u64) -> [u8; 16]
    ensures nibbles { result ≡ nibbles_of block }
    ensures bounds { AllBelowBase 16 result }
{
    let mut out = [0; 16];
    for i in 0..16 {
        out[i] = (block >> (60 - 4 * i) & 15) as u8;
    }
    out
}

/// The block of these nibbles, the most significant first.
pub fn block_of(nibbles: &[u8; 16]) -> u64
    requires { AllBelowBase 16 nibbles.now }
    ensures { result ≡ block_of nibbles.now }
{
    let mut block = 0;
    for nibble in nibbles {
        block = block << 4 | u64::from(*nibble);
    }
    block
}

/// Exclusive-or nibble by nibble.
pub fn xor_nibbles(x: &[u8; 16], y: &[u8; 16]) -> [u8; 16]
    ensures { result ≡ xor_nibbles x.now y.now }
{
    let mut out = [0; 16];
    for i in 0..16 {
        out[i] = x[i] ^ y[i];
    }
    out
}

/// The upper-case hexadecimal character of a digit.
pub fn hex_character(digit: u8) -> u8
    requires { digit < 16 }
    ensures { result ≡ hex_character digit }
{
    // the last term is the 7 characters between '9' and 'A', from the digit 10 on
    b'0' + digit + 7 * ((digit + 6) >> 4)
}

/// The digit of a hexadecimal character of either case.
pub fn digit_value(character: u8) -> u8
    requires { IsTrue (is_ascii_hexdigit character) }
    ensures value { result ≡ digit_value character }
    ensures bound { result < 16 }
{
    // bit 6 tells letters, whose last four bits count from 1, from digits, whose last four bits are their values
    (character & 15) + 9 * (character >> 6)
}

/// The sixteen upper-case hexadecimal characters that write a block.
pub fn block_characters(block: u64) -> [u8; 16]
    ensures { result ≡ map hex_character (nibbles_of block) }
{
    let nibbles = nibbles_of(block);
    let mut out = [0; 16];
    for i in 0..16 {
        out[i] = hex_character(nibbles[i]);
    }
    out
}
