//! Odd parity of the bytes of a key part.
//!
//! The lowest bit of each byte of a DES key is no part of the key (FIPS 46-3, section 1): it makes the byte odd.
#![tactic(auto)]

ghost use Rattle.std.specs.Prelude.{◌≡◌, ◌↔◌, IsTrue, All, map};
ghost use Rattle.hsm_parity.specs.Parity.{IsOdd, upper, adjusted_byte, adjusted};

/// Whether every byte of the part has an odd number of one bits.
pub fn is_odd(part: &[u8; 8]) -> bool
    ensures { IsTrue result ↔ All IsOdd part.now }
{
    part.iter().all(|byte| byte.count_ones() % 2 == 1)
}

/// The part with odd bytes: each keeps its upper seven bits and gets the lowest bit that makes the number of ones odd.
pub fn adjust(part: [u8; 8]) -> [u8; 8]
    ensures value { result ≡ adjusted part }
    ensures odd { All IsOdd result }
    ensures upper { map upper result ≡ map upper part }
{
    let mut out = part;
    for byte in out.iter_mut() {
        *byte = adjusted_byte(*byte);
    }
    out
}

/// The byte of odd parity with the same upper seven bits.
pub fn adjusted_byte(byte: u8) -> u8
    ensures value { result ≡ adjusted_byte byte }
    ensures odd { IsOdd result }
    ensures upper { upper result ≡ upper byte }
{
    if byte.count_ones() % 2 == 1 {
        byte
    } else {
        byte ^ 1
    }
}
