//! Two blocks side by side: a round of each in turn, so that neither waits for the look-ups of the other.

ghost use Rattle.std.specs.Prelude.{◌≡◌, map};
ghost use Rattle.hsm_des.specs.Des.{round, encrypted, decrypted};
ghost use Rattle.hsm_des.specs.Words.{round_key};
ghost use Rattle.hsm_des.specs.Beside.{AreWide, block_held, held};

use crate::words::{Schedule, cipher_function, wide_initial, wide_last};
use std::marker::Model;

// IP: the halves of a block, in wide form.
#[inline(always)]
fn halves_of(block: u64) -> (u64, u64)
    ensures block { block_held result ≡ block }
    ensures wide { AreWide result }
{
    wide_initial(block)
}

// The inverse of IP: the block of two halves in wide form.
#[inline(always)]
fn block_of(halves: (u64, u64)) -> u64
    ensures { result ≡ block_held halves }
{
    wide_last(halves.0, halves.1)
}

// One round of a block.
#[inline(always)]
fn round(halves: (u64, u64), key: u64) -> (u64, u64)
    requires { AreWide halves }
    ensures halves { held result ≡ round (held halves) (round_key key) }
    ensures wide { AreWide result }
{
    (halves.1, halves.0 ^ cipher_function(halves.1, key))
}

// The rounds of two blocks, and the exchange after them.
fn two_ahead(
    first_keys: &[u64; 16],
    second_keys: &[u64; 16],
    first: (u64, u64),
    second: (u64, u64),
) -> ((u64, u64), (u64, u64))
    requires first { AreWide first }
    requires second { AreWide second }
    ensures first { block_held result.0 ≡ encrypted (map round_key first_keys.now) (block_held first) }
    ensures second { block_held result.1 ≡ encrypted (map round_key second_keys.now) (block_held second) }
    ensures first_wide { AreWide result.0 }
    ensures second_wide { AreWide result.1 }
{
    let mut first = first;
    let mut second = second;
    for i in 0..16 {
        first = round(first, first_keys[i]);
        second = round(second, second_keys[i]);
    }
    ((first.1, first.0), (second.1, second.0))
}

// The rounds of two blocks with the keys in reverse, and the exchange after them.
fn two_back(
    first_keys: &[u64; 16],
    second_keys: &[u64; 16],
    first: (u64, u64),
    second: (u64, u64),
) -> ((u64, u64), (u64, u64))
    requires first { AreWide first }
    requires second { AreWide second }
    ensures first { block_held result.0 ≡ decrypted (map round_key first_keys.now) (block_held first) }
    ensures second { block_held result.1 ≡ decrypted (map round_key second_keys.now) (block_held second) }
    ensures first_wide { AreWide result.0 }
    ensures second_wide { AreWide result.1 }
{
    let mut first = first;
    let mut second = second;
    for i in 0..16 {
        first = round(first, first_keys[15 - i]);
        second = round(second, second_keys[15 - i]);
    }
    ((first.1, first.0), (second.1, second.0))
}

/// Two blocks that are enciphered and deciphered side by side. Contracts see the pair of the blocks.
///
/// IP and its inverse are made once for all that is done with them.
#[derive(Drop)]
pub struct Two {
    first: (u64, u64),
    second: (u64, u64),
}

impl Model for Two {
    ghost use Rattle.std.specs.Prelude.{ℕ};
    ghost use Rattle.hsm_des.specs.Beside.{AreWide, block_held};

    ghost Value = { ℕ × ℕ };

    ghost view = { λ s. (block_held s.first, block_held s.second) };

    ghost invariant = { λ s. AreWide s.first × AreWide s.second };
}

impl Two {
    /// These blocks.
    pub fn new(first: u64, second: u64) -> Two
        ensures { result ≡ (first, second) }
    {
        Two {
            first: halves_of(first),
            second: halves_of(second),
        }
    }

    /// The blocks.
    pub fn blocks(&self) -> (u64, u64)
        ensures { result ≡ self.now }
    {
        (block_of(self.first), block_of(self.second))
    }

    /// Enciphers each block under a schedule of its own, as `encrypt` does.
    pub fn encrypt(&mut self, first: &Schedule, second: &Schedule)
        ensures { self.new ≡ (encrypted first.now self.old.0, encrypted second.now self.old.1) }
    {
        let (one, other) = two_ahead(&first.keys, &second.keys, self.first, self.second);
        self.first = one;
        self.second = other;
    }

    /// Deciphers each block under a schedule of its own, as `decrypt` does.
    pub fn decrypt(&mut self, first: &Schedule, second: &Schedule)
        ensures { self.new ≡ (decrypted first.now self.old.0, decrypted second.now self.old.1) }
    {
        let (one, other) = two_back(&first.keys, &second.keys, self.first, self.second);
        self.first = one;
        self.second = other;
    }
}
