//! DES with each permutation written by `permute`.

ghost use Rattle.std.specs.Prelude.{◌≡◌, ◌+◌, ◌-◌, ◌*◌, ◌^◌, ◌<◌, ◌≤◌, IsTrue, map, length};
ghost use Rattle.hsm_des.specs.Bits.{bits, lists_positions, number, pick};
ghost use Rattle.hsm_des.specs.Des.{cipher_function, Halves, after_rounds, cipher, turned, round_keys, key_bits, des_encrypt};
ghost use Rattle.hsm_des.specs.Tables.{initial_permutation, final_permutation, expansion, key_choice, round_key_choice};

use crate::merged::merged_entry;
use crate::tables::{
    EXPANSION, FINAL_PERMUTATION, INITIAL_PERMUTATION, KEY_CHOICE, LEFT_SHIFTS, ROUND_KEY_CHOICE,
};
use crate::words::narrow;

/// Bit i of the result, of N bits, is bit `table[i]` of x, of `width` bits. Bits are counted from 1,
/// the most significant one.
pub fn permute<const N: usize>(table: &[u8; N], width: u32, x: u64) -> u64
    requires entries { IsTrue (lists_positions width table.now) }
    requires length { N ≤ 64 }
    requires width { width ≤ 64 }
    requires number { x < 2 ^ width }
    ensures value { result ≡ number (pick table.now (bits width x)) }
    ensures bound { result < 2 ^ N }
{
    let mut out = 0;
    for position in table {
        out = out << 1 | x >> (width - u32::from(*position)) & 1;
    }
    out
}

fn initial(block: u64) -> u64
    ensures { bits 64 result ≡ pick initial_permutation (bits 64 block) }
{
    permute(&INITIAL_PERMUTATION, 64, block)
}

#[tactic(auto, unfolding(crate::specs::Tables::final_permutation))]
fn last(x: u64) -> u64
    ensures { result ≡ number (pick final_permutation (bits 64 x)) }
{
    permute(&FINAL_PERMUTATION, 64, x)
}

fn expand(half: u32) -> u64
    ensures { bits 48 result ≡ pick expansion (bits 32 half) }
{
    permute(&EXPANSION, 32, u64::from(half))
}

fn choose_key(key: u64) -> u64
    ensures bits { bits 56 result ≡ pick key_choice (bits 64 key) }
    ensures bound { result < 2 ^ 56 }
{
    permute(&KEY_CHOICE, 64, key)
}

fn choose_round_key(x: u64) -> u64
    requires { x < 2 ^ 56 }
    ensures { bits 48 result ≡ pick round_key_choice (bits 56 x) }
{
    permute(&ROUND_KEY_CHOICE, 56, x)
}

// `half`, of 28 bits, turned to the left.
fn turned(half: u64, shift: u32) -> u64
    requires half { half < 2 ^ 28 }
    requires shift { shift ≤ 28 }
    ensures bits { bits 28 result ≡ turned shift (bits 28 half) }
    ensures bound { result < 2 ^ 28 }
{
    (half << shift | half >> (28 - shift)) & 0xFFF_FFFF
}

fn round_keys(key: [u8; 8]) -> [u64; 16]
    ensures { map (bits 48) result ≡ round_keys (key_bits key) }
{
    let chosen = choose_key(u64::from_be_bytes(key));
    let mut c = chosen >> 28;
    let mut d = chosen & 0xFFF_FFFF;
    let mut keys = [0; 16];
    for i in 0..16 {
        let shift = u32::from(LEFT_SHIFTS[i]);
        c = turned(c, shift);
        d = turned(d, shift);
        keys[i] = choose_round_key(c << 28 | d);
    }
    keys
}

// f (R, K)
fn cipher_function(half: u32, key: u64) -> u32
    ensures { bits 32 result ≡ cipher_function (bits 32 half) (bits 48 key) }
{
    let sixes = expand(half) ^ key;
    let mut out = 0;
    for i in 0..8 {
        out ^= merged_entry(i, sixes >> (42 - 6 * i) & 63);
    }
    narrow(out)
}

fn after_rounds(keys: &[u64; 16], left: u32, right: u32) -> (u32, u32)
    ensures { record { left = bits 32 result.0; right = bits 32 result.1 }
        ≡ after_rounds (map (bits 48) keys.now) (record { left = bits 32 left; right = bits 32 right }) }
{
    let mut left = left;
    let mut right = right;
    for key in keys {
        let next = left ^ cipher_function(right, *key);
        left = right;
        right = next;
    }
    (left, right)
}

fn cipher(keys: &[u64; 16], block: u64) -> u64
    ensures { result ≡ number (cipher (map (bits 48) keys.now) (bits 64 block)) }
{
    let x = initial(block);
    let (left, right) = after_rounds(keys, (x >> 32) as u32, (x & 0xFFFF_FFFF) as u32);
    last(u64::from(right) << 32 | u64::from(left))
}

pub fn encrypt(key: [u8; 8], block: u64) -> u64
    ensures { result ≡ des_encrypt key block }
{
    cipher(&round_keys(key), block)
}
