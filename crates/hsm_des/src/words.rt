//! DES on words of 32 and 64 bits: each permutation of a block by five exchanges of bits between its
//! halves, the rounds on halves in wide form with the S boxes merged with P, and PC-2 by tables.

ghost use Rattle.std.specs.Prelude.{◌≡◌, ◌+◌, ◌-◌, ◌*◌, ◌^◌, ◌<◌, ◌≤◌, ◌++◌, map, reverse, length, take, drop};
ghost use Rattle.hsm_des.specs.Bits.{bits, number, pick};
ghost use Rattle.hsm_des.specs.Des.{cipher_function, Halves, after_rounds, cipher, turned, round_keys, key_bits, encrypted, decrypted};
ghost use Rattle.hsm_des.specs.Tables.{initial_permutation, final_permutation, key_choice, round_key_choice};
ghost use Rattle.hsm_des.specs.Words.{IsWide, half_of, lower_exchanged, round_key, upper_exchanged, wide_places, word_of};

use crate::key_parts::key_part;
use crate::merged::merged_entry;
use std::marker::Model;

// The bits under the mask in which `upper >> shift` and `lower` differ, exchanged.
#[inline(always)]
fn exchange(upper: u32, lower: u32, shift: u32, mask: u32) -> (u32, u32)
    requires { shift < 32 }
    ensures upper { result.0 ≡ upper_exchanged shift mask upper lower }
    ensures lower { result.1 ≡ lower_exchanged shift mask upper lower }
{
    let differing = (upper >> shift ^ lower) & mask;
    (upper ^ differing << shift, lower ^ differing)
}

// IP, and the halves of what it gives.
#[inline(always)]
fn initial(block: u64) -> (u32, u32)
    ensures left { bits 32 result.0 ≡ take 32 (pick initial_permutation (bits 64 block)) }
    ensures right { bits 32 result.1 ≡ drop 32 (pick initial_permutation (bits 64 block)) }
{
    let left = (block >> 32) as u32;
    let right = (block & 0xFFFF_FFFF) as u32;
    let (left1, right1) = exchange(left, right, 4, 0x0F0F_0F0F);
    let (left2, right2) = exchange(left1, right1, 16, 0x0000_FFFF);
    let (right3, left3) = exchange(right2, left2, 2, 0x3333_3333);
    let (right4, left4) = exchange(right3, left3, 8, 0x00FF_00FF);
    exchange(left4, right4, 1, 0x5555_5555)
}

// The inverse of IP.
#[inline(always)]
fn last(left: u32, right: u32) -> u64
    ensures { result ≡ number (pick final_permutation (bits 32 left ++ bits 32 right)) }
{
    let (left1, right1) = exchange(left, right, 1, 0x5555_5555);
    let (right2, left2) = exchange(right1, left1, 8, 0x00FF_00FF);
    let (right3, left3) = exchange(right2, left2, 2, 0x3333_3333);
    let (left4, right4) = exchange(left3, right3, 16, 0x0000_FFFF);
    let (left5, right5) = exchange(left4, right4, 4, 0x0F0F_0F0F);
    u64::from(left5) << 32 | u64::from(right5)
}

// PC-1: the halves C and D of a key.
#[inline(always)]
fn choose_key(key: u64) -> (u64, u64)
    ensures left { bits 28 result.0 ≡ take 28 (pick key_choice (bits 64 key)) }
    ensures right { bits 28 result.1 ≡ drop 28 (pick key_choice (bits 64 key)) }
    ensures left_bound { result.0 < 2 ^ 28 }
    ensures right_bound { result.1 < 2 ^ 28 }
{
    let (left, right) = initial(key);
    let c = (right >> 24) << 20 ^ (left >> 24) << 12 ^ (right >> 16 & 255) << 4 ^ left >> 20 & 15;
    let d = (right & 255) << 20
        ^ (left >> 8 & 255) << 12
        ^ (right >> 8 & 255) << 4
        ^ left >> 16 & 15;
    (u64::from(c), u64::from(d))
}

// PC-2, as a word.
#[inline(always)]
fn choose_round_key(c: u64, d: u64) -> u64
    requires c { c < 2 ^ 28 }
    requires d { d < 2 ^ 28 }
    ensures key { round_key result ≡ pick round_key_choice (bits 28 c ++ bits 28 d) }
    ensures word { word_of (round_key result) ≡ result }
{
    key_part(0, c >> 21)
        ^ key_part(1, c >> 14 & 127)
        ^ key_part(2, c >> 7 & 127)
        ^ key_part(3, c & 127)
        ^ key_part(4, d >> 21)
        ^ key_part(5, d >> 14 & 127)
        ^ key_part(6, d >> 7 & 127)
        ^ key_part(7, d & 127)
}

// The wide form of a half: turned one place to the right in the upper word, three to the left in the lower.
#[inline(always)]
fn wide(half: u32) -> u64
    ensures { bits 64 result ≡ pick wide_places (bits 32 half) }
{
    u64::from(half.rotate_right(1)) << 32 | u64::from(half.rotate_left(3))
}

/// The half that a word holds in wide form.
#[inline(always)]
pub fn narrow(word: u64) -> u32
    ensures { bits 32 result ≡ half_of word }
{
    ((word & 0xFFFF_FFFF) as u32).rotate_right(3)
}

// IP, and the halves of what it gives, in wide form.
#[inline(always)]
pub(crate) fn wide_initial(block: u64) -> (u64, u64)
    ensures left { half_of result.0 ≡ take 32 (pick initial_permutation (bits 64 block)) }
    ensures right { half_of result.1 ≡ drop 32 (pick initial_permutation (bits 64 block)) }
    ensures left_wide { IsWide result.0 }
    ensures right_wide { IsWide result.1 }
{
    let (left, right) = initial(block);
    (wide(left), wide(right))
}

// The inverse of IP on halves in wide form.
#[inline(always)]
pub(crate) fn wide_last(left: u64, right: u64) -> u64
    ensures { result ≡ number (pick final_permutation (half_of left ++ half_of right)) }
{
    last(narrow(left), narrow(right))
}

// f (R, K), in wide form: there the sixes of E are at the places where the word of a round key has its bits.
// The sixes that need the least shifting come first, since their entries are there the soonest.
#[inline(always)]
pub(crate) fn cipher_function(half: u64, key: u64) -> u64
    requires { IsWide half }
    ensures half { half_of result ≡ cipher_function (half_of half) (round_key key) }
    ensures wide { IsWide result }
{
    let sixes = half ^ key;
    merged_entry(7, sixes >> 2 & 63)
        ^ merged_entry(0, sixes >> 58 & 63)
        ^ merged_entry(1, sixes >> 26 & 63)
        ^ merged_entry(2, sixes >> 50 & 63)
        ^ merged_entry(3, sixes >> 18 & 63)
        ^ merged_entry(4, sixes >> 42 & 63)
        ^ merged_entry(5, sixes >> 10 & 63)
        ^ merged_entry(6, sixes >> 34 & 63)
}

// The rounds, on halves in wide form.
fn after_rounds(keys: &[u64; 16], left: u64, right: u64) -> (u64, u64)
    requires left { IsWide left }
    requires right { IsWide right }
    ensures halves { record { left = half_of result.0; right = half_of result.1 }
        ≡ after_rounds (map round_key keys.now) (record { left = half_of left; right = half_of right }) }
    ensures left_wide { IsWide result.0 }
    ensures right_wide { IsWide result.1 }
{
    let mut left = left;
    let mut right = right;
    for key in keys {
        let next = left ^ cipher_function(right, *key);
        left = right;
        right = next;
    }
    (left, right)
}

// The rounds with the keys in reverse.
fn back_rounds(keys: &[u64; 16], left: u64, right: u64) -> (u64, u64)
    requires left { IsWide left }
    requires right { IsWide right }
    ensures halves { record { left = half_of result.0; right = half_of result.1 }
        ≡ after_rounds (map round_key (reverse keys.now)) (record { left = half_of left; right = half_of right }) }
    ensures left_wide { IsWide result.0 }
    ensures right_wide { IsWide result.1 }
{
    let mut left = left;
    let mut right = right;
    for i in 0..16 {
        let next = left ^ cipher_function(right, keys[15 - i]);
        left = right;
        right = next;
    }
    (left, right)
}

/// The sixteen round keys of a key, which a caller makes once for many blocks.
///
/// Contracts see them as lists of 48 bits.
#[derive(Clone, Copy)]
pub struct Schedule {
    pub(crate) keys: [u64; 16],
}

impl Model for Schedule {
    ghost use Rattle.std.specs.Prelude.{◌≡◌, List, Bool, map};
    ghost use Rattle.hsm_des.specs.Words.{round_key, word_of};

    ghost Value = { List (List Bool) };

    ghost view = { λ s. map round_key s.keys };

    ghost invariant = { λ s. map word_of (map round_key s.keys) ≡ s.keys };

    ghost inverse = { λ keys. record { keys = map word_of keys } };

    ghost inverse_ok = { λ s h i. record { keys = h i } };
}

// The word of the round key of C and D after they have been turned `places` to the left; `c` and `d`
// hold each of them twice over.
#[inline(always)]
fn round_key_at(c: u64, d: u64, places: u32) -> u64
    requires { places ≤ 28 }
    ensures key { round_key result
        ≡ pick round_key_choice (take 28 (drop places (bits 56 c)) ++ take 28 (drop places (bits 56 d))) }
    ensures word { word_of (round_key result) ≡ result }
{
    choose_round_key(
        c >> (28 - places) & 0xFFF_FFFF,
        d >> (28 - places) & 0xFFF_FFFF,
    )
}

impl Schedule {
    /// The round keys of a key of eight bytes (appendix 1, "KS"). The last bit of each byte, its parity, is ignored.
    pub fn new(key: [u8; 8]) -> Schedule
        ensures { result ≡ round_keys (key_bits key) }
    {
        let (left, right) = choose_key(u64::from_be_bytes(key));
        let c = left << 28 | left;
        let d = right << 28 | right;
        Schedule {
            keys: [
                round_key_at(c, d, 1),
                round_key_at(c, d, 2),
                round_key_at(c, d, 4),
                round_key_at(c, d, 6),
                round_key_at(c, d, 8),
                round_key_at(c, d, 10),
                round_key_at(c, d, 12),
                round_key_at(c, d, 14),
                round_key_at(c, d, 15),
                round_key_at(c, d, 17),
                round_key_at(c, d, 19),
                round_key_at(c, d, 21),
                round_key_at(c, d, 23),
                round_key_at(c, d, 25),
                round_key_at(c, d, 27),
                round_key_at(c, d, 28),
            ],
        }
    }
}

/// Enciphers a block under the key of the schedule ("Enciphering").
pub fn encrypt(s: &Schedule, block: u64) -> u64
    ensures { result ≡ encrypted s.now block }
{
    let (left, right) = wide_initial(block);
    let (last_left, last_right) = after_rounds(&s.keys, left, right);
    wide_last(last_right, last_left)
}

/// Deciphers a block under the key of the schedule ("Deciphering").
pub fn decrypt(s: &Schedule, block: u64) -> u64
    ensures { result ≡ decrypted s.now block }
{
    let (left, right) = wide_initial(block);
    let (last_left, last_right) = back_rounds(&s.keys, left, right);
    wide_last(last_right, last_left)
}

/// Enciphers under the first key, deciphers under the second and enciphers under the third.
///
/// IP and its inverse, which undo each other, are left out in between.
pub fn encrypt_decrypt_encrypt(
    first: &Schedule,
    second: &Schedule,
    third: &Schedule,
    block: u64,
) -> u64
    ensures { result ≡ encrypted third.now (decrypted second.now (encrypted first.now block)) }
{
    let (left, right) = wide_initial(block);
    let (left1, right1) = after_rounds(&first.keys, left, right);
    let (left2, right2) = back_rounds(&second.keys, right1, left1);
    let (left3, right3) = after_rounds(&third.keys, right2, left2);
    wide_last(right3, left3)
}

/// Deciphers under the first key, enciphers under the second and deciphers under the third.
///
/// IP and its inverse, which undo each other, are left out in between.
pub fn decrypt_encrypt_decrypt(
    first: &Schedule,
    second: &Schedule,
    third: &Schedule,
    block: u64,
) -> u64
    ensures { result ≡ decrypted third.now (encrypted second.now (decrypted first.now block)) }
{
    let (left, right) = wide_initial(block);
    let (left1, right1) = back_rounds(&first.keys, left, right);
    let (left2, right2) = after_rounds(&second.keys, right1, left1);
    let (left3, right3) = back_rounds(&third.keys, right2, left2);
    wide_last(right3, left3)
}
