//! The plain form of DES, over arrays of bits.

ghost use Rattle.std.specs.Prelude.{◌≡◌, ◌+◌, ◌++◌, length, take, drop};
ghost use Rattle.std.specs.Int.{w64, from_be_bytes};
ghost use Rattle.hsm_des.specs.Bits.{bits, number, pick};
ghost use Rattle.hsm_des.specs.Tables.{initial_permutation, final_permutation, expansion, box_permutation, key_choice, round_key_choice, left_shifts, boxes};
ghost use Rattle.hsm_des.specs.Des.{box_digit, substitute, cipher_function, halves, exchanged, joined, after_rounds, cipher, turned, keys_from, round_keys, key_bits, des_encrypt};

use crate::bits::{bits_of, number_of, pick, xor};
use crate::tables::{
    BOX_PERMUTATION, BOXES, EXPANSION, FINAL_PERMUTATION, INITIAL_PERMUTATION, KEY_CHOICE,
    LEFT_SHIFTS, ROUND_KEY_CHOICE,
};

#[tactic(auto, unfolding(crate::specs::Tables::initial_permutation))]
fn initial(x: &[bool; 64]) -> [bool; 64]
    ensures { result ≡ pick initial_permutation x.now }
{
    pick(&INITIAL_PERMUTATION, x)
}

#[tactic(auto, unfolding(crate::specs::Tables::final_permutation))]
fn last(x: &[bool; 64]) -> [bool; 64]
    ensures { result ≡ pick final_permutation x.now }
{
    pick(&FINAL_PERMUTATION, x)
}

#[tactic(auto, unfolding(crate::specs::Tables::expansion))]
fn expand(x: &[bool; 32]) -> [bool; 48]
    ensures { result ≡ pick expansion x.now }
{
    pick(&EXPANSION, x)
}

#[tactic(auto, unfolding(crate::specs::Tables::box_permutation))]
fn permute_digits(x: &[bool; 32]) -> [bool; 32]
    ensures { result ≡ pick box_permutation x.now }
{
    pick(&BOX_PERMUTATION, x)
}

#[tactic(auto, unfolding(crate::specs::Tables::key_choice))]
fn choose_key(x: &[bool; 64]) -> [bool; 56]
    ensures { result ≡ pick key_choice x.now }
{
    pick(&KEY_CHOICE, x)
}

#[tactic(auto, unfolding(crate::specs::Tables::round_key_choice))]
fn choose_round_key(x: &[bool; 56]) -> [bool; 48]
    ensures { result ≡ pick round_key_choice x.now }
{
    pick(&ROUND_KEY_CHOICE, x)
}

fn box_digit(table: &[[u8; 16]; 4], six: &[bool]) -> u8
    requires { length six.now ≡ 6 }
    ensures { result ≡ box_digit table.now six.now }
{
    let row = number_of(&[six[0], six[5]]) as usize;
    let column = number_of(&six[1..5]) as usize;
    table[row][column]
}

fn substitute(x: &[bool; 48]) -> [bool; 32]
    ensures { result ≡ substitute boxes x.now }
{
    let mut out = [false; 32];
    for i in 0..8 {
        let digit = box_digit(&BOXES[i], &x[6 * i..6 * i + 6]);
        out[4 * i..4 * i + 4].copy_from_slice(&bits_of::<4>(u64::from(digit)));
    }
    out
}

#[tactic(auto, unfolding(crate::specs::Des::cipher_function))]
fn cipher_function(half: &[bool; 32], key: &[bool; 48]) -> [bool; 32]
    ensures { result ≡ cipher_function half.now key.now }
{
    permute_digits(&substitute(&xor(&expand(half), key)))
}

fn split<const N: usize, const M: usize>(x: &[bool; M]) -> ([bool; N], [bool; N])
    requires { N + N ≡ M }
    ensures left { result.0 ≡ take N x.now }
    ensures right { result.1 ≡ drop N x.now }
{
    let (front, back) = x[..].split_at(N);
    let mut left = [false; N];
    left.copy_from_slice(front);
    let mut right = [false; N];
    right.copy_from_slice(back);
    (left, right)
}

fn join<const N: usize, const M: usize>(left: &[bool; N], right: &[bool; N]) -> [bool; M]
    requires { N + N ≡ M }
    ensures { result ≡ left.now ++ right.now }
{
    let mut out = [false; M];
    let (front, back) = out[..].split_at_mut(N);
    front.copy_from_slice(left);
    back.copy_from_slice(right);
    out
}

fn after_rounds(keys: &[[bool; 48]; 16], x: &[bool; 64]) -> [bool; 64]
    ensures { result ≡ joined (exchanged (after_rounds keys.now (halves x.now))) }
{
    let (mut left, mut right) = split::<32, 64>(x);
    for key in keys {
        let next = xor(&left, &cipher_function(&right, key));
        left = right;
        right = next;
    }
    join(&right, &left)
}

#[tactic(auto, unfolding(crate::specs::Des::cipher))]
fn cipher(keys: &[[bool; 48]; 16], block: u64) -> u64
    ensures { result ≡ number (cipher keys.now (bits 64 block)) }
{
    number_of(&last(&after_rounds(keys, &initial(&bits_of(block)))))
}

fn round_keys(key: [u8; 8]) -> [[bool; 48]; 16]
    ensures { result ≡ round_keys (key_bits key) }
{
    let chosen = choose_key(&bits_of(u64::from_be_bytes(key)));
    let (mut c, mut d) = split::<28, 56>(&chosen);
    let mut keys = [[false; 48]; 16];
    for i in 0..16 {
        let shift = LEFT_SHIFTS[i] as usize;
        c.rotate_left(shift);
        d.rotate_left(shift);
        keys[i] = choose_round_key(&join(&c, &d));
    }
    keys
}

#[tactic(auto, unfolding(crate::specs::Des::encrypted))]
pub fn encrypt(key: [u8; 8], block: u64) -> u64
    ensures { result ≡ des_encrypt key block }
{
    cipher(&round_keys(key), block)
}
