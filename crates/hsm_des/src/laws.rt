//! What is proved of DES's definitions and tables, for the layers above, and two slower forms of
//! `encrypt` with the same contract.

ghost use Rattle.std.specs.Prelude.{◌≡◌, ◌<◌, ◌*◌, ◌/◌, ◌^◌, ℕ, Bool, List, [], All, length, map, slice_index, slice_index_or};
ghost use Rattle.hsm_des.specs.Des.{deciphered_bits, enciphered_bits, des_encrypt, des_decrypt, key_bits, round_keys};
ghost use Rattle.hsm_des.specs.Merged.{merged_entry};
ghost use Rattle.hsm_des.specs.Words.{key_part};

use crate::key_parts::KEY_PARTS;
use crate::merged::MERGED;
use crate::{permutations, plain};

/// Enciphers over arrays of bits, step by step as FIPS 46-3 describes it.
pub fn encrypt_plain(key: [u8; 8], block: u64) -> u64
    ensures { result ≡ des_encrypt key block }
{
    plain::encrypt(key, block)
}

/// Enciphers with `permute` for IP, its inverse, E, PC-1 and PC-2, and with the merged tables.
pub fn encrypt_by_permutations(key: [u8; 8], block: u64) -> u64
    ensures { result ≡ des_encrypt key block }
{
    permutations::encrypt(key, block)
}

/// Each of the 512 entries of the merged tables is P of one digit among zeros, in the wide form of a half.
pub fn merged_entries()
    ensures { (i v : ℕ) → i < 8 → v < 64
        → slice_index (slice_index_or MERGED i []) v ≡ merged_entry i v }
{}

/// Each of the 1,024 entries of the key's tables is what seven bits of C and D give to a round key.
pub fn key_part_entries()
    ensures { (j v : ℕ) → j < 8 → v < 128
        → slice_index (slice_index_or KEY_PARTS j []) v ≡ key_part j v }
{}

/// The round keys of a key stay the same if the last bit of each byte, its parity, is cleared.
pub fn parity_is_ignored()
    ensures { (key : List ℕ) → length key ≡ 8 → All (λ byte. byte < 2 ^ 8) key
        → round_keys (key_bits (map (λ byte. byte / 2 * 2) key)) ≡ round_keys (key_bits key) }
{}

/// Under each key, deciphering and enciphering undo each other, on blocks as lists of bits.
pub fn each_undoes_the_other()
    ensures deciphered_bits { (key x : List Bool) → length x ≡ 64
        → deciphered_bits key (enciphered_bits key x) ≡ x }
    ensures enciphered_bits { (key x : List Bool) → length x ≡ 64
        → enciphered_bits key (deciphered_bits key x) ≡ x }
{}

/// The same on blocks as numbers, which stay below 2^64.
pub fn undo()
    ensures decrypt { (key : List ℕ) (block : ℕ) → block < 2 ^ 64
        → des_decrypt key (des_encrypt key block) ≡ block }
    ensures encrypt { (key : List ℕ) (block : ℕ) → block < 2 ^ 64
        → des_encrypt key (des_decrypt key block) ≡ block }
    ensures encrypt_bound { (key : List ℕ) (block : ℕ) → des_encrypt key block < 2 ^ 64 }
    ensures decrypt_bound { (key : List ℕ) (block : ℕ) → des_decrypt key block < 2 ^ 64 }
{}
