//! Keys of one to three parts, and enciphering under them (FIPS 46-3, TDEA).
#![tactic(auto)]

ghost use Rattle.std.specs.Prelude.{◌≡◌, ◌+◌, ◌*◌, ◌<◌, ◌≤◌, ◌↔◌, [], ◌∷◌, length, slice_get, slice_range, IsNone, IfSome, IsTrue, Some, codes};
ghost use Rattle.hsm_tdes.specs.Tdes.{IsKey, IsPart, enciphered, deciphered, check_value, repeats_part, key_bytes, IsNoKeyLength};

mod beside;
pub mod laws;
mod prepared;

pub use beside::{decipher_two, encipher_two};
use hsm_des::{Schedule, decrypt, decrypt_encrypt_decrypt, encrypt, encrypt_decrypt_encrypt};
use hsm_nibbles::block_characters;
pub use prepared::Prepared;
use std::fmt;
use std::marker::Model;

#[derive(Clone, Copy, PartialEq, Eq)]
enum Parts {
    One([u8; 8]),
    Two([u8; 8], [u8; 8]),
    Three([u8; 8], [u8; 8], [u8; 8]),
}

/// A key of one to three parts of 8 bytes. Contracts see the list of its parts.
#[derive(Clone, Copy, PartialEq, Eq)]
pub struct Key {
    parts: Parts,
}

// `{:?}` prints nothing that the key holds.
impl fmt::Debug for Key {
    ghost debug_output = { λ _. Some (codes "Key") };

    fn fmt<W: fmt::Write>(&self, f: &mut fmt::Formatter<W>) -> fmt::Result {
        f.write_str("Key")
    }
}

impl Model for Key {
    ghost use Rattle.std.specs.Prelude.{List, ℕ};
    ghost use Rattle.hsm_tdes.specs.Tdes.{IsKey};
    ghost use Rattle.hsm_tdes.specs.Parts.{parts_of, from_parts, from_parts-parts_of};

    ghost Value = { List (List ℕ) };

    ghost view = { λ k. parts_of k.parts };

    ghost invariant = { λ k. IsKey (parts_of k.parts) };

    ghost inverse = { λ parts. record { parts = from_parts parts } };

    ghost inverse_ok = { λ k h. from_parts-parts_of k };
}

// The 8 bytes from a place on.
fn part_at(bytes: &[u8], start: usize) -> [u8; 8]
    requires { start + 8 ≤ length bytes.now }
    ensures bytes { result ≡ slice_range bytes.now start (start + 8) }
    ensures part { IsPart result }
{
    let mut part = [0; 8];
    part.copy_from_slice(&bytes[start..start + 8]);
    part
}

// The part, with what its type says of it.
fn whole(part: &[u8]) -> [u8; 8]
    requires { length part.now ≡ 8 }
    ensures same { result ≡ part.now }
    ensures part { IsPart result }
{
    let mut out = [0; 8];
    out.copy_from_slice(part);
    out
}

impl Key {
    /// The key whose parts are these bytes, one part after another. None exactly where they are not 8, 16 or 24.
    pub fn of(bytes: &[u8]) -> Option<Key>
        ensures refused { IsNone result ↔ IsNoKeyLength (length bytes.now) }
        ensures bytes { IfSome result (λ key. IsKey key × (key_bytes key ≡ bytes.now)) }
        ensures parts { IfSome result (λ key. 8 * length key ≡ length bytes.now) }
    {
        match bytes.len() {
            8 => Some(Key {
                parts: Parts::One(part_at(bytes, 0)),
            }),
            16 => Some(Key {
                parts: Parts::Two(part_at(bytes, 0), part_at(bytes, 8)),
            }),
            24 => Some(Key {
                parts: Parts::Three(part_at(bytes, 0), part_at(bytes, 8), part_at(bytes, 16)),
            }),
            _ => None,
        }
    }

    /// The key of one part.
    pub fn one(a: &[u8; 8]) -> Key
        ensures { result ≡ a.now ∷ [] }
    {
        Key {
            parts: Parts::One(whole(a)),
        }
    }

    /// The key of two parts.
    pub fn two(a: &[u8; 8], b: &[u8; 8]) -> Key
        ensures { result ≡ a.now ∷ b.now ∷ [] }
    {
        Key {
            parts: Parts::Two(whole(a), whole(b)),
        }
    }

    /// The key of three parts.
    pub fn three(a: &[u8; 8], b: &[u8; 8], c: &[u8; 8]) -> Key
        ensures { result ≡ a.now ∷ b.now ∷ c.now ∷ [] }
    {
        Key {
            parts: Parts::Three(whole(a), whole(b), whole(c)),
        }
    }

    /// The number of parts, 1 to 3.
    pub fn parts(&self) -> usize
        ensures count { result ≡ length self.now }
        ensures key { IsKey self.now }
    {
        match self.parts {
            Parts::One(_) => 1,
            Parts::Two(_, _) => 2,
            Parts::Three(_, _, _) => 3,
        }
    }

    /// Part i, counted from 0.
    pub fn part(&self, i: usize) -> [u8; 8]
        requires { i < length self.now }
        ensures { slice_get self.now i ≡ Some result }
    {
        match self.parts {
            Parts::One(a) => a,
            Parts::Two(a, b) => [a, b][i],
            Parts::Three(a, b, c) => [a, b, c][i],
        }
    }
}

/// The block enciphered under the key: DES for one part, encipherment, decipherment and encipherment for two and three.
/// A caller with many blocks makes the key schedules once, by [`Prepared`].
pub fn encipher(key: &Key, block: u64) -> u64
    ensures { result ≡ enciphered key.now block }
{
    match &key.parts {
        Parts::One(a) => encrypt(&Schedule::new(*a), block),
        Parts::Two(a, b) => {
            let first = Schedule::new(*a);
            encrypt_decrypt_encrypt(&first, &Schedule::new(*b), &first, block)
        }
        Parts::Three(a, b, c) => encrypt_decrypt_encrypt(
            &Schedule::new(*a),
            &Schedule::new(*b),
            &Schedule::new(*c),
            block,
        ),
    }
}

/// The block that `encipher` makes into this one.
pub fn decipher(key: &Key, block: u64) -> u64
    ensures { result ≡ deciphered key.now block }
{
    match &key.parts {
        Parts::One(a) => decrypt(&Schedule::new(*a), block),
        Parts::Two(a, b) => {
            let first = Schedule::new(*a);
            decrypt_encrypt_decrypt(&first, &Schedule::new(*b), &first, block)
        }
        Parts::Three(a, b, c) => decrypt_encrypt_decrypt(
            &Schedule::new(*c),
            &Schedule::new(*b),
            &Schedule::new(*a),
            block,
        ),
    }
}

/// The check value: the first six upper-case hexadecimal digits of the enciphered zero block.
#[tactic(auto, unfolding(crate::specs::Tdes::check_value))]
pub fn check_value(key: &Key) -> [u8; 6]
    ensures { result ≡ check_value key.now }
{
    let characters = block_characters(encipher(key, 0));
    let mut value = [0; 6];
    value.copy_from_slice(&characters[..6]);
    value
}

/// Whether some part equals the part before it.
pub fn parts_equal(key: &Key) -> bool
    ensures { result ≡ repeats_part key.now }
{
    match key.parts {
        Parts::One(_) => false,
        Parts::Two(a, b) => a == b,
        Parts::Three(a, b, c) => a == b || b == c,
    }
}
