//! Keys whose schedules are made once.
ghost use Rattle.std.specs.Prelude.{◌≡◌, ◌≤◌, ◌↔◌, IfSome, IsTrue, take, drop, length, set};
ghost use Rattle.hsm_tdes.specs.Steps.{AreSteps, IsSingle};
ghost use Rattle.hsm_tdes.specs.Tdes.{enciphered, deciphered};

use crate::{Key, Parts, whole};
use hsm_des::{Schedule, decrypt, decrypt_encrypt_decrypt, encrypt, encrypt_decrypt_encrypt};
use std::marker::Model;

// The schedule of each part.
#[derive(Clone, Copy)]
enum Schedules {
    One(Schedule),
    Two(Schedule, Schedule),
    Three(Schedule, Schedule, Schedule),
}

/// A key with the schedules of its parts, made once for many blocks. Contracts see the list of the key's parts.
#[derive(Clone, Copy)]
pub struct Prepared {
    key: Key,
    schedules: Schedules,
}

impl Model for Prepared {
    ghost use Rattle.std.specs.Prelude.{List, ℕ};
    ghost use Rattle.hsm_tdes.specs.Schedules.{AreSchedules, schedules_of, fields-key};

    ghost Value = { List (List ℕ) };

    ghost view = { λ p. p.key };

    ghost invariant = { λ p. AreSchedules p.schedules p.key };

    ghost inverse = { λ key. record { key = key; schedules = schedules_of key } };

    ghost inverse_ok = { λ p made. fields-key p made };
}

impl Prepared {
    /// The key with its schedules.
    pub fn of(key: &Key) -> Prepared
        ensures { result ≡ key.now }
    {
        match &key.parts {
            Parts::One(a) => Prepared {
                key: *key,
                schedules: Schedules::One(Schedule::new(*a)),
            },
            Parts::Two(a, b) => Prepared {
                key: *key,
                schedules: Schedules::Two(Schedule::new(*a), Schedule::new(*b)),
            },
            Parts::Three(a, b, c) => Prepared {
                key: *key,
                schedules: Schedules::Three(
                    Schedule::new(*a),
                    Schedule::new(*b),
                    Schedule::new(*c),
                ),
            },
        }
    }

    /// Whether these are the schedules of this key.
    pub fn is_of(&self, key: &Key) -> bool
        ensures { IsTrue result ↔ (self.now ≡ key.now) }
    {
        match (&self.key.parts, &key.parts) {
            (Parts::One(a), Parts::One(x)) => a == x,
            (Parts::Two(a, b), Parts::Two(x, y)) => a == x && b == y,
            (Parts::Three(a, b, c), Parts::Three(x, y, z)) => a == x && b == y && c == z,
            _ => false,
        }
    }

    /// Exchanges the second part, and makes the schedule of that part alone.
    pub fn set_second(&mut self, part: &[u8; 8])
        requires { 2 ≤ length self.old }
        ensures { self.new ≡ set self.old 1 part.now }
    {
        match (&mut self.key.parts, &mut self.schedules) {
            (Parts::Two(_, second), Schedules::Two(_, schedule)) => {
                *second = whole(part);
                *schedule = Schedule::new(*part);
            }
            (Parts::Three(_, second, _), Schedules::Three(_, schedule, _)) => {
                *second = whole(part);
                *schedule = Schedule::new(*part);
            }
            _ => unreachable!(),
        }
    }

    /// The block enciphered under the key.
    pub fn encipher(&self, block: u64) -> u64
        ensures { result ≡ enciphered self.now block }
    {
        match &self.schedules {
            Schedules::One(a) => encrypt(a, block),
            Schedules::Two(a, b) => encrypt_decrypt_encrypt(a, b, a, block),
            Schedules::Three(a, b, c) => encrypt_decrypt_encrypt(a, b, c, block),
        }
    }

    /// The block that `encipher` makes into this one.
    pub fn decipher(&self, block: u64) -> u64
        ensures { result ≡ deciphered self.now block }
    {
        match &self.schedules {
            Schedules::One(a) => decrypt(a, block),
            Schedules::Two(a, b) => decrypt_encrypt_decrypt(a, b, a, block),
            Schedules::Three(a, b, c) => decrypt_encrypt_decrypt(c, b, a, block),
        }
    }

    // The schedule of a key of one part.
    pub(crate) fn single(&self) -> Option<&Schedule>
        ensures { IfSome result (λ s. IsSingle self.now s.now) }
    {
        match &self.schedules {
            Schedules::One(a) => Some(a),
            _ => None,
        }
    }

    // The schedules of a key of two or three parts for the three steps of an encipherment.
    pub(crate) fn steps(&self) -> Option<(&Schedule, &Schedule, &Schedule)>
        ensures { IfSome result (λ s. AreSteps self.now s.0.now s.1.now s.2.now) }
    {
        match &self.schedules {
            Schedules::One(_) => None,
            Schedules::Two(a, b) => Some((a, b, a)),
            Schedules::Three(a, b, c) => Some((a, b, c)),
        }
    }

    /// The block enciphered under the first part alone, as the rounds of MAC algorithm 3 of ISO 9797-1 are.
    pub fn encipher_first(&self, block: u64) -> u64
        ensures { result ≡ enciphered (take 1 self.now) block }
    {
        match &self.schedules {
            Schedules::One(a) => encrypt(a, block),
            Schedules::Two(a, _) => encrypt(a, block),
            Schedules::Three(a, _, _) => encrypt(a, block),
        }
    }

    /// The block deciphered under the second part, then enciphered under the first: output transformation 3 of ISO 9797-1.
    pub fn decipher_second_encipher_first(&self, block: u64) -> u64
        requires { length self.now ≡ 2 }
        ensures { result ≡ enciphered (take 1 self.now) (deciphered (drop 1 self.now) block) }
    {
        match &self.schedules {
            Schedules::Two(a, b) => encrypt(a, decrypt(b, block)),
            _ => unreachable!(),
        }
    }
}
