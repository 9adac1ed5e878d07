//! The reply that is written.
ghost use Rattle.std.specs.Prelude.{◌≡◌, ◌+◌, ◌*◌, ◌≤◌, ◌++◌, [], length};
ghost use Rattle.hsm_nibbles.specs.Characters.{hex_of_bytes};

use arrayvec::ArrayVec;
use hsm_nibbles::hex_character;
use std::marker::Model;

/// A reply's bytes, at most 65,535. Contracts see the list of them.
#[derive(Drop)]
pub struct Reply {
    bytes: ArrayVec<u8, 65535>,
}

impl Model for Reply {
    ghost use Rattle.std.specs.Prelude.{List, ℕ};

    ghost Value = { List ℕ };

    ghost view = { λ r. r.bytes.items };
}

impl Reply {
    /// A reply without bytes.
    pub fn new() -> Reply
        ensures { result ≡ [] }
    {
        Reply {
            bytes: ArrayVec::new(),
        }
    }

    /// Drops all bytes.
    pub fn clear(&mut self)
        ensures { self.new ≡ [] }
    {
        self.bytes.clear();
    }

    /// The bytes.
    pub fn bytes(&self) -> &[u8]
        ensures bytes { result.now ≡ self.now }
        ensures most { length result.now ≤ 65535 }
    {
        self.bytes.as_slice()
    }

    /// Appends bytes.
    pub fn put(&mut self, bytes: &[u8])
        requires { length self.old + length bytes.now ≤ 65535 }
        ensures { self.new ≡ self.old ++ bytes.now }
    {
        let _ = self.bytes.try_extend_from_slice(bytes);
    }

    /// Appends the two upper-case hexadecimal digits of each byte.
    pub fn put_hex(&mut self, bytes: &[u8])
        requires { length self.old + 2 * length bytes.now ≤ 65535 }
        ensures { self.new ≡ self.old ++ hex_of_bytes bytes.now }
    {
        for byte in bytes {
            self.bytes.push(hex_character(byte / 16));
            self.bytes.push(hex_character(byte % 16));
        }
    }
}
