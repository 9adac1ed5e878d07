//! What a cache of opened keys keeps.
ghost use Rattle.std.specs.Prelude.{◌≤◌, ◌^◌};

use crate::prepared::PreparedKeys;
use arrayvec::ArrayVec;
use circular_buffer::HeapCircularBuffer;
use hsm_tdes::Key;
use hsm_types::{KeyType, Scheme};

/// A key that was opened, with the number of its LMK set, and the type, the scheme and the text that it was opened by,
/// 8 bytes a part.
#[derive(Drop)]
pub struct KeyEntry {
    /// The number of the set under which it was opened.
    pub set: u8,
    /// The type.
    pub ty: KeyType,
    /// The scheme.
    pub scheme: Scheme,
    /// The text.
    pub text: ArrayVec<u8, 24>,
    /// The key.
    pub key: Key,
}

/// The keys that were opened last, at most as many as its capacity, and how often one was found. Contracts see the
/// entries as a list, the oldest first.
#[derive(Drop)]
pub struct KeyCache {
    // None where no key is kept.
    pub(crate) ring: Option<HeapCircularBuffer<KeyEntry>>,
    // Schedules of kept keys. What a cache does with them no contract sees.
    pub(crate) prepared: Option<PreparedKeys>,
    pub(crate) hits: u64,
    ghost counted: { hits ≤ 2 ^ 63 },
}
