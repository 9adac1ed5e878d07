//! A cache of keys that were opened under LMK pairs.
ghost use Rattle.std.specs.Prelude.{◌≡◌, ◌≤◌, ◌<◌, ◌^◌, ◌*◌, ◌++◌, ◌∷◌, [], length, min, take, ◌+◌, IfOk, IfErr, IfSome, option_map, option_copied};
ghost use Rattle.std.specs.Int.{w64, from_be_bytes};
ghost use Rattle.std.specs.Str.{bytes_eq};
ghost use Rattle.hsm_tdes.specs.Tdes.{enciphered, deciphered};
ghost use Rattle.hsm_types.specs.Schemes.{scheme_parts};
ghost use Rattle.hsm_types.specs.Table.{allows_length};
ghost use Rattle.hsm_lmk.specs.Cache.{Agrees, entry_of, is_of, kept_one, within};
ghost use Rattle.hsm_lmk.specs.Caches.{capacity_of, kept_in};
ghost use Rattle.hsm_lmk.specs.Opened.{open_answer};
ghost use Rattle.hsm_lmk.specs.Opening.{refuses_scheme};
ghost use Rattle.hsm_lmk.specs.Pairs.{set_at};
ghost use Rattle.hsm_lmk.specs.Sealing.{wrap};

use crate::kept::{KeyCache, KeyEntry};
use crate::prepared::PreparedKeys;
use crate::{LmkSet, OpenFault, open, set_at};
use arrayvec::ArrayVec;
use circular_buffer::HeapCircularBuffer;
use hsm_tdes::{Key, Prepared, decipher, encipher};
use hsm_types::{KeyType, Scheme};
use std::alloc::{AllocError, Global};

impl KeyCache {
    /// A cache of no entries, which will keep at most `capacity` of them, 1 to 64. All its memory is taken here.
    pub fn new(alloc: Global, capacity: usize) -> Result<KeyCache, AllocError>
        requires { (1 ≤ capacity) × (capacity ≤ 64) }
        ensures kept { IfOk result (λ cache. kept_in cache ≡ record { entries = []; hits = 0 }) }
        ensures capacity { IfOk result (λ cache. capacity_of cache ≡ capacity) }
    {
        Ok(KeyCache {
            ring: Some(HeapCircularBuffer::with_capacity(alloc, capacity)?),
            prepared: Some(PreparedKeys::new(alloc)?),
            hits: 0,
        })
    }

    /// A cache that keeps no entry, and takes no memory.
    pub fn none() -> KeyCache
        ensures kept { kept_in result ≡ record { entries = []; hits = 0 } }
        ensures capacity { capacity_of result ≡ 0 }
    {
        KeyCache {
            ring: None,
            prepared: None,
            hits: 0,
        }
    }

    /// How often a key was found, at most 2^63.
    pub fn hits(&self) -> u64
        ensures value { result ≡ (kept_in self.now).hits }
        ensures most { result ≤ 2 ^ 63 }
    {
        self.hits
    }

    // The key of the first entry that has this set, type, scheme and text.
    fn find(&self, set: u8, ty: KeyType, scheme: Scheme, text: &[u8]) -> Option<Key>
        requires { 8 ≤ length text.now }
        ensures { result ≡ option_map (λ e. e.key) (entry_of set ty scheme text.now (kept_in self.now).entries) }
    {
        match &self.ring {
            Some(ring) => key_in(ring, set, ty, scheme, text),
            None => None,
        }
    }

    // Counts a key that was found.
    fn count(&mut self)
        ensures hits { self.new.hits ≡ min (self.old.hits + 1) (2 ^ 63) }
        ensures ring { self.new.ring ≡ self.old.ring }
    {
        if self.hits < 1 << 63 {
            self.hits += 1;
        }
    }

    // Appends an entry; where there are then too many the oldest goes.
    fn append(&mut self, entry: KeyEntry)
        ensures entries { (kept_in self.new).entries ≡ within (capacity_of self.old) ((kept_in self.old).entries ++ entry ∷ []) }
        ensures capacity { capacity_of self.new ≡ capacity_of self.old }
        ensures hits { self.new.hits ≡ self.old.hits }
    {
        if let Some(prepared) = &mut self.prepared {
            prepared.add(&entry.key);
        }
        match &mut self.ring {
            Some(ring) => push(ring, entry),
            None => (),
        }
    }

    // The key with its schedules, if they are kept.
    fn prepared(&self, key: &Key) -> Option<&Prepared>
        ensures { IfSome result (λ prepared. prepared.now ≡ key.now) }
    {
        match &self.prepared {
            Some(prepared) => prepared.find(key),
            None => None,
        }
    }

    /// The block enciphered under a key, of any cache. The schedules of a key that was kept are at hand, if those of no
    /// later one have taken their place; those of another key are made.
    pub fn encipher(&self, key: &Key, block: u64) -> u64
        ensures { result ≡ enciphered key.now block }
    {
        match self.prepared(key) {
            Some(prepared) => prepared.encipher(block),
            None => encipher(key, block),
        }
    }

    /// The block that `encipher` makes into this one.
    pub fn decipher(&self, key: &Key, block: u64) -> u64
        ensures { result ≡ deciphered key.now block }
    {
        match self.prepared(key) {
            Some(prepared) => prepared.decipher(block),
            None => decipher(key, block),
        }
    }
}

// Appends an entry; where there are then too many the oldest goes.
fn push(ring: &mut HeapCircularBuffer<KeyEntry>, entry: KeyEntry)
    ensures entries { ring.new.items ≡ within ring.old.capacity (ring.old.items ++ entry ∷ []) }
    ensures capacity { ring.new.capacity ≡ ring.old.capacity }
{
    prove!(ring.len() <= ring.capacity());
    ring.push_back(entry);
}

// The key of the first entry that has this set, type, scheme and text.
fn key_in(
    ring: &HeapCircularBuffer<KeyEntry>,
    set: u8,
    ty: KeyType,
    scheme: Scheme,
    text: &[u8],
) -> Option<Key>
    requires { 8 ≤ length text.now }
    ensures { result ≡ option_map (λ e. e.key) (entry_of set ty scheme text.now ring.now.items) }
{
    let (older, newer) = ring.as_slices();
    match key_among(older, set, ty, scheme, text) {
        Some(key) => Some(key),
        None => key_among(newer, set, ty, scheme, text),
    }
}

// The first eight bytes.
fn head(text: &[u8]) -> u64
    requires { 8 ≤ length text.now }
    ensures { result ≡ from_be_bytes w64 (take 8 text.now) }
{
    let mut bytes = [0; 8];
    bytes.copy_from_slice(&text[..8]);
    u64::from_be_bytes(bytes)
}

// Whether the text that is kept is this one. Most that aren't differ from it in their first eight bytes.
fn is_text(kept: &[u8], text: &[u8]) -> bool
    requires { 8 ≤ length text.now }
    ensures { result ≡ bytes_eq kept.now text.now }
{
    kept.len() == text.len() && head(kept) == head(text) && kept == text
}

// Whether the entry has this set, type, scheme and text.
fn is_of(entry: &KeyEntry, set: u8, ty: KeyType, scheme: Scheme, text: &[u8]) -> bool
    requires { 8 ≤ length text.now }
    ensures { result ≡ is_of set ty scheme text.now entry.now }
{
    entry.set == set
        && entry.ty.is(ty)
        && entry.scheme.is(scheme)
        && is_text(entry.text.as_slice(), text)
}

// The key of the first of these entries that has this set, type, scheme and text.
fn key_among(entries: &[KeyEntry], set: u8, ty: KeyType, scheme: Scheme, text: &[u8]) -> Option<Key>
    requires { 8 ≤ length text.now }
    ensures { result ≡ option_map (λ e. e.key) (entry_of set ty scheme text.now entries.now) }
{
    for entry in entries {
        if is_of(entry, set, ty, scheme, text) {
            return Some(entry.key);
        }
    }
    None
}

/// What `open` answers under set n of these. A key that is kept by its set, type, scheme and text is not opened anew;
/// another one is kept, and where there are then too many the oldest goes.
pub fn open_cached(
    cache: &mut KeyCache,
    sets: &[LmkSet],
    n: u8,
    ty: KeyType,
    scheme: Scheme,
    text: &[u8],
) -> Result<Key, OpenFault>
    requires loaded { n < length sets.now }
    requires size { length text.now ≡ 8 * scheme_parts scheme }
    requires agrees { Agrees sets.now (kept_in cache.old).entries }
    ensures value { result ≡ open_answer (refuses_scheme ty scheme) (allows_length ty (scheme_parts scheme)) (wrap (set_at sets.now n) ty) scheme text.now }
    ensures agrees { Agrees sets.now (kept_in cache.new).entries }
    ensures kept { IfOk result (λ key. kept_in cache.new
        ≡ kept_one (capacity_of cache.old) (kept_in cache.old) (record { set = n; ty = ty; scheme = scheme; text = record { items = text.now }; key = key })) }
    ensures fault { IfErr result (λ _. cache.new ≡ cache.old) }
    ensures capacity { capacity_of cache.new ≡ capacity_of cache.old }
{
    if let Some(key) = cache.find(n, ty, scheme, text) {
        cache.count();
        return Ok(key);
    }
    let key = open(set_at(sets, n), ty, scheme, text)?;
    let mut kept = ArrayVec::new();
    let _ = kept.try_extend_from_slice(text);
    cache.append(KeyEntry {
        set: n,
        ty,
        scheme,
        text: kept,
        key,
    });
    Ok(key)
}
