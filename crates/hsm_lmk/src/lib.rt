//! Sealing and opening of keys under LMK pairs and wrapping keys.
#![tactic(auto)]

ghost use Rattle.std.specs.Prelude.{◌≡◌, ◌+◌, ◌-◌, ◌*◌, ◌^◌, ◌<◌, ◌≤◌, ◌↔◌, ℕ, List, [], ◌∷◌, length, true, false, not, map, IsTrue, IfOk, slice_index, slice_index_or, Some, codes};
ghost use Rattle.hsm_types.specs.Table.{variant_of, allows_length};
ghost use Rattle.hsm_types.specs.Schemes.{scheme_parts};
ghost use Rattle.hsm_tdes.specs.Tdes.{enciphered, deciphered};
ghost use Rattle.hsm_lmk.specs.Opened.{all_odd, open_answer, opened, sealed};
ghost use Rattle.hsm_lmk.specs.Opening.{AllPairsOdd, IsFirstEven, refuses_scheme, is_untagged_pair, is_lmk_scheme};
ghost use Rattle.hsm_lmk.specs.Pairs.{AllOdd, lmk_pair, set_at};
ghost use Rattle.hsm_lmk.specs.Sealing.{Sealed, under, varied, scheme_variants, type_variants, wrap, block_at, block_of, pair_key, lmk_check};

mod cache;
mod kept;
pub mod laws;
mod prepared;

use arrayvec::ArrayVec;
pub use cache::open_cached;
use hsm_parity::is_odd;
use hsm_tdes::{Key, Prepared, decipher, decipher_two, encipher, encipher_two};
use hsm_types::{KeyType, Scheme, length_allowed, pair, scheme_parts, variant};
pub use kept::{KeyCache, KeyEntry};
use std::fmt;
use std::marker::Model;
use thiserror::Error;

/// Why a text is no key.
#[derive(Clone, Copy, Debug, PartialEq, Eq, Error)]
pub enum OpenFault {
    /// No text of the type has this scheme.
    #[error("no key text of this type has this scheme")]
    Scheme,
    /// No key of the type has as many parts as the scheme.
    #[error("no key of this type has so many parts")]
    Length,
    /// An opened part has a byte of even parity.
    #[error("the key has a byte of even parity")]
    Parity,
}

/// Why pairs are no LMK set.
#[derive(Clone, Copy, Debug, PartialEq, Eq, Error)]
pub enum LmkFault {
    /// This pair, counted from 0, is the first with a byte of even parity.
    #[error("LMK pair {0} has a byte of even parity")]
    Parity(u64),
}

/// A set of twenty LMK pairs, each a key of two parts. Contracts see the list of the pairs.
#[derive(Clone, Copy, PartialEq, Eq)]
pub struct LmkSet {
    pairs: [Key; 20],
}

// `{:?}` prints nothing that the set holds.
impl fmt::Debug for LmkSet {
    ghost debug_output = { λ _. Some (codes "LmkSet") };

    fn fmt<W: fmt::Write>(&self, f: &mut fmt::Formatter<W>) -> fmt::Result {
        f.write_str("LmkSet")
    }
}

impl Model for LmkSet {
    ghost use Rattle.std.specs.Prelude.{List, ℕ};
    ghost use Rattle.hsm_lmk.specs.Pairs.{IsLmkSet};

    ghost Value = { List (List (List ℕ)) };

    ghost view = { λ s. s.pairs };

    ghost invariant = { λ s. IsLmkSet s.pairs };

    ghost inverse = { λ pairs. record { pairs = pairs } };
}

impl LmkSet {
    /// The set of these pairs, each the two parts one after another. The fault names the first pair with a byte of even parity.
    pub fn of(pairs: &[[u8; 16]; 20]) -> Result<LmkSet, LmkFault>
        ensures pairs { IfOk result (λ set. set ≡ map pair_key pairs.now) }
        ensures odd { IfOk result (λ _. AllPairsOdd pairs.now) }
        ensures parity { (k : ℕ) → (result ≡ Err (LmkFault.Parity k)) ↔ IsFirstEven pairs.now k }
    {
        let mut keys = [pair_key(&pairs[0]); 20];
        for k in 0..20 {
            let key = pair_key(&pairs[k]);
            if !all_odd(&key) {
                return Err(LmkFault::Parity(k as u64));
            }
            keys[k] = key;
        }
        Ok(LmkSet { pairs: keys })
    }
}

// All bytes are 01.
fn blank_set() -> LmkSet {
    LmkSet {
        pairs: [Key::two(&[1; 8], &[1; 8]); 20],
    }
}

/// What an unused place of a list of sets holds. No message names such a place.
impl Default for LmkSet {
    fn default() -> LmkSet {
        blank_set()
    }
}

// The pair of 16 bytes as a key of two parts.
fn pair_key(pair: &[u8; 16]) -> Key
    ensures { result ≡ pair_key pair.now }
{
    let mut first = [0; 8];
    first.copy_from_slice(&pair[..8]);
    let mut second = [0; 8];
    second.copy_from_slice(&pair[8..]);
    Key::two(&first, &second)
}

// Whether every byte of every part is odd.
fn all_odd(key: &Key) -> bool
    ensures { IsTrue result ↔ AllOdd key.now }
{
    for i in 0..key.parts() {
        if !is_odd(&key.part(i)) {
            return false;
        }
    }
    true
}

/// Set n of the sets that are loaded.
pub fn set_at(sets: &[LmkSet], n: u8) -> &LmkSet
    requires { n < length sets.now }
    ensures { result.now ≡ set_at sets.now n }
{
    &sets[usize::from(n)]
}

// Pair k of the set.
fn lmk_pair(set: &LmkSet, k: usize) -> Key
    requires { k < 20 }
    ensures pair { result ≡ lmk_pair set.now k }
    ensures parts { length result ≡ 2 }
{
    set.pairs[k]
}

/// The block enciphered under an unchanged pair of the set, 0 to 19.
pub fn encipher_pair(set: &LmkSet, pair: usize, block: u64) -> u64
    requires { pair < 20 }
    ensures { result ≡ enciphered (lmk_pair set.now pair) block }
{
    encipher(&lmk_pair(set, pair), block)
}

/// The block deciphered under an unchanged pair of the set, 0 to 19.
pub fn decipher_pair(set: &LmkSet, pair: usize, block: u64) -> u64
    requires { pair < 20 }
    ensures { result ≡ deciphered (lmk_pair set.now pair) block }
{
    decipher(&lmk_pair(set, pair), block)
}

/// The exclusive-or of the zero block enciphered under each pair.
pub fn lmk_check(set: &LmkSet) -> u64
    ensures { result ≡ lmk_check set.now }
{
    let mut sum = 0;
    for pair in &set.pairs {
        sum ^= encipher(pair, 0);
    }
    sum
}

// What the variant of a type exclusive-ors.
fn type_variant(ty: KeyType) -> u8
    ensures { result ≡ slice_index type_variants (variant_of ty) }
{
    [0, 0xA6, 0x5A, 0x6A, 0xDE, 0x2B, 0x50, 0x74, 0x9C, 0xFA][variant(ty) as usize]
}

// What the variant of part i of a scheme exclusive-ors.
fn scheme_variant(scheme: Scheme, i: usize) -> u8
    requires { i < scheme_parts scheme }
    ensures { result ≡ slice_index (scheme_variants scheme) i }
{
    match scheme {
        Scheme::U => [0xA6, 0x5A][i],
        Scheme::T => [0x6A, 0xDE, 0x2B][i],
        _ => 0,
    }
}

// The part with a variant on its first byte.
fn vary(part: [u8; 8], by: u8) -> [u8; 8]
    ensures { result ≡ varied by part }
{
    let mut part = part;
    part[0] ^= by;
    part
}

/// The LMK pair of a type, with the type's variant: what `seal` and `open` wrap the type's keys with.
pub fn wrapping_pair(set: &LmkSet, ty: KeyType) -> Key
    ensures wrap { result ≡ wrap set.now ty }
    ensures parts { length result ≡ 2 }
{
    let pair = lmk_pair(set, pair(ty));
    Key::two(&vary(pair.part(0), type_variant(ty)), &pair.part(1))
}

// The wrapping key with the scheme's variant for part i.
fn under(wrapping: &Key, scheme: Scheme, i: usize) -> Key
    requires parts { 2 ≤ length wrapping.now }
    requires part { i < scheme_parts scheme }
    ensures key { result ≡ under wrapping.now scheme i }
{
    let first = wrapping.part(0);
    let second = vary(wrapping.part(1), scheme_variant(scheme, i));
    if wrapping.parts() == 2 {
        Key::two(&first, &second)
    } else {
        Key::three(&first, &second, &wrapping.part(2))
    }
}

// Makes the wrapping key for the part before into that for part i. Its schedules that stay the same are kept.
fn vary_next(prepared: &mut Prepared, wrapping: &Key, scheme: Scheme, i: usize)
    requires parts { 2 ≤ length wrapping.now }
    requires part { i < scheme_parts scheme }
    requires before { prepared.old ≡ under wrapping.now scheme (i - 1) }
    ensures { prepared.new ≡ under wrapping.now scheme i }
{
    let by = scheme_variant(scheme, i);
    if by != scheme_variant(scheme, i.saturating_sub(1)) {
        prepared.set_second(&vary(wrapping.part(1), by));
    }
}

// The blocks of the text of the key under a wrapping key, and zeros for parts that the scheme has not. The first two
// parts are enciphered side by side.
fn sealed_blocks(wrapping: &Key, scheme: Scheme, key: &Key) -> [u64; 3]
    requires wrapping { 2 ≤ length wrapping.now }
    requires parts { length key.now ≡ scheme_parts scheme }
    ensures { (i : ℕ) → i < scheme_parts scheme → slice_index result i ≡ enciphered (under wrapping.now scheme i) (block_of (slice_index_or key.now i [])) }
{
    let first = Prepared::of(&under(wrapping, scheme, 0));
    let a = u64::from_be_bytes(key.part(0));
    if key.parts() == 1 {
        return [first.encipher(a), 0, 0];
    }
    let mut second = first;
    vary_next(&mut second, wrapping, scheme, 1);
    let b = u64::from_be_bytes(key.part(1));
    if key.parts() == 2 {
        let (x, y) = encipher_two(&first, &second, (a, b));
        return [x, y, 0];
    }
    let mut third = second;
    vary_next(&mut third, wrapping, scheme, 2);
    let c = u64::from_be_bytes(key.part(2));
    let (x, y) = encipher_two(&first, &second, (a, b));
    [x, y, third.encipher(c)]
}

// Writes the text of the key under a wrapping key.
fn seal_parts(wrapping: &Key, scheme: Scheme, key: &Key, out: &mut [u8])
    requires wrapping { 2 ≤ length wrapping.now }
    requires parts { length key.now ≡ scheme_parts scheme }
    requires size { length out.old ≡ 8 * scheme_parts scheme }
    ensures sealed { Sealed wrapping.now scheme key.now out.new }
    ensures value { out.new ≡ sealed wrapping.now scheme key.now }
{
    let blocks = sealed_blocks(wrapping, scheme, key);
    for i in 0..key.parts() {
        out[8 * i..8 * i + 8].copy_from_slice(&blocks[i].to_be_bytes());
    }
}

/// Writes the key's text under the LMK pair of its type, 8 bytes a part.
pub fn seal(set: &LmkSet, ty: KeyType, scheme: Scheme, key: &Key, out: &mut [u8])
    requires scheme { IsTrue (is_lmk_scheme scheme) }
    requires parts { length key.now ≡ scheme_parts scheme }
    requires size { length out.old ≡ 8 * scheme_parts scheme }
    ensures sealed { Sealed (wrap set.now ty) scheme key.now out.new }
    ensures value { out.new ≡ sealed (wrap set.now ty) scheme key.now }
{
    seal_parts(&wrapping_pair(set, ty), scheme, key, out);
}

/// Writes the key's text under a wrapping key of two or three parts, 8 bytes a part.
pub fn seal_under(kek: &Key, scheme: Scheme, key: &Key, out: &mut [u8])
    requires kek { 2 ≤ length kek.now }
    requires scheme { IsTrue (not (is_untagged_pair scheme)) }
    requires parts { length key.now ≡ scheme_parts scheme }
    requires size { length out.old ≡ 8 * scheme_parts scheme }
    ensures sealed { Sealed kek.now scheme key.now out.new }
    ensures value { out.new ≡ sealed kek.now scheme key.now }
{
    seal_parts(kek, scheme, key, out);
}

/// The key's text under a wrapping key of two or three parts, by value.
pub fn sealed_bytes(wrapping: &Key, scheme: Scheme, key: &Key) -> ArrayVec<u8, 24>
    requires wrapping { 2 ≤ length wrapping.now }
    requires parts { length key.now ≡ scheme_parts scheme }
    ensures { result.items ≡ sealed wrapping.now scheme key.now }
{
    let mut bytes = [0; 24];
    let text = &mut bytes[..8 * scheme_parts(scheme)];
    seal_parts(wrapping, scheme, key, text);
    let mut out = ArrayVec::new();
    let _ = out.try_extend_from_slice(text);
    out
}

// Block i of a text.
#[tactic(auto, unfolding(crate::specs::Sealing::block_at))]
fn block_at(text: &[u8], i: usize) -> u64
    requires { 8 * i + 8 ≤ length text.now }
    ensures { result ≡ block_at text.now i }
{
    let mut bytes = [0; 8];
    bytes.copy_from_slice(&text[8 * i..8 * i + 8]);
    u64::from_be_bytes(bytes)
}

// The parts that the text has under a wrapping key, and zeros for those that the scheme has not. The first two are
// deciphered side by side.
fn opened_blocks(wrapping: &Key, scheme: Scheme, text: &[u8]) -> [u64; 3]
    requires wrapping { 2 ≤ length wrapping.now }
    requires size { length text.now ≡ 8 * scheme_parts scheme }
    ensures values { (i : ℕ) → i < scheme_parts scheme → slice_index result i ≡ deciphered (under wrapping.now scheme i) (block_at text.now i) }
    ensures texts { (i : ℕ) → i < scheme_parts scheme → block_at text.now i < 2 ^ 64 }
{
    let parts = scheme_parts(scheme);
    let first = Prepared::of(&under(wrapping, scheme, 0));
    let a = block_at(text, 0);
    if parts == 1 {
        return [first.decipher(a), 0, 0];
    }
    let mut second = first;
    vary_next(&mut second, wrapping, scheme, 1);
    let b = block_at(text, 1);
    if parts == 2 {
        let (x, y) = decipher_two(&first, &second, (a, b));
        return [x, y, 0];
    }
    let mut third = second;
    vary_next(&mut third, wrapping, scheme, 2);
    let c = block_at(text, 2);
    let (x, y) = decipher_two(&first, &second, (a, b));
    [x, y, third.decipher(c)]
}

// The key of which the text is the text under a wrapping key, whatever its parity.
fn open_parts(wrapping: &Key, scheme: Scheme, text: &[u8]) -> Key
    requires wrapping { 2 ≤ length wrapping.now }
    requires size { length text.now ≡ 8 * scheme_parts scheme }
    ensures { Sealed wrapping.now scheme result text.now }
{
    let parts = scheme_parts(scheme);
    let blocks = opened_blocks(wrapping, scheme, text);
    let mut bytes = [0; 24];
    for i in 0..parts {
        bytes[8 * i..8 * i + 8].copy_from_slice(&blocks[i].to_be_bytes());
    }
    match Key::of(&bytes[..8 * parts]) {
        Some(key) => key,
        None => unreachable!(),
    }
}

// That key, if all its bytes are odd.
fn open_odd(wrapping: &Key, scheme: Scheme, text: &[u8]) -> Result<Key, OpenFault>
    requires wrapping { 2 ≤ length wrapping.now }
    requires size { length text.now ≡ 8 * scheme_parts scheme }
    ensures parts { IfOk result (λ key. length key ≡ scheme_parts scheme) }
    ensures value { result ≡ open_answer false true wrapping.now scheme text.now }
{
    let key = open_parts(wrapping, scheme, text);
    if all_odd(&key) {
        Ok(key)
    } else {
        Err(OpenFault::Parity)
    }
}

/// Whether no text of the type under its LMK pair has the scheme.
pub fn refuses_scheme(ty: KeyType, scheme: Scheme) -> bool
    ensures { result ≡ refuses_scheme ty scheme }
{
    match scheme {
        Scheme::X | Scheme::Y => true,
        Scheme::P => !matches!(ty, KeyType::Tpk | KeyType::Cvk),
        _ => false,
    }
}

/// The key of the type whose text under the type's LMK pair this is, 8 bytes a part. The first cause that stands is told:
/// `Scheme` for X and Y, and for P unless the type is 002 or 402; `Length`; `Parity`.
#[tactic(auto, unfolding(crate::specs::Opened::open_answer))]
pub fn open(set: &LmkSet, ty: KeyType, scheme: Scheme, text: &[u8]) -> Result<Key, OpenFault>
    requires { length text.now ≡ 8 * scheme_parts scheme }
    ensures parts { IfOk result (λ key. length key ≡ scheme_parts scheme) }
    ensures value { result ≡ open_answer (refuses_scheme ty scheme) (allows_length ty (scheme_parts scheme)) (wrap set.now ty) scheme text.now }
{
    if refuses_scheme(ty, scheme) {
        return Err(OpenFault::Scheme);
    }
    if !length_allowed(ty, scheme_parts(scheme)) {
        return Err(OpenFault::Length);
    }
    open_odd(&wrapping_pair(set, ty), scheme, text)
}

/// The key whose text under a wrapping key of two or three parts this is, 8 bytes a part. `Scheme` for P, else `Parity`;
/// `Length` never comes.
#[tactic(auto, unfolding(crate::specs::Opened::open_answer))]
pub fn open_under(kek: &Key, scheme: Scheme, text: &[u8]) -> Result<Key, OpenFault>
    requires kek { 2 ≤ length kek.now }
    requires size { length text.now ≡ 8 * scheme_parts scheme }
    ensures parts { IfOk result (λ key. length key ≡ scheme_parts scheme) }
    ensures value { result ≡ open_answer (is_untagged_pair scheme) true kek.now scheme text.now }
{
    if matches!(scheme, Scheme::P) {
        return Err(OpenFault::Scheme);
    }
    open_odd(kek, scheme, text)
}
