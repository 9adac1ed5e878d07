//! Keys in the fields of a message.
ghost use Rattle.std.specs.Prelude.{◌≡◌, true, ◌+◌, ◌*◌, ◌<◌, ◌≤◌, ◌++◌, length, IsTrue, IfOk, IfErr, IfSome, Some, codes};
ghost use Rattle.std.specs.List.{list_all};
ghost use Rattle.std.specs.Option.{option_map};
ghost use Rattle.std.specs.Char.{is_ascii_hexdigit};
ghost use Rattle.hsm_types.specs.Schemes.{scheme_parts};
ghost use Rattle.hsm_nibbles.specs.Characters.{bytes_of_hex};
ghost use Rattle.hsm_text.specs.KeyTexts.{scheme_named, scheme_of};
ghost use Rattle.hsm_lmk.specs.Cache.{Agrees, kept_all};
ghost use Rattle.hsm_lmk.specs.Caches.{capacity_of, kept_in};
ghost use Rattle.hsm_lmk.specs.Pairs.{set_at};
ghost use Rattle.hsm_lmk.specs.Sealing.{wrap};
ghost use Rattle.hsm_rows.specs.declared.rules.Under.TheVariants.{Lmk, KeyAt};
ghost use Rattle.hsm_answers.specs.Keys.{key_of, differs, scheme_fault, length_fault, key_data_fault, given_fault, opened_key, type_of_code, wrapper_of, pair_type, flag_parts};
ghost use Rattle.hsm_tdes.specs.Tdes.{repeats_part};
ghost use Rattle.hsm_answers.specs.Values.{first_part, second_part};
ghost use Rattle.hsm_answers.specs.Given.{data_of, code_in};
ghost use Rattle.hsm_answers.specs.Kept.{entry_for};

use arrayvec::ArrayVec;
use hsm_lmk::{KeyCache, LmkSet, OpenFault, open_cached, open_under, refuses_scheme};
use hsm_nibbles::digit_value;
use hsm_rows::{Code, same_text};
use hsm_tdes::{Key, parts_equal};
use hsm_text::KeyText;
use hsm_text::sizes::all_hex;
use hsm_types::{KeyType, Scheme, length_allowed, scheme_parts};

/// What is asked of a given key.
#[derive(Clone, Copy, Debug, PartialEq, Eq)]
pub struct Asked {
    pub ty: KeyType,
    /// It wraps another key, so it has two or three parts, else 27.
    pub wraps: bool,
    /// The number of parts that it must have, else 26.
    pub by_scheme: Option<usize>,
    /// The number of parts that it must have, else 27.
    pub by_rule: Option<usize>,
    /// The code of an opened part with a byte of even parity.
    pub parity: Code,
}

/// A pair of keys of one part each.
#[derive(Clone, Copy, Debug, PartialEq, Eq)]
pub struct KeyPair {
    pub first: Key,
    pub second: Key,
}

// A key text's scheme and bytes.
#[derive(Drop)]
pub(crate) struct KeyGiven {
    pub(crate) scheme: Scheme,
    pub(crate) bytes: ArrayVec<u8, 24>,
}

/// The scheme that a scheme's letter names.
pub fn scheme_named(letter: &[u8]) -> Scheme
    ensures { result ≡ scheme_named letter.now }
{
    match letter {
        b"U" => Scheme::U,
        b"T" => Scheme::T,
        b"X" => Scheme::X,
        b"Y" => Scheme::Y,
        _ => Scheme::Z,
    }
}

/// The bytes that at most 48 hexadecimal digits name, two digits a byte.
pub fn bytes_in(digits: &[u8]) -> ArrayVec<u8, 24>
    requires short { length digits.now ≤ 48 }
    requires hexadecimal { IsTrue (list_all is_ascii_hexdigit digits.now) }
    ensures bytes { result.items ≡ bytes_of_hex digits.now }
    ensures low { 2 * length result.items ≤ length digits.now }
    ensures high { length digits.now ≤ 2 * length result.items + 1 }
{
    let mut bytes = [0; 24];
    let mut count = 0;
    let mut rest = digits;
    while let [a, b, more @ ..] = rest {
        bytes[count] = digit_value(*a) * 16 + digit_value(*b);
        count += 1;
        rest = more;
    }
    let mut named = ArrayVec::new();
    let _ = named.try_extend_from_slice(&bytes[..count]);
    named
}

// What a key text says. None for a text that is no key text.
#[tactic(auto, unfolding(crate::specs::Keys::key_of))]
fn key_in(text: &[u8]) -> Option<KeyGiven>
    ensures data { option_map data_of result ≡ key_of text.now }
    ensures whole { IfSome result (λ k. length k.bytes.items ≡ 8 * scheme_parts k.scheme) }
{
    let key = KeyText::of(text);
    if key.digits.len() == 16 * scheme_parts(key.scheme) && all_hex(key.digits) {
        Some(KeyGiven {
            scheme: key.scheme,
            bytes: bytes_in(key.digits),
        })
    } else {
        None
    }
}

// Whether another number of parts is asked for.
fn differs(wanted: Option<usize>, parts: usize) -> bool
    ensures { result ≡ differs wanted parts }
{
    match wanted {
        Some(n) => parts != n,
        None => false,
    }
}

// 26 for the scheme of a text under the LMK, or for another length than that of a scheme field.
fn scheme_fails(asked: &Asked, scheme: Scheme) -> bool
    ensures { result ≡ scheme_fault Lmk asked.now scheme }
{
    refuses_scheme(asked.ty, scheme) || differs(asked.by_scheme, scheme_parts(scheme))
}

// 27 for the length.
fn length_fails(asked: &Asked, parts: usize) -> bool
    ensures { result ≡ length_fault asked.now parts }
{
    !length_allowed(asked.ty, parts) || asked.wraps && parts == 1 || differs(asked.by_rule, parts)
}

// The key under the pair of its type in set n, or the first code that holds of it.
#[tactic(auto, using(crate::proofs::Lengths::opened_length), unfolding(crate::specs::Keys::key_data_fault, hsm_lmk::specs::Opened::open_answer))]
fn check_under_lmk(
    cache: &mut KeyCache,
    sets: &[LmkSet],
    n: u8,
    asked: &Asked,
    given: &KeyGiven,
) -> Result<Key, Code>
    requires loaded { n < length sets.now }
    requires whole { length given.now.bytes.items ≡ 8 * scheme_parts given.now.scheme }
    requires agrees { Agrees sets.now (kept_in cache.old).entries }
    ensures fault { code_in result ≡ key_data_fault (Some (wrap (set_at sets.now n) asked.now.ty)) Lmk asked.now (Some (data_of given.now)) }
    ensures key { IfOk result (λ key. key ≡ opened_key (wrap (set_at sets.now n) asked.now.ty) (Some (data_of given.now))) }
    ensures long { IfOk result (λ key. asked.now.wraps ≡ true → 2 ≤ length key) }
    ensures scheme { IfOk result (λ key. IfSome asked.now.by_scheme (λ n. length key ≡ n)) }
    ensures agrees { Agrees sets.now (kept_in cache.new).entries }
    ensures capacity { capacity_of cache.new ≡ capacity_of cache.old }
    ensures kept { IfOk result (λ _. kept_in cache.new ≡ kept_all (capacity_of cache.old) (kept_in cache.old) (entry_for sets.now n asked.now.ty (Some (data_of given.now)))) }
    ensures unkept { IfErr result (λ _. cache.new ≡ cache.old) }
{
    if scheme_fails(asked, given.scheme) {
        return Err(Code(26));
    }
    if length_fails(asked, scheme_parts(given.scheme)) {
        return Err(Code(27));
    }
    match open_cached(
        cache,
        sets,
        n,
        asked.ty,
        given.scheme,
        given.bytes.as_slice(),
    ) {
        Ok(key) => Ok(key),
        Err(_) => Err(asked.parity),
    }
}

// The key under a wrapping key, or the first code that holds of it.
#[tactic(auto, using(crate::proofs::Lengths::opened_length), unfolding(crate::specs::Keys::key_data_fault, hsm_lmk::specs::Opened::open_answer))]
fn check_under_key(kek: &Key, at: u8, asked: &Asked, given: &KeyGiven) -> Result<Key, Code>
    requires kek { 2 ≤ length kek.now }
    requires whole { length given.now.bytes.items ≡ 8 * scheme_parts given.now.scheme }
    ensures fault { code_in result ≡ key_data_fault (Some kek.now) (KeyAt at) asked.now (Some (data_of given.now)) }
    ensures key { IfOk result (λ key. key ≡ opened_key kek.now (Some (data_of given.now))) }
    ensures scheme { IfOk result (λ key. IfSome asked.now.by_scheme (λ n. length key ≡ n)) }
{
    let parts = scheme_parts(given.scheme);
    let differs_by_scheme = differs(asked.by_scheme, parts);
    let breaks = length_fails(asked, parts);
    match open_under(kek, given.scheme, given.bytes.as_slice()) {
        Err(OpenFault::Scheme) => Err(Code(26)),
        _ if differs_by_scheme => Err(Code(26)),
        Err(OpenFault::Length) => Err(Code(27)),
        _ if breaks => Err(Code(27)),
        Err(OpenFault::Parity) => Err(asked.parity),
        Ok(key) => Ok(key),
    }
}

/// The key of a text under the LMK pair of its type in set n, or the first code that holds of it: 26, 27, the parity code.
/// 15 for a text that is no key text, which no field that reads has. A key that the cache keeps is not opened anew; another one
/// without a fault is kept.
#[tactic(auto, unfolding(crate::specs::Keys::key_data_fault))]
pub fn check_lmk_key(
    cache: &mut KeyCache,
    sets: &[LmkSet],
    n: u8,
    asked: &Asked,
    text: &[u8],
) -> Result<Key, Code>
    requires loaded { n < length sets.now }
    requires agrees { Agrees sets.now (kept_in cache.old).entries }
    ensures fault { code_in result ≡ key_data_fault (Some (wrap (set_at sets.now n) asked.now.ty)) Lmk asked.now (key_of text.now) }
    ensures key { IfOk result (λ key. key ≡ opened_key (wrap (set_at sets.now n) asked.now.ty) (key_of text.now)) }
    ensures long { IfOk result (λ key. asked.now.wraps ≡ true → 2 ≤ length key) }
    ensures scheme { IfOk result (λ key. IfSome asked.now.by_scheme (λ n. length key ≡ n)) }
    ensures agrees { Agrees sets.now (kept_in cache.new).entries }
    ensures capacity { capacity_of cache.new ≡ capacity_of cache.old }
    ensures kept { IfOk result (λ _. kept_in cache.new ≡ kept_all (capacity_of cache.old) (kept_in cache.old) (entry_for sets.now n asked.now.ty (key_of text.now))) }
    ensures unkept { IfErr result (λ _. cache.new ≡ cache.old) }
{
    match key_in(text) {
        Some(given) => check_under_lmk(cache, sets, n, asked, &given),
        None => Err(Code(15)),
    }
}

/// The two parts of a key as keys.
pub fn pair_of(key: &Key) -> KeyPair
    requires { length key.now ≡ 2 }
    ensures first { result.first ≡ first_part key.now }
    ensures second { result.second ≡ second_part key.now }
    ensures first_part { length result.first ≡ 1 }
    ensures second_part { length result.second ≡ 1 }
{
    KeyPair {
        first: Key::one(&key.part(0)),
        second: Key::one(&key.part(1)),
    }
}

/// The key of a text under a wrapping key, that of field `at`, or the first code that holds of it: 26, 27, the parity
/// code. 15 for a text that is no key text, which no field that reads has.
#[tactic(auto, unfolding(crate::specs::Keys::key_data_fault))]
pub fn check_wrapped_key(kek: &Key, at: u8, asked: &Asked, text: &[u8]) -> Result<Key, Code>
    requires { 2 ≤ length kek.now }
    ensures fault { code_in result ≡ key_data_fault (Some kek.now) (KeyAt at) asked.now (key_of text.now) }
    ensures key { IfOk result (λ key. key ≡ opened_key kek.now (key_of text.now)) }
    ensures scheme { IfOk result (λ key. IfSome asked.now.by_scheme (λ n. length key ≡ n)) }
{
    match key_in(text) {
        Some(given) => check_under_key(kek, at, asked, &given),
        None => Err(Code(15)),
    }
}

/// Whether a part of the key equals the part before it.
pub fn repeats_part(key: &Key) -> bool
    ensures { result ≡ repeats_part key.now }
{
    parts_equal(key)
}

/// The type of a type's code. Zmk for another text, which no field that reads has.
#[tactic(auto, unfolding(hsm_types::specs::Table::type_with))]
pub fn type_of_code(code: &[u8]) -> KeyType
    ensures { result ≡ type_of_code code.now }
{
    match code {
        b"001" => KeyType::Zpk,
        b"002" => KeyType::Tpk,
        b"402" => KeyType::Cvk,
        b"003" => KeyType::Tak,
        b"008" => KeyType::Zak,
        b"009" => KeyType::Bdk,
        b"00A" => KeyType::Zek,
        b"00B" => KeyType::Dek,
        _ => KeyType::Zmk,
    }
}

// The type of variant 0 of an LMK pair's code, Zmk for another text.
#[tactic(auto, unfolding(hsm_types::specs::Table::type_with))]
fn type_of_pair(pair: &[u8]) -> KeyType
    ensures { result ≡ type_of_code (codes "0" ++ pair.now) }
{
    match pair {
        b"01" => KeyType::Zpk,
        b"02" => KeyType::Tpk,
        b"03" => KeyType::Tak,
        b"08" => KeyType::Zak,
        b"09" => KeyType::Bdk,
        b"0A" => KeyType::Zek,
        b"0B" => KeyType::Dek,
        _ => KeyType::Zmk,
    }
}

/// The type of a wrapping key by its field `[;f]`.
pub fn wrapper_type(text: &[u8]) -> KeyType
    ensures { result ≡ wrapper_of text.now }
{
    if same_text(text, b";1") {
        KeyType::Tpk
    } else {
        KeyType::Zmk
    }
}

/// The type of a `type2` field, `full` being the `type` field that follows FF.
pub fn type_by_pair(pair: &[u8], full: &[u8]) -> KeyType
    ensures { result ≡ pair_type pair.now full.now }
{
    if same_text(pair, b"FF") {
        type_of_code(full)
    } else {
        type_of_pair(pair)
    }
}

/// The number of parts that a flag asks for.
pub fn flag_parts(flag: &[u8]) -> usize
    ensures { result ≡ flag_parts flag.now }
{
    if same_text(flag, b"0") {
        1
    } else if same_text(flag, b"1") {
        2
    } else {
        3
    }
}
