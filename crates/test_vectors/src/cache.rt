// A cache of opened keys: what it finds, and what it drops.
ghost use Rattle.std.specs.Prelude.{◌≡◌, ◌<◌, length};
ghost use Rattle.hsm_lmk.specs.Cache.{Agrees};
ghost use Rattle.hsm_lmk.specs.Caches.{kept_in};

use hsm_lmk::{KeyCache, LmkSet, open_cached, seal};
use hsm_tdes::{Key, encipher};
use hsm_types::{KeyType, Scheme};
use std::test::Fail;

// Whether the text of a single part opens under set n, and how often a key was found so far.
fn opens_under(
    cache: &mut KeyCache,
    sets: &[LmkSet],
    n: u8,
    ty: KeyType,
    text: &[u8; 8],
) -> (bool, u64)
    requires loaded { n < length sets.now }
    requires agrees { Agrees sets.now (kept_in cache.old).entries }
    ensures { Agrees sets.now (kept_in cache.new).entries }
{
    let opened = open_cached(cache, sets, n, ty, Scheme::Z, text).is_ok();
    (opened, cache.hits())
}

// The same under set 0 of two equal ones.
fn opens(cache: &mut KeyCache, sets: &[LmkSet; 2], ty: KeyType, text: &[u8; 8]) -> (bool, u64)
    requires { Agrees sets.now (kept_in cache.old).entries }
    ensures { Agrees sets.now (kept_in cache.new).entries }
{
    opens_under(cache, sets, 0, ty, text)
}

// All pairs are equal, so that a text opens to one key for each type.
#[test]
fn keys_that_are_found(rt: HostRuntime) -> Result<(), Fail> {
    let pair = [
        0x13, 0x34, 0x57, 0x79, 0x9B, 0xBC, 0xDF, 0xF1, 0x13, 0x34, 0x57, 0x79, 0x9B, 0xBC, 0xDF,
        0xF1,
    ];
    let set = LmkSet::of(&[pair; 20]).ok().ok_or("parity")?;
    let mut first = [0; 8];
    seal(
        &set,
        KeyType::Zpk,
        Scheme::Z,
        &Key::one(&[0x01; 8]),
        &mut first,
    );
    let mut second = [0; 8];
    seal(
        &set,
        KeyType::Zpk,
        Scheme::Z,
        &Key::one(&[0x02; 8]),
        &mut second,
    );
    let mut even = [0; 8];
    seal(
        &set,
        KeyType::Zpk,
        Scheme::Z,
        &Key::one(&[0x03; 8]),
        &mut even,
    );
    let set = [set, set];
    let mut cache = KeyCache::new(rt.alloc(), 2)?;
    assert_eq!(rt; opens(&mut cache, &set, KeyType::Zpk, &first), (true, 0));
    assert_eq!(rt; opens(&mut cache, &set, KeyType::Zpk, &first), (true, 1));
    // The same text as a key of another type.
    assert_eq!(rt; opens(&mut cache, &set, KeyType::Tak, &first), (true, 1));
    // A third entry, so that the oldest goes.
    assert_eq!(rt; opens(&mut cache, &set, KeyType::Zpk, &second), (true, 1));
    assert_eq!(rt; opens(&mut cache, &set, KeyType::Tak, &first), (true, 2));
    assert_eq!(rt; opens(&mut cache, &set, KeyType::Zpk, &first), (true, 2));
    // What was found last was not moved, so it went.
    assert_eq!(rt; opens(&mut cache, &set, KeyType::Tak, &first), (true, 2));
    // Faults: a part of even parity, and a type that has no key of one part.
    assert_eq!(rt; opens(&mut cache, &set, KeyType::Zpk, &even), (false, 2));
    assert_eq!(rt; opens(&mut cache, &set, KeyType::Zpk, &even), (false, 2));
    assert_eq!(rt; opens(&mut cache, &set, KeyType::Zmk, &first), (false, 2));
    assert_eq!(rt; opens(&mut cache, &set, KeyType::Zpk, &first), (true, 3));
    // The same text under another set is another entry, and the oldest goes.
    assert_eq!(rt;
        opens_under(&mut cache, &set, 1, KeyType::Zpk, &first),
        (true, 3)
    );
    assert_eq!(rt;
        opens_under(&mut cache, &set, 1, KeyType::Zpk, &first),
        (true, 4)
    );
    assert_eq!(rt; opens(&mut cache, &set, KeyType::Zpk, &first), (true, 4));
    assert_eq!(rt; opens(&mut cache, &set, KeyType::Tak, &first), (true, 4));
    Ok(())
}

// Opens the text of a key of two parts.
fn open_two(cache: &mut KeyCache, sets: &[LmkSet; 1], key: &Key)
    requires agrees { Agrees sets.now (kept_in cache.old).entries }
    requires parts { length key.now ≡ 2 }
    ensures { Agrees sets.now (kept_in cache.new).entries }
{
    let mut text = [0; 16];
    seal(&sets[0], KeyType::Zpk, Scheme::U, key, &mut text);
    let _ = open_cached(cache, sets, 0, KeyType::Zpk, Scheme::U, &text);
}

// Whether the cache enciphers and deciphers a block under the key as it is done without a cache.
fn ciphers(cache: &KeyCache, key: &Key) -> bool {
    let block = encipher(key, 0x0123_4567_89AB_CDEF);
    cache.encipher(key, 0x0123_4567_89AB_CDEF) == block
        && cache.decipher(key, block) == 0x0123_4567_89AB_CDEF
}

// Two keys that have their first part in common, and so their place.
#[test]
fn blocks_under_kept_keys(rt: HostRuntime) -> Result<(), Fail> {
    let pair = [
        0x13, 0x34, 0x57, 0x79, 0x9B, 0xBC, 0xDF, 0xF1, 0x13, 0x34, 0x57, 0x79, 0x9B, 0xBC, 0xDF,
        0xF1,
    ];
    let set = [LmkSet::of(&[pair; 20]).ok().ok_or("parity")?];
    let mut cache = KeyCache::new(rt.alloc(), 2)?;
    let first = Key::two(&[0x01; 8], &[0x02; 8]);
    let second = Key::two(&[0x01; 8], &[0x04; 8]);
    assert!(rt; ciphers(&cache, &first) && ciphers(&cache, &second));
    open_two(&mut cache, &set, &first);
    assert!(rt; ciphers(&cache, &first) && ciphers(&cache, &second));
    open_two(&mut cache, &set, &second);
    assert!(rt; ciphers(&cache, &first) && ciphers(&cache, &second));
    assert!(rt; ciphers(&KeyCache::none(), &first));
    Ok(())
}
