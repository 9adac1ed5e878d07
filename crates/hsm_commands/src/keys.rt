//! The keys of a message.
ghost use Rattle.std.specs.Prelude.{◌≡◌, Some, true, is_some};
ghost use Rattle.hsm_commands.specs.Opened.{found_in, key_by};

use hsm_tdes::Key;

// The key of a field.
#[derive(Clone, Copy)]
pub(crate) struct FieldKey {
    pub(crate) field: u8,
    pub(crate) key: Key,
}

// The keys that a message's checks opened, in the order of checking. An absent key is not there.
#[derive(Clone, Copy)]
pub(crate) struct OpenedKeys {
    pub(crate) first: Option<FieldKey>,
    pub(crate) second: Option<FieldKey>,
}

// The key, where it is that of field k.
#[inline]
pub(crate) fn found_in(held: &Option<FieldKey>, k: u8) -> Option<Key>
    ensures { result ≡ found_in held.now k }
{
    match held {
        Some(held) if held.field == k => Some(held.key),
        _ => None,
    }
}

// The key of field k, if it was opened.
#[inline]
pub(crate) fn key_by(keys: &OpenedKeys, k: u8) -> Option<Key>
    ensures { result ≡ key_by keys.now k }
{
    match found_in(&keys.first, k) {
        Some(key) => Some(key),
        None => found_in(&keys.second, k),
    }
}

// The key of field k, which was opened.
#[inline]
pub(crate) fn held_key(keys: &OpenedKeys, k: u8) -> Key
    requires { is_some (key_by keys.now k) ≡ true }
    ensures { key_by keys.now k ≡ Some result }
{
    match key_by(keys, k) {
        Some(key) => key,
        // the row has a check that opens it
        None => unreachable!(),
    }
}
