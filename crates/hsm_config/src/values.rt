//! The values in a document.

ghost use Rattle.std.specs.Prelude.{◌≡◌, ◌*◌, ◌<◌, ◌^◌, Some, None, map, if◌then◌else◌, option_map};
ghost use Rattle.toml.specs.Data.{as_str};
ghost use Rattle.toml.specs.View.{table_view, view};
ghost use Rattle.hsm_config.specs.Document.{all_hex_bytes, are_hex, elements_at, hex_bytes, is_hex, is_within, number_at, integer_of, string_at};

use hex::FromHex;
use toml::{Table, Value};

// The number that a value is, if it is an integer of this range.
pub fn number_within(value: &Value, least: u16, most: u16) -> Option<u16>
    ensures { result ≡ (if is_within least most (integer_of (view value.now)) then integer_of (view value.now) else None) }
{
    let number = match value.as_integer() {
        Some(number) => number,
        None => return None,
    };
    if number < i64::from(least) || number > i64::from(most) {
        return None;
    }
    Some(number as u16)
}

// The number at a key, if an integer of this range stands there.
pub fn number_at(table: &Table, key: &str, least: u16, most: u16) -> Option<u16>
    ensures { result ≡ (if is_within least most (number_at key.now (table_view table.now)) then number_at key.now (table_view table.now) else None) }
{
    match table.get(key) {
        Some(value) => number_within(value, least, most),
        None => None,
    }
}

// The text at a key, if one stands there.
pub fn string_at<'a>(table: &'a Table, key: &str) -> Option<&'a str>
    ensures { option_map (λ text. text.now) result ≡ string_at key.now (table_view table.now) }
{
    match table.get(key) {
        Some(value) => value.as_str(),
        None => None,
    }
}

// The elements of the array at a key, and none where no array stands there.
pub fn elements_at<'a>(table: &'a Table, key: &str) -> &'a [Value]
    ensures { map view result.now ≡ elements_at key.now (table_view table.now) }
{
    let value = match table.get(key) {
        Some(value) => value,
        None => return &[],
    };
    match value.as_array() {
        Some(array) => array.as_slice(),
        None => &[],
    }
}

// The bytes of a text of hexadecimal digits of either case, two for each byte.
pub fn hex_bytes<const N: usize>(value: &Value) -> Option<[u8; N]>
    ensures { result ≡ (if is_hex (2 * N) (as_str (view value.now)) then Some (hex_bytes (as_str (view value.now))) else None) }
{
    match value.as_str() {
        Some(text) => <[u8; N]>::from_hex(text).ok(),
        None => None,
    }
}

// The bytes of each of so many texts.
pub fn all_hex_bytes<const N: usize, const COUNT: usize>(
    values: &[Value],
) -> Option<[[u8; N]; COUNT]>
    ensures { result ≡ (if are_hex COUNT (2 * N) (map view values.now) then Some (all_hex_bytes (map view values.now)) else None) }
{
    if values.len() != COUNT {
        return None;
    }
    let mut all = [[0; N]; COUNT];
    for i in 0..COUNT {
        match hex_bytes(&values[i]) {
            Some(bytes) => all[i] = bytes,
            None => return None,
        }
    }
    Some(all)
}
