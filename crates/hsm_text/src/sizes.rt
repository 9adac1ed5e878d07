//! The size of a text at the front of what is left to read, or none where no such text stands there.
#![tactic(auto, using(crate::proofs::SizeLemmas::size_steps))]

ghost use Rattle.std.specs.Prelude.{◌≡◌, ◌<◌, ◌≤◌, ◌^◌, map, length, IfSome};
ghost use Rattle.std.specs.List.{list_all};
ghost use Rattle.std.specs.Char.{is_ascii_digit, is_ascii_hexdigit};
ghost use Rattle.hsm_text.specs.Sizes.{take_size, digits_size, hex_size, word_size, one_of_size, tagged_size, zut_size, xy_size, key_size};

use crate::keys::KeyForm;

/// Whether these are decimal digits. It reads all bytes, without a branch for each.
pub fn all_digits(text: &[u8]) -> bool
    ensures { result ≡ list_all is_ascii_digit text.now }
{
    let mut all = true;
    for byte in text {
        all &= byte.is_ascii_digit();
    }
    all
}

/// Whether these are hexadecimal digits, of either case. It reads all bytes, without a branch for each.
pub fn all_hex(text: &[u8]) -> bool
    ensures { result ≡ list_all is_ascii_hexdigit text.now }
{
    let mut all = true;
    for byte in text {
        all &= byte.is_ascii_hexdigit();
    }
    all
}

/// Any n bytes.
pub fn take(rest: &[u8], n: usize) -> Option<usize>
    ensures size { result ≡ take_size n rest.now }
    ensures within { IfSome result (λ size. size ≤ length rest.now) }
{
    if n <= rest.len() { Some(n) } else { None }
}

/// Decimal digits, n of them.
pub fn digits(rest: &[u8], n: usize) -> Option<usize>
    ensures size { result ≡ digits_size n rest.now }
    ensures within { IfSome result (λ size. size ≤ length rest.now) }
{
    if n <= rest.len() && all_digits(&rest[..n]) {
        Some(n)
    } else {
        None
    }
}

/// Hexadecimal digits of either case, n of them.
pub fn hex(rest: &[u8], n: usize) -> Option<usize>
    ensures size { result ≡ hex_size n rest.now }
    ensures within { IfSome result (λ size. size ≤ length rest.now) }
{
    if n <= rest.len() && all_hex(&rest[..n]) {
        Some(n)
    } else {
        None
    }
}

/// Just this text.
pub fn word(rest: &[u8], text: &[u8]) -> Option<usize>
    ensures size { result ≡ word_size text.now rest.now }
    ensures within { IfSome result (λ size. size ≤ length rest.now) }
{
    if rest.starts_with(text) {
        Some(text.len())
    } else {
        None
    }
}

/// One of these texts. Where several stand it is the first that is listed.
pub fn one_of(rest: &[u8], texts: &[&[u8]]) -> Option<usize>
    ensures size { result ≡ one_of_size (map (λ t. t.now) texts.now) rest.now }
    ensures within { IfSome result (λ size. size ≤ length rest.now) }
{
    for text in texts {
        if rest.starts_with(text) {
            return Some(text.len());
        }
    }
    None
}

// A tag of one character and n hexadecimal digits.
#[tactic(auto, unfolding(crate::specs::Sizes::tagged_size))]
fn tagged(rest: &[u8], tag: &[u8; 1], n: usize) -> Option<usize>
    requires { n < 2 ^ 32 }
    ensures size { result ≡ tagged_size tag.now n rest.now }
    ensures within { IfSome result (λ size. size ≤ length rest.now) }
{
    if rest.starts_with(tag) {
        match hex(&rest[1..], n) {
            Some(k) => Some(k + 1),
            None => None,
        }
    } else {
        None
    }
}

// A key text with the tag Z, U or T.
#[tactic(auto, unfolding(crate::specs::Sizes::zut_size))]
fn zut(rest: &[u8]) -> Option<usize>
    ensures size { result ≡ zut_size rest.now }
    ensures within { IfSome result (λ size. size ≤ length rest.now) }
{
    tagged(rest, b"Z", 16).or(tagged(rest, b"U", 32).or(tagged(rest, b"T", 48)))
}

// A key text with the tag X or Y.
#[tactic(auto, unfolding(crate::specs::Sizes::xy_size))]
fn xy(rest: &[u8]) -> Option<usize>
    ensures size { result ≡ xy_size rest.now }
    ensures within { IfSome result (λ size. size ≤ length rest.now) }
{
    tagged(rest, b"X", 32).or(tagged(rest, b"Y", 48))
}

/// A key text, its tag included.
#[tactic(auto, unfolding(crate::specs::Sizes::key_size))]
pub fn key(rest: &[u8], form: KeyForm) -> Option<usize>
    ensures size { result ≡ key_size form rest.now }
    ensures within { IfSome result (λ size. size ≤ length rest.now) }
{
    match form {
        KeyForm::K => hex(rest, 16).or(zut(rest)),
        KeyForm::P => hex(rest, 32).or(tagged(rest, b"U", 32)),
        KeyForm::W => hex(rest, 16).or(zut(rest).or(xy(rest))),
        KeyForm::F0 => hex(rest, 16).or(zut(rest)),
        KeyForm::F1 => hex(rest, 32).or(zut(rest)),
        KeyForm::F2 => zut(rest),
    }
}
