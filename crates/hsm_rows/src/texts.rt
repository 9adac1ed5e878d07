//! The sizes of the texts that the forms are made of.
ghost use Rattle.std.specs.Prelude.{◌≡◌, ◌≤◌, length, map, take, IfSome, IsTrue, count_by};
ghost use Rattle.std.specs.List.{prefix_len, list_all};
ghost use Rattle.std.specs.Str.{bytes_eq};
ghost use Rattle.std.specs.Char.{is_ascii_digit};
ghost use Rattle.hsm_nibbles.specs.Characters.{digit_value};
ghost use Rattle.hsm_text.specs.Sizes.{one_of_size, key_size};
ghost use Rattle.hsm_rows.specs.Forms.{shown, text_at, last_text, hex_value, decimal_from, two_digit_value, wrapper_size, account_size, is_f, filled_size, is_n, hex_or_n, validation_size, is_no_space, token_size, is_visible, is_word, is_minutes, is_activity, is_activity_or_star, is_set_text, set_size, set_number, types, pair_codes, lengths, component_digits, key_by_flag, data_size, mac_digits};

use hsm_auth::{Activity, MAX_MINUTES};
use hsm_text::{KeyForm, sizes};

/// The text of a field, by its position. Of no field it is the empty text.
pub fn text_at<'m>(texts: &[&'m [u8]], k: u8) -> &'m [u8]
    ensures { result.now ≡ text_at (map shown texts.now) k }
{
    match texts.get(k as usize) {
        Some(text) => text,
        None => b"",
    }
}

// The text of the field just before.
pub(crate) fn last_text<'m>(texts: &[&'m [u8]]) -> &'m [u8]
    ensures { result.now ≡ last_text (map shown texts.now) }
{
    match texts.last() {
        Some(text) => text,
        None => b"",
    }
}

/// Whether the two texts are the same.
pub fn same_text(text: &[u8], word: &[u8]) -> bool
    ensures { result ≡ bytes_eq text.now word.now }
{
    text == word
}

/// The value of a decimal or hexadecimal digit of either case. For another character it means nothing.
pub fn digit(character: u8) -> u8
    ensures { result ≡ digit_value character }
{
    if character <= 57 {
        character.saturating_sub(48)
    } else if character <= 70 {
        character.saturating_sub(55)
    } else {
        character.saturating_sub(87)
    }
}

// The value of four hexadecimal digits, else 0.
#[tactic(auto, unfolding(crate::specs::Forms::hex_value))]
pub(crate) fn hex_value(text: &[u8]) -> usize
    ensures { result ≡ hex_value text.now }
{
    match text {
        [a, b, c, d] => {
            ((digit(*a) as usize * 16 + digit(*b) as usize) * 16 + digit(*c) as usize) * 16
                + digit(*d) as usize
        }
        _ => 0,
    }
}

/// The value of up to four decimal digits.
pub fn decimal_value(text: &[u8]) -> u32
    requires { length text.now ≤ 4 }
    ensures { result ≡ decimal_from 0 text.now }
{
    match text {
        [] => 0,
        [a] => a.saturating_sub(48) as u32,
        [a, b] => a.saturating_sub(48) as u32 * 10 + b.saturating_sub(48) as u32,
        [a, b, c] => {
            (a.saturating_sub(48) as u32 * 10 + b.saturating_sub(48) as u32) * 10
                + c.saturating_sub(48) as u32
        }
        [a, b, c, d] => {
            ((a.saturating_sub(48) as u32 * 10 + b.saturating_sub(48) as u32) * 10
                + c.saturating_sub(48) as u32)
                * 10
                + d.saturating_sub(48) as u32
        }
        _ => 0,
    }
}

/// The value of two decimal digits. For a text of another length it is 0.
pub fn two_digit_value(text: &[u8]) -> usize
    ensures { result ≡ two_digit_value text.now }
{
    match text {
        [a, b] => a.saturating_sub(48) as usize * 10 + b.saturating_sub(48) as usize,
        _ => 0,
    }
}

// Nothing where no `;` follows, else `;0` or `;1`.
#[tactic(auto, unfolding(crate::specs::Forms::wrapper_size))]
pub(crate) fn wrapper(rest: &[u8]) -> Option<usize>
    ensures size { result ≡ wrapper_size rest.now }
    ensures within { IfSome result (λ size. size ≤ length rest.now) }
{
    if rest.starts_with(b";") {
        sizes::one_of(rest, &[b";0", b";1"])
    } else {
        Some(0)
    }
}

// How many decimal digits stand at the front.
fn digits_run(rest: &[u8]) -> usize
    ensures run { result ≡ prefix_len is_ascii_digit rest.now }
    ensures within { result ≤ length rest.now }
{
    for (k, b) in rest.iter().enumerate() {
        if !b.is_ascii_digit() {
            return k;
        }
    }
    rest.len()
}

// 12 to 19 decimal digits and `;`.
#[tactic(auto, unfolding(crate::specs::Forms::account_size))]
pub(crate) fn account(rest: &[u8]) -> Option<usize>
    ensures size { result ≡ account_size rest.now }
    ensures within { IfSome result (λ size. size ≤ length rest.now) }
{
    let k = digits_run(rest);
    if 12 <= k && k <= 19 && rest[k..].starts_with(b";") {
        Some(k + 1)
    } else {
        None
    }
}

// Whether the text is `%` and two decimal digits.
#[tactic(auto, unfolding(crate::specs::Forms::is_set_text))]
pub(crate) fn is_set_text(text: &[u8]) -> bool
    ensures { result ≡ is_set_text text.now }
{
    match text {
        [a, b, c] => *a == b'%' && b.is_ascii_digit() && c.is_ascii_digit(),
        _ => false,
    }
}

// Whether such a text stands at the front.
#[tactic(auto, using(crate::proofs::Within::set_short))]
pub(crate) fn begins_with_set(rest: &[u8]) -> bool
    ensures stands { result ≡ is_set_text (take 3 rest.now) }
    ensures within { IsTrue result → 3 ≤ length rest.now }
{
    rest.len() >= 3 && is_set_text(&rest[..3])
}

// `%` and two decimal digits.
#[tactic(auto, unfolding(crate::specs::Forms::set_size))]
pub(crate) fn set_name(rest: &[u8]) -> Option<usize>
    ensures size { result ≡ set_size rest.now }
    ensures within { IfSome result (λ size. size ≤ length rest.now) }
{
    if begins_with_set(rest) { Some(3) } else { None }
}

// The number that the text names: 0 where it is no `%` and two decimal digits.
#[tactic(auto, unfolding(crate::specs::Forms::set_number, crate::specs::Forms::is_set_text))]
pub(crate) fn set_number(text: &[u8]) -> u8
    ensures { result ≡ set_number text.now }
{
    match text {
        [a, b, c] if *a == b'%' && b.is_ascii_digit() && c.is_ascii_digit() => {
            (*b - 48) * 10 + (*c - 48)
        }
        _ => 0,
    }
}

// The code of a key type.
#[tactic(auto, unfolding(crate::specs::Forms::types))]
pub(crate) fn key_type(rest: &[u8]) -> Option<usize>
    ensures size { result ≡ one_of_size types rest.now }
    ensures within { IfSome result (λ size. size ≤ length rest.now) }
{
    sizes::one_of(
        rest,
        &[
            b"000", b"001", b"002", b"402", b"003", b"008", b"009", b"00A", b"00B",
        ],
    )
}

// FF, or the code of an LMK pair.
#[tactic(auto, unfolding(crate::specs::Forms::pair_codes))]
pub(crate) fn pair_code(rest: &[u8]) -> Option<usize>
    ensures size { result ≡ one_of_size pair_codes rest.now }
    ensures within { IfSome result (λ size. size ≤ length rest.now) }
{
    sizes::one_of(
        rest,
        &[
            b"FF", b"00", b"01", b"02", b"03", b"08", b"09", b"0A", b"0B",
        ],
    )
}

// 04 to 12.
#[tactic(auto, unfolding(crate::specs::Forms::lengths))]
pub(crate) fn pin_length(rest: &[u8]) -> Option<usize>
    ensures size { result ≡ one_of_size lengths rest.now }
    ensures within { IfSome result (λ size. size ≤ length rest.now) }
{
    sizes::one_of(
        rest,
        &[
            b"04", b"05", b"06", b"07", b"08", b"09", b"10", b"11", b"12",
        ],
    )
}

// A key text by its flag.
pub(crate) fn key_by_flag(rest: &[u8], flag: &[u8]) -> Option<usize>
    ensures size { result ≡ key_size (key_by_flag flag.now) rest.now }
    ensures within { IfSome result (λ size. size ≤ length rest.now) }
{
    if same_text(flag, b"0") {
        sizes::key(rest, KeyForm::F0)
    } else if same_text(flag, b"1") {
        sizes::key(rest, KeyForm::F1)
    } else {
        sizes::key(rest, KeyForm::F2)
    }
}

// The number of hexadecimal digits of a component.
pub(crate) fn component_digits(scheme: &[u8]) -> usize
    ensures { result ≡ component_digits scheme.now }
{
    if same_text(scheme, b"Z") {
        16
    } else if same_text(scheme, b"U") {
        32
    } else {
        48
    }
}

// The number of digits of a MAC by its size.
pub(crate) fn mac_digits(mac_size: &[u8]) -> usize
    ensures { result ≡ mac_digits mac_size.now }
{
    if same_text(mac_size, b"0") { 8 } else { 16 }
}

// Data of n bytes.
pub(crate) fn data(rest: &[u8], hexadecimal: bool, n: usize) -> Option<usize>
    ensures size { result ≡ data_size hexadecimal n rest.now }
    ensures within { IfSome result (λ size. size ≤ length rest.now) }
{
    if hexadecimal {
        if n % 2 == 0 {
            sizes::hex(rest, n)
        } else {
            None
        }
    } else {
        sizes::take(rest, n)
    }
}

fn all_f(text: &[u8]) -> bool
    ensures { result ≡ list_all is_f text.now }
{
    text.iter().all(|b| *b == b'F')
}

// Twelve characters: k digits, then F to the end.
#[tactic(auto, unfolding(crate::specs::Forms::filled_size))]
pub(crate) fn filled(rest: &[u8], k: usize) -> Option<usize>
    ensures size { result ≡ filled_size k rest.now }
    ensures within { IfSome result (λ size. size ≤ length rest.now) }
{
    if rest.len() < 12 {
        return None;
    }
    let text = &rest[..12];
    let k = if k < 12 { k } else { 12 };
    if sizes::all_digits(&text[..k]) && all_f(&text[k..]) {
        Some(12)
    } else {
        None
    }
}

// Twelve characters: digits, then F to the end.
pub(crate) fn clear_pin(rest: &[u8]) -> Option<usize>
    ensures size { result ≡ filled_size (prefix_len is_ascii_digit (take 12 rest.now)) rest.now }
    ensures within { IfSome result (λ size. size ≤ length rest.now) }
{
    let front = if rest.len() < 12 { rest } else { &rest[..12] };
    filled(rest, digits_run(front))
}

fn is_hex_or_n(b: u8) -> bool
    ensures { result ≡ hex_or_n b }
{
    b.is_ascii_hexdigit() || b == b'N'
}

fn all_hex_or_n(text: &[u8]) -> bool
    ensures { result ≡ list_all hex_or_n text.now }
{
    text.iter().all(|b| is_hex_or_n(*b))
}

fn count_n(text: &[u8]) -> usize
    ensures { result ≡ count_by is_n text.now }
{
    text.iter().filter(|b| **b == b'N').count()
}

// Twelve characters: 11 hexadecimal digits and one N.
#[tactic(auto, unfolding(crate::specs::Forms::validation_size))]
pub(crate) fn validation(rest: &[u8]) -> Option<usize>
    ensures size { result ≡ validation_size rest.now }
    ensures within { IfSome result (λ size. size ≤ length rest.now) }
{
    if rest.len() < 12 {
        return None;
    }
    let text = &rest[..12];
    if all_hex_or_n(text) && count_n(text) == 1 {
        Some(12)
    } else {
        None
    }
}

/// How many bytes stand before the next space or the end.
pub fn token_run(rest: &[u8]) -> usize
    ensures run { result ≡ prefix_len is_no_space rest.now }
    ensures within { result ≤ length rest.now }
{
    for (k, b) in rest.iter().enumerate() {
        if *b == b' ' {
            return k;
        }
    }
    rest.len()
}

fn all_visible(text: &[u8]) -> bool
    ensures { result ≡ list_all is_visible text.now }
{
    text.iter().all(|b| 33 <= *b && *b <= 126)
}

fn is_word(text: &[u8]) -> bool
    ensures { result ≡ is_word text.now }
{
    1 <= text.len() && text.len() <= 64 && all_visible(text)
}

// 1 to 64 visible characters, up to a space or the end.
#[tactic(auto, unfolding(crate::specs::Forms::token_size))]
pub(crate) fn word(rest: &[u8]) -> Option<usize>
    ensures size { result ≡ token_size is_word rest.now }
    ensures within { IfSome result (λ size. size ≤ length rest.now) }
{
    let k = token_run(rest);
    if is_word(&rest[..k]) { Some(k) } else { None }
}

fn is_activity(text: &[u8]) -> bool
    ensures { result ≡ is_activity text.now }
{
    Activity::read(text).is_some()
}

// An activity, up to a space or the end.
#[tactic(auto, unfolding(crate::specs::Forms::token_size))]
pub(crate) fn activity(rest: &[u8]) -> Option<usize>
    ensures size { result ≡ token_size is_activity rest.now }
    ensures within { IfSome result (λ size. size ≤ length rest.now) }
{
    let k = token_run(rest);
    if is_activity(&rest[..k]) {
        Some(k)
    } else {
        None
    }
}

fn is_activity_or_star(text: &[u8]) -> bool
    ensures { result ≡ is_activity_or_star text.now }
{
    same_text(text, b"*") || is_activity(text)
}

// An activity or a star, up to a space or the end.
#[tactic(auto, unfolding(crate::specs::Forms::token_size))]
pub(crate) fn activity_or_star(rest: &[u8]) -> Option<usize>
    ensures size { result ≡ token_size is_activity_or_star rest.now }
    ensures within { IfSome result (λ size. size ≤ length rest.now) }
{
    let k = token_run(rest);
    if is_activity_or_star(&rest[..k]) {
        Some(k)
    } else {
        None
    }
}

fn is_minutes(text: &[u8]) -> bool
    ensures { result ≡ is_minutes text.now }
{
    same_text(text, b"0")
        || 1 <= text.len()
            && text.len() <= 4
            && sizes::all_digits(text)
            && !text.starts_with(b"0")
            && decimal_value(text) <= MAX_MINUTES as u32
}

// The minutes of a grant, up to a space or the end.
#[tactic(auto, unfolding(crate::specs::Forms::token_size))]
pub(crate) fn minutes(rest: &[u8]) -> Option<usize>
    ensures size { result ≡ token_size is_minutes rest.now }
    ensures within { IfSome result (λ size. size ≤ length rest.now) }
{
    let k = token_run(rest);
    if is_minutes(&rest[..k]) {
        Some(k)
    } else {
        None
    }
}
