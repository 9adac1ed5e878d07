//! PVVs and CVVs, each under a pair of keys of one part.
ghost use Rattle.std.specs.Prelude.{◌≡◌, ◌<◌, ◌≤◌, ℕ, IsTrue, length, take};
ghost use Rattle.std.specs.List.{list_all};
ghost use Rattle.hsm_types.specs.Pins.{is_decimal};
ghost use Rattle.hsm_tdes.specs.Tdes.{enciphered};
ghost use Rattle.hsm_verify.specs.Values.{cvv, cvv_digits, pvv, pvv_digits, under_pair};

use crate::selection::select_all;
use hsm_nibbles::block_of;
use hsm_tdes::{Key, Prepared};
use hsm_types::Pin;

// The pair as one key, with its schedules.
fn pair_of(a: &Key, b: &Key) -> Prepared
    requires a { length a.now ≡ 1 }
    requires b { length b.now ≡ 1 }
    ensures pair { (x : ℕ) → enciphered result x ≡ under_pair a.now b.now x }
    ensures first { (x : ℕ) → enciphered (take 1 result) x ≡ enciphered a.now x }
{
    Prepared::of(&Key::two(&a.part(0), &b.part(0)))
}

// The last 11 digits of the account, the index and the first 4 digits of the PIN.
fn pvv_digits(account: &[u8; 12], index: u8, pin: &[u8]) -> [u8; 16]
    requires { 4 ≤ length pin.now }
    ensures { result ≡ pvv_digits account.now index pin.now }
{
    let mut digits = [0; 16];
    digits[..11].copy_from_slice(&account[1..]);
    digits[11] = index;
    digits[12..].copy_from_slice(&pin[..4]);
    digits
}

/// The PVV of a PIN, four digits, under the pair of keys A and B of one part each. The account has twelve digits, each
/// 0 to 9, of which the last eleven count; the index is one digit, and of the PIN the first four count.
pub fn pvv(a: &Key, b: &Key, account: &[u8; 12], index: u8, pin: &Pin) -> [u8; 4]
    requires a { length a.now ≡ 1 }
    requires b { length b.now ≡ 1 }
    requires account { IsTrue (list_all is_decimal account.now) }
    requires index { index < 10 }
    ensures value { result ≡ pvv a.now b.now account.now index pin.now }
    ensures decimal { IsTrue (list_all is_decimal result) }
{
    let digits = pvv_digits(account, index, pin.digits());
    let all = select_all(pair_of(a, b).encipher(block_of(&digits)));
    let mut out = [0; 4];
    out.copy_from_slice(&all[..4]);
    out
}

// The account number, the expiry date, the service code, and zeros to 32 digits.
fn cvv_digits(pan: &[u8], expiry: &[u8; 4], service: &[u8; 3]) -> [u8; 32]
    requires { length pan.now ≤ 19 }
    ensures { result ≡ cvv_digits pan.now expiry.now service.now }
{
    let length = pan.len();
    let mut digits = [0; 32];
    digits[..length].copy_from_slice(pan);
    digits[length..length + 4].copy_from_slice(expiry);
    digits[length + 4..length + 7].copy_from_slice(service);
    digits
}

/// The CVV of a card, three digits, under the pair of keys A and B of one part each. The account number has 12 to 19
/// digits; all digits are values of 0 to 9.
pub fn cvv(a: &Key, b: &Key, pan: &[u8], expiry: &[u8; 4], service: &[u8; 3]) -> [u8; 3]
    requires a { length a.now ≡ 1 }
    requires b { length b.now ≡ 1 }
    requires least { 12 ≤ length pan.now }
    requires most { length pan.now ≤ 19 }
    requires pan { IsTrue (list_all is_decimal pan.now) }
    requires expiry { IsTrue (list_all is_decimal expiry.now) }
    requires service { IsTrue (list_all is_decimal service.now) }
    ensures value { result ≡ cvv a.now b.now pan.now expiry.now service.now }
    ensures decimal { IsTrue (list_all is_decimal result) }
{
    let digits = cvv_digits(pan, expiry, service);
    let mut first = [0; 16];
    first.copy_from_slice(&digits[..16]);
    let mut second = [0; 16];
    second.copy_from_slice(&digits[16..]);
    let pair = pair_of(a, b);
    let x = pair.encipher_first(block_of(&first)) ^ block_of(&second);
    let all = select_all(pair.encipher(x));
    let mut out = [0; 3];
    out.copy_from_slice(&all[..3]);
    out
}
