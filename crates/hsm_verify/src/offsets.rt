//! The 3624 method: natural PINs, offsets and the tables that it takes.
ghost use Rattle.std.specs.Prelude.{◌≡◌, ◌≤◌, ◌↔◌, IsTrue, count_by, length, nat_le, nat_lt};
ghost use Rattle.std.specs.List.{list_all};
ghost use Rattle.std.specs.Int.Digits.{AllBelowBase};
ghost use Rattle.hsm_types.specs.Pins.{is_decimal};
ghost use Rattle.hsm_verify.specs.Values.{digit_counts, natural_pin, offset, table_ok};

use hsm_nibbles::nibbles_of;
use hsm_tdes::{Key, encipher};
use hsm_types::Pin;

/// The natural PIN: the digit of the decimalisation table for each nibble of the validation block, enciphered under
/// the PIN verification key.
pub fn natural_pin(pvk: &Key, table: &[u8; 16], validation: u64) -> [u8; 16]
    ensures { result ≡ natural_pin pvk.now table.now validation }
{
    let nibbles = nibbles_of(encipher(pvk, validation));
    let mut out = [0; 16];
    for i in 0..16 {
        out[i] = table[usize::from(nibbles[i])];
    }
    out
}

/// The offset of the PIN's first `check` digits: each less the natural PIN's digit, modulo 10; then the value 15 to 12
/// entries.
pub fn offset(natural: &[u8; 16], pin: &Pin, check: usize) -> [u8; 12]
    requires { check ≤ length pin.now }
    ensures value { result ≡ offset natural.now pin.now check }
    ensures bounds { AllBelowBase 16 result }
{
    let digits = pin.digits();
    let mut out = [15; 12];
    for i in 0..check {
        out[i] = (digits[i] + (10 - natural[i] % 10)) % 10;
    }
    out
}

/// Whether `offset` gives this.
pub fn offset_matches(natural: &[u8; 16], pin: &Pin, check: usize, given: &[u8; 12]) -> bool
    requires { check ≤ length pin.now }
    ensures { IsTrue result ↔ (given.now ≡ offset natural.now pin.now check) }
{
    *given == offset(natural, pin, check)
}

// How often each digit occurs.
fn digit_counts(table: &[u8; 16]) -> [u8; 10]
    requires { IsTrue (list_all is_decimal table.now) }
    ensures { result ≡ digit_counts table.now }
{
    let mut counts = [0; 10];
    for digit in table {
        counts[usize::from(*digit)] += 1;
    }
    counts
}

// How many digits occur.
fn different(counts: &[u8; 10]) -> usize
    ensures { result ≡ count_by (λ count. nat_lt 0 count) counts.now }
{
    counts.iter().filter(|count| **count > 0).count()
}

fn none_above_four(counts: &[u8; 10]) -> bool
    ensures { result ≡ list_all (λ count. nat_le count 4) counts.now }
{
    counts.iter().all(|count| *count <= 4)
}

/// Whether a decimalisation table of entries 0 to 9 may be used: at least 8 different digits occur, and none more than
/// 4 times.
pub fn table_ok(table: &[u8; 16]) -> bool
    requires { IsTrue (list_all is_decimal table.now) }
    ensures { result ≡ table_ok table.now }
{
    let counts = digit_counts(table);
    different(&counts) >= 8 && none_above_four(&counts)
}
