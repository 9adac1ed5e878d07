//! Offsets and PVVs as they are written.
ghost use Rattle.std.specs.Prelude.{◌≡◌, ◌+◌, ◌<◌, ◌≤◌, ◌++◌, IsTrue, length, flat_map};
ghost use Rattle.std.specs.List.{list_all};
ghost use Rattle.std.specs.Int.Digits.{AllBelowBase};
ghost use Rattle.hsm_types.specs.Pins.{is_decimal};
ghost use Rattle.hsm_rows.specs.Standing.{IsValidation};
ghost use Rattle.hsm_answers.specs.Values.{validation_digit, validation_block};
ghost use Rattle.hsm_commands.specs.Values.{offset_text, pvv_text};

use arrayvec::ArrayVec;
use hsm_answers::{KeyPair, characters};
use hsm_nibbles::block_of;
use hsm_rows::digit;
use hsm_tdes::Key;
use hsm_types::Pin;
use hsm_verify::{natural_pin, offset, pvv};

// Adds the digit of a character of validation data. For N the last 5 digits of the account stand.
fn add_digits(digits: &mut ArrayVec<u8, 16>, character: u8, account: &[u8; 12])
    requires { length digits.old.items + length (validation_digit account.now character) ≤ 16 }
    ensures { digits.new.items ≡ digits.old.items ++ validation_digit account.now character }
{
    if character == b'N' {
        let _ = digits.try_extend_from_slice(&account[7..]);
    } else {
        digits.push(digit(character));
    }
}

// The digits of validation data.
fn validation_digits(text: &[u8], account: &[u8; 12]) -> ArrayVec<u8, 16>
    requires { IsValidation text.now }
    ensures { result.items ≡ flat_map (validation_digit account.now) text.now }
{
    let mut digits = ArrayVec::new();
    for character in text {
        add_digits(&mut digits, *character, account);
    }
    digits
}

// The same as 16 nibbles.
fn validation_nibbles(text: &[u8], account: &[u8; 12]) -> [u8; 16]
    requires text { IsValidation text.now }
    requires account { IsTrue (list_all is_decimal account.now) }
    ensures value { result ≡ flat_map (validation_digit account.now) text.now }
    ensures bounds { AllBelowBase 16 result }
{
    let digits = validation_digits(text, account);
    let mut out = [0; 16];
    out.copy_from_slice(digits.as_slice());
    out
}

// The block of validation data.
fn validation_block(text: &[u8], account: &[u8; 12]) -> u64
    requires text { IsValidation text.now }
    requires account { IsTrue (list_all is_decimal account.now) }
    ensures { result ≡ validation_block text.now account.now }
{
    block_of(&validation_nibbles(text, account))
}

// What an offset is made of beside the key and the PIN: the decimalisation table, the validation data, the account, and
// of how many digits it is.
#[derive(Clone, Copy)]
pub(crate) struct OffsetAsked<'a> {
    pub(crate) table: [u8; 16],
    pub(crate) validation: &'a [u8],
    pub(crate) account: [u8; 12],
    pub(crate) check: usize,
}

// The offset of the PIN's first digits. It is not inlined: only the messages that have one should make its room.
#[inline(never)]
pub(crate) fn offset_text(pvk: &Key, asked: &OffsetAsked<'_>, pin: &Pin) -> [u8; 12]
    requires validation { IsValidation asked.now.validation.now }
    requires account { IsTrue (list_all is_decimal asked.now.account) }
    requires check { asked.now.check ≤ length pin.now }
    ensures { result ≡ offset_text pvk.now asked.now.table asked.now.validation.now asked.now.account pin.now asked.now.check }
{
    let block = validation_block(asked.validation, &asked.account);
    let natural = natural_pin(pvk, &asked.table, block);
    characters(&offset(&natural, pin, asked.check))
}

// The PVV of the PIN. It is not inlined, as an offset is not.
#[inline(never)]
pub(crate) fn pvv_text(pair: &KeyPair, account: &[u8; 12], index: u8, pin: &Pin) -> [u8; 4]
    requires first { length pair.now.first ≡ 1 }
    requires second { length pair.now.second ≡ 1 }
    requires account { IsTrue (list_all is_decimal account.now) }
    requires index { index < 10 }
    ensures { result ≡ pvv_text pair.now.first pair.now.second account.now index pin.now }
{
    characters(&pvv(&pair.first, &pair.second, account, index, pin))
}
