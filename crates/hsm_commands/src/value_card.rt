//! CVVs.
ghost use Rattle.std.specs.Prelude.{◌≡◌, IsTrue, length};
ghost use Rattle.std.specs.List.{list_all};
ghost use Rattle.hsm_types.specs.Pins.{is_decimal};
ghost use Rattle.hsm_rows.specs.Standing.{AreDigits, IsAccount};
ghost use Rattle.hsm_commands.specs.Values.{account_digits, cvv_text};

use arrayvec::ArrayVec;
use hsm_answers::{KeyPair, characters, digits};
use hsm_rows::digit;
use hsm_verify::cvv;

// The digits of an account number, which ends with a semicolon.
fn account_digits(account: &[u8]) -> ArrayVec<u8, 19>
    requires { IsAccount account.now }
    ensures digits { result.items ≡ account_digits account.now }
    ensures decimal { IsTrue (list_all is_decimal result.items) }
{
    let (characters, _) = account.split_at(account.len() - 1);
    let mut values = ArrayVec::new();
    for character in characters {
        values.push(digit(*character));
    }
    values
}

// The CVV of a card as it is written. It is not inlined: only the messages that have one should make its room.
#[inline(never)]
pub(crate) fn cvv_text(pair: &KeyPair, account: &[u8], expiry: &[u8], service: &[u8]) -> [u8; 3]
    requires first { length pair.now.first ≡ 1 }
    requires second { length pair.now.second ≡ 1 }
    requires account { IsAccount account.now }
    requires expiry { AreDigits 4 expiry.now }
    requires service { AreDigits 3 service.now }
    ensures { result ≡ cvv_text pair.now.first pair.now.second account.now expiry.now service.now }
{
    let pan = account_digits(account);
    let value = cvv(
        &pair.first,
        &pair.second,
        pan.as_slice(),
        &digits(expiry),
        &digits(service),
    );
    characters(&value)
}
