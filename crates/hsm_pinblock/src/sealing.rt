//! PINs under the LMK.
ghost use Rattle.std.specs.Prelude.{◌≡◌, IfOk, IsTrue, is_err, is_some};
ghost use Rattle.std.specs.List.{list_all};
ghost use Rattle.hsm_types.specs.Pins.{is_decimal};
ghost use Rattle.hsm_pinblock.specs.Blocks.{HoldsPin, SealedPin, sealed_pin};
ghost use Rattle.hsm_pinblock.specs.Faults.{blockfault, opened_block, pin_of_block};

use crate::{Format, PinFault, build, read};
use hsm_lmk::{LmkSet, decipher_pair, encipher_pair};
use hsm_types::Pin;

/// The text of a PIN under the LMK: its 01 block for the account, enciphered under LMK pair 02-03.
#[tactic(auto, unfolding(crate::specs::Blocks::block_of_pin))]
pub fn seal_pin(set: &LmkSet, pin: &Pin, account: &[u8; 12]) -> u64
    requires { IsTrue (list_all is_decimal account.now) }
    ensures sealed { SealedPin set.now pin.now account.now result }
    ensures value { result ≡ sealed_pin set.now pin.now account.now }
{
    encipher_pair(set, 1, build(Format::F01, pin, account, &[15; 14]))
}

/// The PIN of a text under the LMK, for the account that it was sealed with. `Invalid` exactly where the deciphered
/// block is no 01 block for the account.
pub fn open_pin(set: &LmkSet, text: u64, account: &[u8; 12]) -> Result<Pin, PinFault>
    requires { IsTrue (list_all is_decimal account.now) }
    ensures invalid { is_err result ≡ is_some (blockfault Format.F01 (opened_block set.now text) account.now) }
    ensures holds { IfOk result (λ pin. HoldsPin Format.F01 pin account.now (opened_block set.now text)) }
    ensures value { IfOk result (λ pin. pin ≡ pin_of_block Format.F01 (opened_block set.now text) account.now) }
{
    match read(Format::F01, decipher_pair(set, 1, text), account) {
        Ok(pin) => Ok(pin),
        Err(_) => Err(PinFault::Invalid),
    }
}
