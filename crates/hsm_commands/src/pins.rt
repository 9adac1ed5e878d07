//! The PINs that messages give, and what is wrong with them.
ghost use Rattle.std.specs.Prelude.{◌≡◌, IfOk, IsTrue};
ghost use Rattle.std.specs.List.{list_all};
ghost use Rattle.std.specs.Option.{option_map};
ghost use Rattle.hsm_types.specs.Pins.{is_decimal};
ghost use Rattle.hsm_answers.specs.Given.{code_in};
ghost use Rattle.hsm_answers.specs.Plans.{code_number};
ghost use Rattle.hsm_commands.specs.Values.{sent_fault, sent_pin, longer_fault, shorter_fault, table_fault, sealed_fault, opened_pin};

use hsm_lmk::{KeyCache, LmkSet};
use hsm_pinblock::{BlockFault, Format, open_pin, read};
use hsm_rows::Code;
use hsm_tdes::Key;
use hsm_types::Pin;
use hsm_verify::table_ok;

// The PIN of a block that was sent under the key: 20 or 24 for the block's fault.
pub(crate) fn sent_pin(
    cache: &KeyCache,
    key: &Key,
    format: Format,
    block: u64,
    account: &[u8; 12],
) -> Result<Pin, Code>
    requires { IsTrue (list_all is_decimal account.now) }
    ensures fault { code_in result ≡ sent_fault key.now format block account.now }
    ensures pin { IfOk result (λ pin. pin ≡ sent_pin key.now format block account.now) }
{
    match read(format, cache.decipher(key, block), account) {
        Ok(pin) => Ok(pin),
        Err(BlockFault::Length) => Err(Code(24)),
        Err(BlockFault::Control) | Err(BlockFault::Body) => Err(Code(20)),
    }
}

// 24 where the PIN has more digits.
pub(crate) fn longer(most: usize, pin: &Pin) -> Option<Code>
    ensures { option_map code_number result ≡ longer_fault most pin.now }
{
    if pin.digits().len() > most {
        Some(Code(24))
    } else {
        None
    }
}

// 24 where the PIN has fewer digits.
pub(crate) fn shorter(least: usize, pin: &Pin) -> Option<Code>
    ensures { option_map code_number result ≡ shorter_fault least pin.now }
{
    if pin.digits().len() < least {
        Some(Code(24))
    } else {
        None
    }
}

// 25 where the decimalisation table may not be used.
pub(crate) fn bad_table(table: &[u8; 16]) -> Option<Code>
    requires { IsTrue (list_all is_decimal table.now) }
    ensures { option_map code_number result ≡ table_fault table.now }
{
    if table_ok(table) {
        None
    } else {
        Some(Code(25))
    }
}

// The PIN of a text under the LMK: 14 where it has none for the account.
pub(crate) fn opened_pin(set: &LmkSet, text: u64, account: &[u8; 12]) -> Result<Pin, Code>
    requires { IsTrue (list_all is_decimal account.now) }
    ensures fault { code_in result ≡ sealed_fault set.now text account.now }
    ensures pin { IfOk result (λ pin. pin ≡ opened_pin set.now text account.now) }
{
    match open_pin(set, text, account) {
        Ok(pin) => Ok(pin),
        Err(_) => Err(Code(14)),
    }
}
