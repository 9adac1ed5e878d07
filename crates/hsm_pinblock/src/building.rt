//! The block of a PIN.
ghost use Rattle.std.specs.Prelude.{◌≡◌, ◌-◌, ◌≤◌, ◌∷◌, ◌++◌, IsTrue, length, take};
ghost use Rattle.std.specs.List.{list_all};
ghost use Rattle.hsm_types.specs.Pins.{is_decimal};
ghost use Rattle.hsm_pinblock.specs.Blocks.{Block, HoldsPin, block_of_pin, mixed, permits_fill, pin_field};

use crate::Format;
use hsm_nibbles::{block_of, xor_nibbles};
use hsm_types::Pin;

// Control, length, digits and as many nibbles of the fill as are left.
fn field_of(control: u8, digits: &[u8], fill: &[u8; 14]) -> [u8; 16]
    requires { length digits.now ≤ 14 }
    ensures { result ≡ control ∷ length digits.now ∷ digits.now ++ take (14 - length digits.now) fill.now }
{
    let length = digits.len();
    let mut out = [0; 16];
    out[0] = control;
    out[1] = length as u8;
    out[2..2 + length].copy_from_slice(digits);
    out[2 + length..].copy_from_slice(&fill[..14 - length]);
    out
}

// The nibbles of the block before the account is put in.
fn pin_field(format: Format, digits: &[u8], fill: &[u8; 14]) -> [u8; 16]
    requires { length digits.now ≤ 12 }
    ensures { result ≡ pin_field format digits.now fill.now }
{
    match format {
        Format::F01 => field_of(0, digits, &[15; 14]),
        Format::F47 => field_of(3, digits, fill),
        Format::F05 => field_of(1, digits, fill),
        Format::F03 => {
            let mut out = [15; 16];
            out[..digits.len()].copy_from_slice(digits);
            out
        }
    }
}

// The nibbles with the account put in or taken out.
pub(crate) fn mixed(format: Format, account: &[u8; 12], nibbles: [u8; 16]) -> [u8; 16]
    ensures { result ≡ mixed format account.now nibbles }
{
    match format {
        Format::F01 | Format::F47 => {
            let mut field = [0; 16];
            field[4..].copy_from_slice(account);
            xor_nibbles(&nibbles, &field)
        }
        Format::F05 | Format::F03 => nibbles,
    }
}

/// The block of a PIN. Formats 05 and 47 take the fill from its front, as many nibbles as the block has room for; 05
/// takes nibbles of 0 to 15 and 47 those of 10 to 15. The other formats don't look at it, and 05 and 03 not at the
/// account.
#[tactic(auto, unfolding(crate::specs::Blocks::block_of_pin))]
pub fn build(format: Format, pin: &Pin, account: &[u8; 12], fill: &[u8; 14]) -> u64
    requires account { IsTrue (list_all is_decimal account.now) }
    requires fill { IsTrue (permits_fill format fill.now) }
    ensures block { Block format pin.now account.now fill.now result }
    ensures holds { HoldsPin format pin.now account.now result }
    ensures value { result ≡ block_of_pin format pin.now account.now fill.now }
{
    block_of(&mixed(format, account, pin_field(format, pin.digits(), fill)))
}
