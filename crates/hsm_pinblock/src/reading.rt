//! The PIN of a block.
ghost use Rattle.std.specs.Prelude.{◌≡◌, ◌&&◌, IfOk, IsTrue, length, nat_le};
ghost use Rattle.std.specs.List.{list_all, take_while};
ghost use Rattle.std.specs.Result.{result_err};
ghost use Rattle.hsm_types.specs.Pins.{is_decimal};
ghost use Rattle.hsm_pinblock.specs.Blocks.{HoldsPin, is_fill};
ghost use Rattle.hsm_pinblock.specs.Faults.{blockfault, body_in, control_fails, length_in, pin_of_block};

use crate::building::mixed;
use crate::{BlockFault, Format};
use hsm_nibbles::nibbles_of;
use hsm_types::Pin;

fn control_fails(format: Format, nibbles: &[u8; 16]) -> bool
    ensures { result ≡ control_fails format nibbles.now }
{
    match format {
        Format::F01 => nibbles[0] != 0,
        Format::F47 => nibbles[0] != 3,
        Format::F05 => nibbles[0] != 1,
        Format::F03 => false,
    }
}

// How many decimal nibbles stand before the first other one.
fn decimal_front(nibbles: &[u8; 16]) -> usize
    ensures { result ≡ length (take_while is_decimal nibbles.now) }
{
    for i in 0..16 {
        if nibbles[i] >= 10 {
            return i;
        }
    }
    16
}

fn length_in(format: Format, nibbles: &[u8; 16]) -> usize
    ensures { result ≡ length_in format nibbles.now }
{
    match format {
        Format::F01 | Format::F47 | Format::F05 => usize::from(nibbles[1]),
        Format::F03 => decimal_front(nibbles),
    }
}

// Whether a PIN may have so many digits.
fn is_pin_length(length: usize) -> bool
    ensures { result ≡ (nat_le 4 length && nat_le length 12) }
{
    length >= 4 && length <= 12
}

// The nibbles of the PIN and the fill.
fn body_in(format: Format, nibbles: &[u8; 16]) -> &[u8]
    ensures { result.now ≡ body_in format nibbles.now }
{
    match format {
        Format::F01 | Format::F47 | Format::F05 => &nibbles[2..],
        Format::F03 => nibbles,
    }
}

fn is_fill(format: Format, nibble: u8) -> bool
    ensures { result ≡ is_fill format nibble }
{
    match format {
        Format::F01 | Format::F03 => nibble == 15,
        Format::F47 => nibble >= 10 && nibble <= 15,
        Format::F05 => nibble <= 15,
    }
}

fn all_fill(format: Format, nibbles: &[u8]) -> bool
    ensures { result ≡ list_all (is_fill format) nibbles.now }
{
    nibbles.iter().all(|nibble| is_fill(format, *nibble))
}

/// The PIN of a block for the account; 05 and 03 don't look at the account. The first fault that stands is told:
/// `Control`, `Length`, `Body`.
#[tactic(auto, unfolding(crate::specs::Faults::pin_of_block))]
pub fn read(format: Format, block: u64, account: &[u8; 12]) -> Result<Pin, BlockFault>
    requires { IsTrue (list_all is_decimal account.now) }
    ensures fault { result_err result ≡ blockfault format block account.now }
    ensures holds { IfOk result (λ pin. HoldsPin format pin account.now block) }
    ensures value { IfOk result (λ pin. pin ≡ pin_of_block format block account.now) }
{
    let nibbles = mixed(format, account, nibbles_of(block));
    if control_fails(format, &nibbles) {
        return Err(BlockFault::Control);
    }
    let length = length_in(format, &nibbles);
    if !is_pin_length(length) {
        return Err(BlockFault::Length);
    }
    let (digits, fill) = body_in(format, &nibbles).split_at(length);
    let Some(pin) = Pin::of(digits) else {
        return Err(BlockFault::Body);
    };
    if !all_fill(format, fill) {
        return Err(BlockFault::Body);
    }
    Ok(pin)
}
