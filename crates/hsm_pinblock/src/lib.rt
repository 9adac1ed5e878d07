//! PIN blocks, and PINs under the LMK.
#![tactic(auto)]

mod building;
pub mod laws;
mod reading;
mod sealing;

pub use building::build;
pub use reading::read;
pub use sealing::{open_pin, seal_pin};
use thiserror::Error;

/// A format of PIN blocks, named by its code. An account is twelve digits, each 0 to 9; a fill is fourteen nibbles.
#[derive(Clone, Copy, Debug, PartialEq, Eq)]
pub enum Format {
    /// Format 0 of ISO 9564-1: control 0, the PIN's length, the PIN and F to 16 nibbles, exclusive-ored with the account.
    F01,
    /// The plain block: the PIN and F to 16 nibbles. No format of ISO 9564-1.
    F03,
    /// Format 1 of ISO 9564-1: control 1, the PIN's length, the PIN and a fill of any nibbles.
    F05,
    /// Format 3 of ISO 9564-1: control 3, the PIN's length, the PIN and a fill of A to F, exclusive-ored with the account.
    F47,
}

/// Why a block has no PIN: the first of these that stands.
#[derive(Clone, Copy, Debug, PartialEq, Eq, Error)]
pub enum BlockFault {
    /// The first nibble is not the format's control. Never for 03.
    #[error("the first digit of the PIN block is not its format's control")]
    Control,
    /// The length is not 4 to 12: that of the second nibble, and for 03 the number of decimal nibbles before the first
    /// other one.
    #[error("the length of the PIN is not 4 to 12")]
    Length,
    /// With the account taken out, a nibble of the PIN is not decimal or one of the fill is not allowed.
    #[error("a digit of the PIN or of the fill is not allowed")]
    Body,
}

/// Why a text under the LMK has no PIN.
#[derive(Clone, Copy, Debug, PartialEq, Eq, Error)]
pub enum PinFault {
    /// The deciphered block is no 01 block for the account.
    #[error("the text holds no PIN for this account")]
    Invalid,
}
