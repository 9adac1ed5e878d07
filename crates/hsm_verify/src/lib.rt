//! Verification values of PINs and cards: PVV, the natural PIN and offset of the 3624 method, CVV.
#![tactic(auto)]

mod cards;
mod offsets;
mod selection;

pub use cards::{cvv, pvv};
pub use offsets::{natural_pin, offset, offset_matches, table_ok};
pub use selection::select;
