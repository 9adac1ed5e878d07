//! Key types with their table, schemes of key texts, and PINs.
#![tactic(auto)]

mod pins;
mod schemes;
mod table;
mod types;

pub use pins::{Pin, all_decimal};
pub use schemes::scheme_parts;
pub use table::{by_code, code, length_allowed, pair, variant};
pub use types::{Act, KeyType, Permit, Permits, Scheme};
