//! DES (FIPS 46-3): a block is a `u64`, and bit 1 is its most significant bit.
#![tactic(auto)]

pub use beside::Two;
pub use permutations::permute;
pub use words::{Schedule, decrypt, decrypt_encrypt_decrypt, encrypt, encrypt_decrypt_encrypt};

mod beside;
mod bits;
mod key_parts;
pub mod laws;
mod merged;
mod permutations;
mod plain;
mod tables;
mod words;
