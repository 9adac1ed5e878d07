//! What each command of the table asks and answers: the definitions, and the code that the command crates share.
#![tactic(auto)]

mod clear;
mod draws;
mod fields;
mod keys;
pub mod laws;
mod needs;
mod plans;
mod texts;

pub use clear::{clear_where_granted, words_authorise};
pub use draws::{draw_fill, draw_key, draw_pin, word};
pub use fields::{block, characters, compared, digits, put_block};
pub use keys::{
    Asked, KeyPair, bytes_in, check_lmk_key, check_wrapped_key, flag_parts, pair_of, repeats_part,
    scheme_named, type_by_pair, type_of_code, wrapper_type,
};
pub use needs::host_activity;
pub use plans::{Checked, empty_ask, first_of, put_code};
pub use texts::put_key;
