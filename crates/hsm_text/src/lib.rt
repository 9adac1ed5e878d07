//! Texts: a position in a borrowed message, the sizes of its texts, and the reply that is written.
#![tactic(auto)]

mod keys;
mod reply;
mod scan;
pub mod sizes;

pub use keys::{KeyForm, KeyText};
pub use reply::Reply;
pub use scan::{Bad, Scan};
