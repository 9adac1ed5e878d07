//! A sink that counts the replies in a script's output and hashes all of it.
#![tactic(auto)]

mod replies;
mod tally;

pub use tally::{Tally, Totals};
