//! One ledger that threads share, and the history that their bookings make.
#![tactic(auto)]

mod desk;
mod plays;
mod view;

pub use desk::{Booked, Desk, Pass};
