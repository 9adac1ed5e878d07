//! Lanes on threads: each lane serves the connections of its door one after another, and the lanes run beside one another.
#![tactic(auto)]

mod lane;
mod run;
mod setup;
mod state;

pub use lane::{Lane, LaneEnd};
pub use run::{kind_for, run_lanes};
pub use state::HasState;
