//! Activities, and the ledger of one thread.
#![tactic(auto)]

mod activity;
mod entry;
mod laws;
mod ledger;
mod state;
mod step;

pub use activity::{Activity, Category, MAX_TEXT, Place, covers};
pub use entry::{
    Ask, Entry, Grant, Granted, Kind, MAX_GRANTS, MAX_MINUTES, MAX_MOMENT, MAX_NOTES, MAX_WORDS,
    Needs, Note,
};
pub use laws::{limits, live_grants, own_entries};
pub use ledger::Ledger;
