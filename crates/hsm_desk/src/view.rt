//! What a seat at the desk knows, and what lies in the slot.
use hsm_auth::{Ask, Entry, Granted, Ledger};
use std::collections::LinkedList;
use std::snapshot::Snapshot;

/// The history that was seen, and the pairs of a number and a step. No value of it is made.
pub struct Known {
    pub seen: LinkedList<Entry>,
    pub kin: LinkedList<(u64, u64)>,
}

/// What a seat is at. No value of it is made.
pub enum Stage {
    Idle,
    /// It drew this ticket.
    Waiting(u64),
    /// It has the turn of this ticket.
    Turn(u64),
    /// It took in another seat, and has not looked since. What each of the two knew.
    Met(Known, Known),
}

/// What a seat knows. No value of it is made.
pub struct View {
    pub known: Known,
    pub stage: Stage,
}

/// What lies in the slot: the ledger, with what the last entry was made of.
#[derive(Drop)]
pub struct InSlot {
    pub ledger: Box<Ledger>,
    pub moment: u64,
    pub ask: Snapshot<Ask>,
    pub granted: Snapshot<Granted>,
}
