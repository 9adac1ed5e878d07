//! What a ledger keeps.
ghost use Rattle.std.specs.Prelude.{◌≡◌, ◌≤◌, ◌^◌, ◌<◌};
ghost use Rattle.hsm_auth.specs.declared.entry.TheConstants.{MAX_NOTES};

use crate::entry::{Grant, MAX_GRANTS, Note};
use arrayvec::ArrayVec;
use circular_buffer::HeapCircularBuffer;

/// The parts of a ledger, which change one after another in a step. What each step changes lies together, behind the grants,
/// so that a thread takes over little from the one that made the entry before.
#[derive(Drop)]
pub(crate) struct State {
    pub(crate) grants: ArrayVec<Grant, MAX_GRANTS>,
    pub(crate) moment: u64,
    pub(crate) place: u64,
    pub(crate) number: u64,
    pub(crate) notes: HeapCircularBuffer<Note>,
    ghost early: { moment ≤ 2 ^ 40 },
    ghost small: { (place < 2 ^ 63) × (number < 2 ^ 63) },
    ghost ring: { notes.capacity ≡ MAX_NOTES },
}
