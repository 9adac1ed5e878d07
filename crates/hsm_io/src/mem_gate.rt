// A gate that tells the calls that it got.
ghost use Rattle.std.specs.Prelude.{◌≡◌, [], Some};

use crate::Gate;
use std::marker::Model;
use std::mem;
use std::snapshot::Snapshot;

// The calls of a gate, the last first. Only contracts see them.
#[derive(Drop)]
pub(crate) enum Kept {
    Nothing,
    Before(Snapshot<Kept>, u32, u64),
    After(Snapshot<Kept>, u32, u64),
}

/// A gate that holds no lane, and tells contracts each call that it got. It takes no memory for them.
#[derive(Drop)]
pub struct MemGate {
    calls: Snapshot<Kept>,
}

impl Model for MemGate {
    ghost use Rattle.std.specs.Prelude.{List};
    ghost use Rattle.hsm_io.specs.Gates.{GateCall};
    ghost use Rattle.hsm_io.specs.MemoryGate.{calls_of};

    ghost Value = { List GateCall };

    ghost view = { λ s. calls_of s.calls.value };
}

impl MemGate {
    /// A gate that got no calls.
    pub fn new() -> MemGate
        ensures { result ≡ [] }
    {
        MemGate {
            calls: Snapshot::of(&Kept::Nothing),
        }
    }
}

impl Gate for MemGate {
    ghost calls = { λ gate. Some gate };

    fn before_book(&mut self, lane: u32, message: u64) {
        let earlier = mem::replace(&mut self.calls, Snapshot::of(&Kept::Nothing));
        self.calls = Snapshot::of(&Kept::Before(earlier, lane, message));
    }

    fn after_book(&mut self, lane: u32, message: u64) {
        let earlier = mem::replace(&mut self.calls, Snapshot::of(&Kept::Nothing));
        self.calls = Snapshot::of(&Kept::After(earlier, lane, message));
    }
}
