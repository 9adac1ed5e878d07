// The lanes for which a bench was asked gates.
ghost use Rattle.std.specs.Prelude.{◌≡◌, ◌++◌, ◌∷◌, []};

use std::marker::Model;
use std::mem;
use std::snapshot::Snapshot;

// The lanes, the last first. Only contracts see them.
#[derive(Drop)]
pub(crate) enum Lanes {
    Nothing,
    Behind(Snapshot<Lanes>, u32),
}

/// The lanes for which a bench was asked gates, in order. Contracts alone see them, and it takes no memory for them.
#[derive(Drop)]
pub struct GatedLanes {
    lanes: Snapshot<Lanes>,
}

impl Model for GatedLanes {
    ghost use Rattle.std.specs.Prelude.{ℕ, List};
    ghost use Rattle.hsm_io.specs.GatedLanes.{lanes_of};

    ghost Value = { List ℕ };

    ghost view = { λ s. lanes_of s.lanes.value };
}

impl GatedLanes {
    /// No lane.
    pub fn new() -> GatedLanes
        ensures { result ≡ [] }
    {
        GatedLanes {
            lanes: Snapshot::of(&Lanes::Nothing),
        }
    }

    /// A gate was asked for this lane too.
    pub fn push(&mut self, lane: u32)
        ensures { self.new ≡ self.old ++ lane ∷ [] }
    {
        let earlier = mem::replace(&mut self.lanes, Snapshot::of(&Lanes::Nothing));
        self.lanes = Snapshot::of(&Lanes::Behind(earlier, lane));
    }
}
