// Where connections come from.
ghost use Rattle.std.specs.Prelude.{◌≡◌, ℕ, Bool, true, false, Option};
ghost use Rattle.hsm_io.specs.Outside.{HasCause};
ghost use Rattle.hsm_io.specs.Connections.{Doorway, has_came_failed, Comes, IsNew, IsOutAfter, TakesBack, Breaks};

use crate::Link;

/// What a door gave.
#[derive(Drop)]
pub enum Came<K> {
    /// A connection, which is out until it is taken back.
    Link(K),
    /// No connection is to come.
    End,
    /// The call failed, and changed nothing but the count of faults.
    Failed,
}

/// A listener, which gives one connection at a time.
pub trait Door {
    type Link: Link + Send + Drop;

    /// The connections to come and those taken back, where told.
    ghost doorway: { Self → Option Doorway };

    /// How often asking for a connection has failed.
    ghost faults: { Self → ℕ };

    /// Whether a connection is out.
    ghost is_out: { Self → Bool };

    /// How many of the connections that were taken back had failed.
    ghost broken: { Self → ℕ };

    /// Gives the first connection to come. Nothing of it was read or written, and it has not failed.
    fn next(&mut self) -> Came<Self::Link>
        requires { is_out self.old ≡ false }
        ensures comes { Comes (doorway self.old) (doorway self.new) Self.Link.traffic result }
        ensures new { IsNew Self.Link.traffic Self.Link.faults result }
        ensures out { IsOutAfter (is_out self.new) result }
        ensures broken { broken self.new ≡ broken self.old }
        ensures cause { HasCause (faults self.old) (faults self.new) (has_came_failed result) };

    /// Takes an ended connection back.
    fn done(&mut self, link: Self::Link)
        requires { is_out self.old ≡ true }
        ensures taken { TakesBack (doorway self.old) (doorway self.new) (Self.Link.traffic link) (Self.Link.faults link) }
        ensures out { is_out self.new ≡ false }
        ensures broken { Breaks (broken self.old) (broken self.new) (Self.Link.faults link) }
        ensures faults { faults self.new ≡ faults self.old };
}
