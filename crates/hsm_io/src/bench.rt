// The bench, which has the files, the seed, the doors, the clocks and the gates.
ghost use Rattle.std.specs.Prelude.{◌≡◌, ◌<◌, ◌++◌, ◌∷◌, ℕ, List, [], length, Option, Some, true, false, MatchOption};
ghost use Rattle.hsm_io.specs.Files.{FileSide, Opened, NotOpened, Closed};
ghost use Rattle.hsm_io.specs.Sides.{SeedSide, DoorSide, Seeded, NotSeeded, DoorOpened, DoorRefused, IsNotAmong};
ghost use Rattle.hsm_io.specs.Gates.{GateCall};

use crate::{Clock, Door, Gate, Source};

/// What a command is given of the outside. A call leaves the sides as they were that are not its own.
pub trait Bench {
    type File: Source + Send + Drop;

    type Door: Door + Send + Drop;

    type Clock: Clock + Send + Drop;

    type Gate: Gate + Send + Drop;

    /// What it keeps of its files.
    ghost files: { Self → FileSide };

    /// What it keeps of its seeds.
    ghost seeds: { Self → SeedSide };

    /// What it keeps of its doors.
    ghost doors: { Self → DoorSide };

    /// The moments to come of each clock that it gives, where told.
    ghost moments: { Self → Option (List ℕ) };

    /// The lanes for which it was asked gates, in order.
    ghost gates: { Self → List ℕ };

    /// Opens the file of this name, which is then out of the bench, or gives none where that fails.
    fn open_file(&mut self, name: &str) -> Option<Self::File>
        // No file is out.
        requires { (files self.old).is_out ≡ false }
        ensures files { MatchOption result (NotOpened (files self.old) (files self.new) name.now)
            (λ file. Opened (files self.old) (files self.new) name.now (Self.File.stream file) (Self.File.faults file)) }
        ensures seeds { seeds self.new ≡ seeds self.old }
        ensures doors { doors self.new ≡ doors self.old }
        ensures moments { moments self.new ≡ moments self.old }
        ensures gates { gates self.new ≡ gates self.old };

    /// Puts the file back. Where it failed while it was out, the count for files rises.
    fn close_file(&mut self, file: Self::File)
        // A file is out.
        requires { (files self.old).is_out ≡ true }
        ensures files { Closed (files self.old) (files self.new) (Self.File.stream file) (Self.File.faults file) }
        ensures seeds { seeds self.new ≡ seeds self.old }
        ensures doors { doors self.new ≡ doors self.old }
        ensures moments { moments self.new ≡ moments self.old }
        ensures gates { gates self.new ≡ gates self.old };

    /// Gives a seed, or none where that fails.
    fn seed(&mut self) -> Option<[u8; 32]>
        ensures seeds { MatchOption result (NotSeeded (seeds self.old) (seeds self.new))
            (λ seed. Seeded (seeds self.old) (seeds self.new) seed) }
        ensures files { files self.new ≡ files self.old }
        ensures doors { doors self.new ≡ doors self.old }
        ensures moments { moments self.new ≡ moments self.old }
        ensures gates { gates self.new ≡ gates self.old };

    /// Opens the door of this port, with the connections to come there, or gives none where that fails.
    fn door(&mut self, port: u16) -> Option<Self::Door>
        // The port was not asked before.
        requires new { IsNotAmong port (doors self.old).asked }
        // Fewer than 65 ports were asked.
        requires few { length (doors self.old).asked < 65 }
        ensures doors { MatchOption result (DoorRefused (doors self.old) (doors self.new) port)
            (λ door. DoorOpened (doors self.old) (doors self.new) port (Self.Door.doorway door) (Self.Door.is_out door)
            (Self.Door.faults door) (Self.Door.broken door)) }
        ensures files { files self.new ≡ files self.old }
        ensures seeds { seeds self.new ≡ seeds self.old }
        ensures moments { moments self.new ≡ moments self.old }
        ensures gates { gates self.new ≡ gates self.old };

    /// Gives a clock with the bench's moments to come.
    fn clock(&mut self) -> Self::Clock
        ensures to_come { Self.Clock.to_come result ≡ moments self.old }
        ensures files { files self.new ≡ files self.old }
        ensures seeds { seeds self.new ≡ seeds self.old }
        ensures doors { doors self.new ≡ doors self.old }
        ensures moments { moments self.new ≡ moments self.old }
        ensures gates { gates self.new ≡ gates self.old };

    /// Gives a gate for this lane, which has got no calls.
    fn gate(&mut self, lane: u32) -> Self::Gate
        ensures calls { (c : List GateCall) → Self.Gate.calls result ≡ Some c → c ≡ [] }
        ensures files { files self.new ≡ files self.old }
        ensures seeds { seeds self.new ≡ seeds self.old }
        ensures doors { doors self.new ≡ doors self.old }
        ensures moments { moments self.new ≡ moments self.old }
        ensures gates { gates self.new ≡ gates self.old ++ lane ∷ [] };
}
