// A bench in memory.
ghost use Rattle.std.specs.Prelude.{◌≡◌, ◌<◌, ◌≤◌, ◌^◌, ◌++◌, ◌∷◌, [], true, false, None, Some, MatchOption, All, length, bytes_eq, ◌==◌};
ghost use Rattle.std.specs.List.{list_any};
ghost use Rattle.hsm_io.specs.Files.{Opened, NotOpened, Closed};
ghost use Rattle.hsm_io.specs.Sides.{Seeded, NotSeeded, DoorOpened, DoorRefused, IsNotAmong};

use crate::mem_doors::MemDoors;
use crate::mem_files::MemFiles;
use crate::mem_seeds::MemSeeds;
use crate::{Bench, GatedLanes, MemClock, MemDoor, MemFile, MemGate, MemNamed};
use arrayvec::ArrayVec;
use std::marker::Model;

/// A bench in memory. It fails the listed calls, the opening of a file of a name that it doesn't hold, and a call for a
/// door at a port that it doesn't hold, and no other. Its gates are `MemGate`. None of its calls takes memory.
#[derive(Drop)]
pub struct MemBench {
    files: MemFiles,
    seeds: MemSeeds,
    doors: MemDoors,
    moments: ArrayVec<u64, 16>,
    gates: GatedLanes,
}

impl Model for MemBench {
    ghost use Rattle.std.specs.Prelude.{◌<◌, ◌≤◌, ◌^◌, length, All};
    ghost use Rattle.hsm_io.specs.MemoryBench.{BenchState};

    ghost Value = { BenchState };

    ghost view = { λ s. record {
      files = s.files;
      seeds = s.seeds;
      doors = s.doors;
      moments = s.moments.items;
      gates = s.gates;
    } };

    ghost invariant = { λ s. (0 < length s.moments.items) × All (λ m. m ≤ 2 ^ 40) s.moments.items };
}

impl MemBench {
    ghost use Rattle.hsm_io.specs.MemoryBench.{names_differ, ports_differ, IsNewDoor};

    /// A bench with these files, of which none is out, and these doors, of which none was asked. It fails the listed
    /// openings, calls for a seed and calls for a door, each kind numbered from 0. Each of its clocks has these moments
    /// to come.
    pub fn new(
        files: Vec<MemNamed>,
        doors: Vec<(u16, MemDoor)>,
        seed: [u8; 32],
        moments: ArrayVec<u64, 16>,
        bad_files: Vec<u32>,
        bad_seeds: Vec<u32>,
        bad_doors: Vec<u32>,
    ) -> MemBench
        requires names { names_differ files.items ≡ true }
        requires ports { ports_differ doors.items ≡ true }
        // Each door is as it was made.
        requires new_doors { All (λ door. IsNewDoor door.1) doors.items }
        requires some { 0 < length moments.items }
        requires limit { All (λ m. m ≤ 2 ^ 40) moments.items }
        ensures files { result.files ≡ record {
          files = files.items;
          out = None;
          bad_files = bad_files.items;
          calls = 0;
          faults = 0;
          last_name = [];
          bad_name = [];
        } }
        ensures seeds { result.seeds ≡ record {
          seed = seed;
          bad_seeds = bad_seeds.items;
          calls = 0;
          faults = 0;
          given = 0;
          last_seed = [];
        } }
        ensures doors { result.doors ≡ record {
          doors = doors.items;
          bad_doors = bad_doors.items;
          calls = 0;
          faults = 0;
          bad_port = 0;
          asked = [];
        } }
        ensures moments { result.moments ≡ moments.items }
        ensures gates { result.gates ≡ [] }
    {
        MemBench {
            files: MemFiles::new(files, bad_files),
            seeds: MemSeeds::new(seed, bad_seeds),
            doors: MemDoors::new(doors, bad_doors),
            moments,
            gates: GatedLanes::new(),
        }
    }

    /// Whether the names of the files differ, as a bench wants them.
    pub fn names_differ(files: &[MemNamed]) -> bool
        ensures { result ≡ names_differ files.now }
    {
        match files.split_first() {
            Some((file, others)) => !has_name(others, &file.name) && MemBench::names_differ(others),
            None => true,
        }
    }

    /// Whether the ports of the doors differ, as a bench wants them.
    pub fn ports_differ(doors: &[(u16, MemDoor)]) -> bool
        ensures { result ≡ ports_differ doors.now }
    {
        match doors.split_first() {
            Some((door, others)) => !has_port(others, door.0) && MemBench::ports_differ(others),
            None => true,
        }
    }

    /// The first 4,096 bytes of the name whose file could not be opened or read last.
    pub fn bad_name(&self) -> &[u8]
        ensures { result.now ≡ self.now.files.bad_name }
    {
        self.files.bad_name()
    }
}

impl Bench for MemBench {
    type File = MemFile;

    type Door = MemDoor;

    type Clock = MemClock;

    type Gate = MemGate;

    ghost use Rattle.hsm_io.specs.MemoryForms.{file_side, opened_of, after_open, after_close};
    ghost use Rattle.hsm_io.specs.MemoryLinks.{doorway_of};
    ghost use Rattle.hsm_io.specs.MemoryBench.{BenchState, seed_side, seed_of, after_seed, door_side, door_of, after_door};

    ghost files = { λ bench. file_side bench.files };

    ghost seeds = { λ bench. seed_side bench.seeds };

    ghost doors = { λ bench. door_side bench.doors };

    ghost moments = { λ bench. Some bench.moments };

    ghost gates = { λ bench. bench.gates };

    fn open_file(&mut self, name: &str) -> Option<MemFile>
        requires { (file_side self.old.files).is_out ≡ false }
        ensures files { MatchOption result (NotOpened (file_side self.old.files) (file_side self.new.files) name.now)
            (λ file. Opened (file_side self.old.files) (file_side self.new.files) name.now (Some file.stream) file.faults) }
        ensures seeds { seed_side self.new.seeds ≡ seed_side self.old.seeds }
        ensures doors { door_side self.new.doors ≡ door_side self.old.doors }
        ensures moments { Some self.new.moments ≡ Some self.old.moments }
        ensures gates { self.new.gates ≡ self.old.gates }
        ensures answer { result ≡ opened_of self.old.files name.now }
        ensures after { self.new ≡ record self.old { files = after_open self.old.files name.now result } }
    {
        self.files.open(name)
    }

    fn close_file(&mut self, file: MemFile)
        requires { (file_side self.old.files).is_out ≡ true }
        ensures files { Closed (file_side self.old.files) (file_side self.new.files) (Some file.stream) file.faults }
        ensures seeds { seed_side self.new.seeds ≡ seed_side self.old.seeds }
        ensures doors { door_side self.new.doors ≡ door_side self.old.doors }
        ensures moments { Some self.new.moments ≡ Some self.old.moments }
        ensures gates { self.new.gates ≡ self.old.gates }
        ensures after { self.new ≡ record self.old { files = after_close self.old.files file } }
    {
        self.files.close(file)
    }

    fn seed(&mut self) -> Option<[u8; 32]>
        ensures seeds { MatchOption result (NotSeeded (seed_side self.old.seeds) (seed_side self.new.seeds))
            (λ seed. Seeded (seed_side self.old.seeds) (seed_side self.new.seeds) seed) }
        ensures files { file_side self.new.files ≡ file_side self.old.files }
        ensures doors { door_side self.new.doors ≡ door_side self.old.doors }
        ensures moments { Some self.new.moments ≡ Some self.old.moments }
        ensures gates { self.new.gates ≡ self.old.gates }
        ensures answer { result ≡ seed_of self.old.seeds }
        ensures after { self.new ≡ record self.old { seeds = after_seed self.old.seeds result } }
    {
        self.seeds.give()
    }

    fn door(&mut self, port: u16) -> Option<MemDoor>
        requires new { IsNotAmong port self.old.doors.asked }
        requires few { length self.old.doors.asked < 65 }
        ensures doors { MatchOption result (DoorRefused (door_side self.old.doors) (door_side self.new.doors) port)
            (λ door. DoorOpened (door_side self.old.doors) (door_side self.new.doors) port (Some (doorway_of door)) door.is_out
            door.faults door.broken) }
        ensures files { file_side self.new.files ≡ file_side self.old.files }
        ensures seeds { seed_side self.new.seeds ≡ seed_side self.old.seeds }
        ensures moments { Some self.new.moments ≡ Some self.old.moments }
        ensures gates { self.new.gates ≡ self.old.gates }
        ensures answer { result ≡ door_of self.old.doors port }
        ensures after { self.new ≡ record self.old { doors = after_door self.old.doors port result } }
    {
        self.doors.give(port)
    }

    fn clock(&mut self) -> MemClock
        ensures to_come { Some result.to_come ≡ Some self.old.moments }
        ensures files { file_side self.new.files ≡ file_side self.old.files }
        ensures seeds { seed_side self.new.seeds ≡ seed_side self.old.seeds }
        ensures doors { door_side self.new.doors ≡ door_side self.old.doors }
        ensures moments { Some self.new.moments ≡ Some self.old.moments }
        ensures gates { self.new.gates ≡ self.old.gates }
        ensures clock { result ≡ record { last = 0; to_come = self.old.moments } }
        ensures after { self.new ≡ self.old }
    {
        MemClock::new(copy_moments(&self.moments))
    }

    fn gate(&mut self, lane: u32) -> MemGate
        ensures files { file_side self.new.files ≡ file_side self.old.files }
        ensures seeds { seed_side self.new.seeds ≡ seed_side self.old.seeds }
        ensures doors { door_side self.new.doors ≡ door_side self.old.doors }
        ensures moments { Some self.new.moments ≡ Some self.old.moments }
        ensures gates { self.new.gates ≡ self.old.gates ++ lane ∷ [] }
        ensures calls { result ≡ [] }
        ensures after { self.new ≡ record self.old { gates = self.old.gates ++ lane ∷ [] } }
    {
        self.gates.push(lane);
        MemGate::new()
    }
}

// The same moments.
fn copy_moments(moments: &ArrayVec<u64, 16>) -> ArrayVec<u64, 16>
    ensures { result.items ≡ moments.now.items }
{
    let mut copy = ArrayVec::new();
    match copy.try_extend_from_slice(moments.as_slice()) {
        Ok(()) => copy,
        Err(_) => unreachable!(),
    }
}

// Whether a file has this name.
fn has_name(files: &[MemNamed], name: &str) -> bool
    ensures { result ≡ list_any (λ file. bytes_eq file.name name.now) files.now }
{
    files
        .iter()
        .any(|file| file.name.as_bytes() == name.as_bytes())
}

// Whether a door has this port.
fn has_port(doors: &[(u16, MemDoor)], port: u16) -> bool
    ensures { result ≡ list_any (λ door. door.0 == port) doors.now }
{
    doors.iter().any(|door| door.0 == port)
}
