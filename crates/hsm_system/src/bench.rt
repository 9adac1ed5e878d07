//! The bench over the system: its files, the seed device, listeners and the system's clock. It tells its counts alone, and what it was asked last.

ghost use Rattle.std.specs.Prelude.{◌≡◌, [], None, IfSome, false};
ghost use Rattle.std.specs.Io.KnownBytes.{Consumes};

use super::clock::SystemClock;
use super::files::SystemFile;
use super::sockets::SystemDoor;
use arrayvec::ArrayVec;
use hsm_io::{Bench, GatedLanes, OpenGate, keep_name};
use std::fs;
use std::fs::File;
use std::io::Read;

/// The device of random bytes.
const SEED_DEVICE: &str = "/dev/urandom";

/// What the bench keeps: whether a file is out, counts of the faults of files, seeds and doors, the first 4,096 bytes of the last name and of the bad one,
/// how many seeds were given and the last of them, the ports that were asked and the one whose door could not be opened last. The lanes for which it was
/// asked gates are seen by contracts alone.
#[derive(Drop)]
pub struct SystemBench<'a> {
    rt: &'a HostRuntime,
    is_out: bool,
    file_faults: u64,
    last_name: ArrayVec<u8, 4096>,
    bad_name: ArrayVec<u8, 4096>,
    seed_faults: u64,
    seeds_given: u64,
    last_seed: [u8; 32],
    door_faults: u64,
    bad_port: u16,
    asked: ArrayVec<u16, 65>,
    gates: GatedLanes,
}

impl<'a> SystemBench<'a> {
    /// A bench of which no file is out and no port was asked.
    pub fn new(rt: &'a HostRuntime) -> Self
        ensures none_out { result.is_out ≡ false }
        ensures none_asked { result.asked.items ≡ [] }
    {
        SystemBench {
            rt,
            is_out: false,
            file_faults: 0,
            last_name: ArrayVec::new(),
            bad_name: ArrayVec::new(),
            seed_faults: 0,
            seeds_given: 0,
            last_seed: [0; 32],
            door_faults: 0,
            bad_port: 0,
            asked: ArrayVec::new(),
            gates: GatedLanes::new(),
        }
    }
}

// The next 32 bytes of the device, or none where they can't be read.
fn seed_of<R: Read>(device: &mut R) -> Option<[u8; 32]>
    ensures { IfSome result (λ seed. Consumes (R.remaining device.old) (R.remaining device.new) seed) }
{
    let mut seed = [0; 32];
    device.read_exact(&mut seed).ok()?;
    Some(seed)
}

// 32 bytes of the seed device.
fn read_seed(rt: &HostRuntime) -> Option<[u8; 32]> {
    let mut device = fs::open(rt, SEED_DEVICE).ok()?;
    seed_of(&mut device)
}

impl<'a> Bench for SystemBench<'a> {
    type File = SystemFile<File>;

    type Door = SystemDoor;

    type Clock = SystemClock<'a>;

    type Gate = OpenGate;

    ghost files = { λ bench. record {
      bytes_of = λ name. None;
      is_out = bench.is_out;
      name_out = None;
      faults = bench.file_faults;
      last_name = bench.last_name.items;
      bad_name = bench.bad_name.items;
    } };

    ghost seeds = { λ bench. record {
      faults = bench.seed_faults;
      given = bench.seeds_given;
      last_seed = bench.last_seed;
    } };

    ghost doors = { λ bench. record {
      connections = λ port. None;
      faults = bench.door_faults;
      bad_port = bench.bad_port;
      asked = bench.asked.items;
    } };

    ghost moments = { λ bench. None };

    ghost gates = { λ bench. bench.gates };

    fn open_file(&mut self, name: &str) -> Option<SystemFile<File>> {
        keep_name(&mut self.last_name, name.as_bytes());
        match fs::open(self.rt, name) {
            Ok(file) => {
                self.is_out = true;
                Some(SystemFile::new(file))
            }
            Err(_) => {
                self.file_faults = self.file_faults.saturating_add(1);
                keep_name(&mut self.bad_name, name.as_bytes());
                None
            }
        }
    }

    fn close_file(&mut self, file: SystemFile<File>) {
        self.is_out = false;
        if file.has_failed() {
            self.file_faults = self.file_faults.saturating_add(1);
            keep_name(&mut self.bad_name, &self.last_name);
        }
    }

    fn seed(&mut self) -> Option<[u8; 32]> {
        match read_seed(self.rt) {
            Some(seed) => {
                self.seeds_given = self.seeds_given.saturating_add(1);
                self.last_seed = seed;
                Some(seed)
            }
            None => {
                self.seed_faults = self.seed_faults.saturating_add(1);
                None
            }
        }
    }

    fn door(&mut self, port: u16) -> Option<SystemDoor> {
        self.asked.push(port);
        match SystemDoor::open(self.rt, port) {
            Some(door) => Some(door),
            None => {
                self.bad_port = port;
                self.door_faults = self.door_faults.saturating_add(1);
                None
            }
        }
    }

    fn clock(&mut self) -> SystemClock<'a> {
        SystemClock::new(self.rt)
    }

    fn gate(&mut self, lane: u32) -> OpenGate {
        self.gates.push(lane);
        OpenGate
    }
}
