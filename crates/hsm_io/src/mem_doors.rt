// The doors of a bench in memory.
ghost use Rattle.std.specs.Prelude.{◌≡◌, ◌<◌, ◌^◌, [], true, None, All, length, position, ◌==◌, if◌then◌else◌};

use crate::MemDoor;
use crate::listed::names_call;
use arrayvec::ArrayVec;
use std::marker::Model;

// Doors of different ports. It fails the listed calls, and those for a port that it doesn't hold.
#[derive(Drop)]
pub(crate) struct MemDoors {
    doors: Vec<(u16, MemDoor)>,
    bad_doors: Vec<u32>,
    // The number of the next call.
    calls: u64,
    faults: u64,
    bad_port: u16,
    asked: ArrayVec<u16, 65>,
}

impl Model for MemDoors {
    ghost use Rattle.std.specs.Prelude.{◌≡◌, true, All};
    ghost use Rattle.hsm_io.specs.MemoryBench.{DoorsState, IsNewDoor, ports_differ};

    ghost Value = { DoorsState };

    ghost view = { λ s. record {
      doors = s.doors.items;
      bad_doors = s.bad_doors.items;
      calls = s.calls;
      faults = s.faults;
      bad_port = s.bad_port;
      asked = s.asked.items;
    } };

    ghost invariant = { λ s. (ports_differ s.doors.items ≡ true) × All (λ door. IsNewDoor door.1) s.doors.items };
}

impl MemDoors {
    ghost use Rattle.hsm_io.specs.MemoryForms.{is_listed};
    ghost use Rattle.hsm_io.specs.MemoryBench.{DoorsState, IsNewDoor, ports_differ, door_of, after_door};

    // These doors, of which the listed calls fail, numbered from 0.
    pub(crate) fn new(doors: Vec<(u16, MemDoor)>, bad_doors: Vec<u32>) -> MemDoors
        requires ports { ports_differ doors.items ≡ true }
        requires new_doors { All (λ door. IsNewDoor door.1) doors.items }
        ensures { result ≡ record {
          doors = doors.items;
          bad_doors = bad_doors.items;
          calls = 0;
          faults = 0;
          bad_port = 0;
          asked = [];
        } }
    {
        MemDoors {
            doors,
            bad_doors,
            calls: 0,
            faults: 0,
            bad_port: 0,
            asked: ArrayVec::new(),
        }
    }

    // The place of the door that a call gives, or none where it is to fail.
    fn place_of(&self, port: u16) -> Option<usize>
        ensures { result ≡ (if is_listed self.now.bad_doors self.now.calls then None
            else position (λ door. door.0 == port) self.now.doors) }
    {
        if names_call(&self.bad_doors, self.calls) {
            return None;
        }
        find_door(&self.doors, port)
    }

    // Moves the door of this port out.
    pub(crate) fn give(&mut self, port: u16) -> Option<MemDoor>
        requires { length self.old.asked < 65 }
        ensures small { self.old.faults < 2 ^ 64 }
        ensures ports { ports_differ self.old.doors ≡ true }
        ensures new_doors { All (λ door. IsNewDoor door.1) self.old.doors }
        ensures answer { result ≡ door_of self.old port }
        ensures after { self.new ≡ after_door self.old port result }
    {
        let found = self.place_of(port);
        self.calls = self.calls.saturating_add(1);
        self.asked.push(port);
        match found {
            Some(place) => {
                let (_, door) = self.doors.remove(place);
                Some(door)
            }
            None => {
                self.faults = self.faults.saturating_add(1);
                self.bad_port = port;
                None
            }
        }
    }
}

// The place of the first door of this port.
fn find_door(doors: &[(u16, MemDoor)], port: u16) -> Option<usize>
    ensures { result ≡ position (λ door. door.0 == port) doors.now }
{
    doors.iter().position(|door| door.0 == port)
}
