// A clock in memory.
ghost use Rattle.std.specs.Prelude.{◌≡◌, ◌≤◌, ◌<◌, ◌^◌, ℕ, List, length, All, Some};
ghost use Rattle.hsm_io.specs.Moments.{tick, after_now};

use crate::Clock;
use arrayvec::ArrayVec;
use std::marker::Model;

/// A clock that gives its moments in order, and then the last again.
#[derive(Drop)]
pub struct MemClock {
    moments: ArrayVec<u64, 16>,
    // The place of the next moment.
    at: usize,
    last: u64,
}

impl Model for MemClock {
    ghost use Rattle.std.specs.Prelude.{◌<◌, ◌≤◌, ◌^◌, length, drop, All};
    ghost use Rattle.hsm_io.specs.MemoryForms.{ClockState};

    ghost Value = { ClockState };

    ghost view = { λ s. record { last = s.last; to_come = drop s.at s.moments.items } };

    ghost invariant = { λ s. (s.at < length s.moments.items) × All (λ m. m ≤ 2 ^ 40) s.moments.items };
}

impl MemClock {
    /// A clock with these moments to come. The last that it gave is 0 before its first call.
    pub fn new(moments: ArrayVec<u64, 16>) -> MemClock
        requires some { 0 < length moments.items }
        requires limit { All (λ m. m ≤ 2 ^ 40) moments.items }
        ensures { result ≡ record { last = 0; to_come = moments.items } }
    {
        MemClock {
            moments,
            at: 0,
            last: 0,
        }
    }
}

impl Clock for MemClock {
    ghost last = { λ clock. clock.last };

    ghost to_come = { λ clock. Some clock.to_come };

    fn now(&mut self) -> u64 {
        self.last = self.moments[self.at];
        if self.at + 1 < self.moments.len() {
            self.at += 1;
        }
        self.last
    }
}
