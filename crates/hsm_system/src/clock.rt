//! The system's clock.

ghost use Rattle.std.specs.Prelude.{◌≡◌, None};
ghost use Rattle.hsm_system.specs.Told.{seconds_of, moment_of};

use hsm_io::Clock;
use std::io;
use std::time::{SystemTime, UNIX_EPOCH};

/// The latest moment that the clock gives.
const LATEST: u64 = 1 << 40;

/// The seconds since the beginning of 1970, held to 2^40. It keeps the moment that it gave last, and gives it again where the system tells no time,
/// such as one before 1970.
#[derive(Drop)]
pub struct SystemClock<'a> {
    rt: &'a HostRuntime,
    last: u64,
}

impl<'a> SystemClock<'a> {
    /// A clock that gave no moment yet.
    pub fn new(rt: &'a HostRuntime) -> Self {
        SystemClock { rt, last: 0 }
    }
}

// The moment of the time that the system told, or the last one where it told none.
fn moment(told: io::Result<SystemTime>, last: u64) -> u64
    ensures { result ≡ moment_of told last }
{
    let seconds = match told {
        Ok(time) => seconds(time),
        Err(_) => last,
    };
    seconds.min(LATEST)
}

// The whole seconds from the beginning of 1970 to this time.
fn seconds(time: SystemTime) -> u64
    ensures { result ≡ seconds_of time }
{
    match time.duration_since(UNIX_EPOCH) {
        Ok(since) => since.as_secs(),
        Err(_) => unreachable!(),
    }
}

impl<'a> Clock for SystemClock<'a> {
    ghost last = { λ clock. clock.last };

    ghost to_come = { λ clock. None };

    fn now(&mut self) -> u64 {
        self.last = moment(SystemTime::now(self.rt), self.last);
        self.last
    }
}
