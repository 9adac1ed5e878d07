//! The loads that bench/desk times: `desk-one`, `desk-four`, `desk-many`, and the same by a lock, `mutex-one`,
//! `mutex-four` and `mutex-many`. Each prints the nanoseconds that its bookings took, and a number that its other work
//! came to. Without arguments it ends at once.
#![tactic(auto)]

mod desk_load;
mod mutex_load;

ghost use Rattle.std.specs.Prelude.{◌≡◌};
ghost use Rattle.hsm_auth.specs.History.{CanAsk};

use hsm_auth::{Ask, MAX_MOMENT, Needs};
use hsm_io::MemClock;
use std::time::Duration;
use std::{env, io};

// How many bookings a load makes in all.
const BOOKINGS: u32 = 200_000;

// How many threads the loads of four have.
const FOUR: usize = 4;

// How many threads the loads of many have.
const MANY: usize = 64;

// The rounds of other work that a thread of many does before each booking, about two microseconds.
const WORK: u32 = 1_200;

// What a load took, and what its other work came to.
#[derive(Drop)]
struct Load {
    took: Duration,
    sum: u64,
}

// What is asked: to draw four words.
fn drawing_ask() -> Ask
    ensures { CanAsk result }
{
    Ask::Use {
        needs: Needs::default(),
        words: 4,
    }
}

// A clock that stands still.
fn still_clock() -> MemClock {
    let mut moments = arrayvec::ArrayVec::new();
    moments.push(MAX_MOMENT);
    MemClock::new(moments)
}

// Work that has nothing to do with the desk.
fn other_work(seed: u64, rounds: u32) -> u64 {
    let mut sum = seed;
    for _ in 0..rounds {
        sum = sum.wrapping_mul(6_364_136_223_846_793_005).rotate_left(17) ^ 1;
    }
    sum
}

fn main(rt: HostRuntime) -> io::Result<()> {
    for word in env::args(&rt)?.skip(1) {
        let load: Load = match word.as_str() {
            "desk-one" => desk_load::one(&rt, rt.alloc())?,
            "desk-four" => desk_load::four(&rt, rt.alloc())?,
            "desk-many" => desk_load::many(&rt, rt.alloc())?,
            "mutex-one" => mutex_load::one(&rt, rt.alloc())?,
            "mutex-four" => mutex_load::four(&rt, rt.alloc())?,
            "mutex-many" => mutex_load::many(&rt, rt.alloc())?,
            _ => continue,
        };
        println!(rt; "{} {}", load.took.as_nanos(), load.sum)?;
    }
    Ok(())
}
