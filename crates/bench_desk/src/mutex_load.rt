//! The same entries by a lock around the ledger.
ghost use Rattle.std.specs.Prelude.{◌<◌};

use crate::{BOOKINGS, FOUR, Load, MANY, WORK, drawing_ask, other_work, still_clock};
use hsm_auth::{Granted, Ledger};
use hsm_io::{Clock as _, MemClock};
use std::alloc::Global;
use std::sync::{Mutex, Wait};
use std::thread::Threads;
use std::time::{Clock, Instant};
use std::{io, thread};

#[derive(Drop)]
struct Lane {
    clock: MemClock,
    sum: u64,
}

fn new_lane() -> Lane {
    Lane {
        clock: still_clock(),
        sum: 1,
    }
}

fn enter<R: Wait>(rt: &R, ledger: &Mutex<Ledger>, lane: &mut Lane, times: u32, work: u32) {
    let ask = drawing_ask();
    let mut granted = Granted::Refused;
    for _ in 0..times {
        lane.sum = other_work(lane.sum, work);
        let mut held = ledger.lock(rt);
        let moment = lane.clock.now();
        held.step_into(moment, &ask, &mut granted);
    }
}

fn run<R: Threads + Wait + Sync + Clock>(
    rt: &R,
    alloc: Global,
    lanes: &mut [Lane],
    threads: usize,
    each: u32,
    work: u32,
) -> io::Result<Load>
    requires { 0 < threads }
{
    let ledger = Mutex::new(Ledger::new(alloc)?);
    let start = Instant::now(rt)?;
    thread::for_each_mut(
        rt,
        lanes,
        threads,
        &|_, lane| {
            enter(rt, &ledger, lane, each, work);
        },
    );
    let took = start.elapsed(rt)?;
    let mut sum = 0_u64;
    for lane in lanes.iter() {
        sum = sum.wrapping_add(lane.sum);
    }
    Ok(Load { took, sum })
}

pub(crate) fn one<R: Wait + Clock>(rt: &R, alloc: Global) -> io::Result<Load> {
    let ledger = Mutex::new(Ledger::new(alloc)?);
    let mut lane = new_lane();
    let start = Instant::now(rt)?;
    enter(rt, &ledger, &mut lane, BOOKINGS, 0);
    Ok(Load {
        took: start.elapsed(rt)?,
        sum: lane.sum,
    })
}

pub(crate) fn four<R: Threads + Wait + Sync + Clock>(rt: &R, alloc: Global) -> io::Result<Load> {
    let mut lanes = [new_lane(), new_lane(), new_lane(), new_lane()];
    run(rt, alloc, &mut lanes, FOUR, BOOKINGS / 4, 0)
}

pub(crate) fn many<R: Threads + Wait + Sync + Clock>(rt: &R, alloc: Global) -> io::Result<Load> {
    let mut lanes = Vec::new(alloc);
    for _ in 0..MANY {
        lanes.push(new_lane())?;
    }
    run(rt, alloc, &mut lanes, MANY, BOOKINGS / 64, WORK)
}
