//! Bookings on one desk.
ghost use Rattle.std.specs.Prelude.{◌≡◌, ◌<◌, ◌≤◌, All, IfOk};
ghost use Rattle.hsm_desk.specs.Passes.{step};

use crate::{BOOKINGS, FOUR, Load, MANY, WORK, drawing_ask, other_work, still_clock};
use hsm_auth::Ledger;
use hsm_desk::{Booked, Desk, Pass};
use hsm_io::MemClock;
use std::alloc::{AllocError, Global};
use std::sync::Wait;
use std::thread::Threads;
use std::time::{Clock, Instant};
use std::{io, thread};

#[derive(Drop)]
struct Lane {
    pass: Pass,
    clock: MemClock,
    sum: u64,
}

fn lane_of(pass: Pass) -> Lane
    ensures { result.pass ≡ pass }
{
    Lane {
        pass,
        clock: still_clock(),
        sum: 1,
    }
}

fn book<R: Wait>(rt: &R, desk: &Desk, lane: &mut Lane, times: u32, work: u32)
    requires { lane.old.pass.desk ≡ desk.now }
    ensures { lane.new.pass.desk ≡ desk.now }
{
    let asks = [drawing_ask()];
    let mut booked = [Booked::nothing()];
    for _ in 0..times {
        lane.sum = other_work(lane.sum, work);
        desk.book_all(rt, &mut lane.pass, &mut lane.clock, &asks, &mut booked);
    }
}

pub(crate) fn one<R: Wait + Clock>(rt: &R, alloc: Global) -> io::Result<Load> {
    let (desk, pass) = Desk::new(alloc, Ledger::new(alloc)?)?;
    let mut lane = lane_of(pass);
    let start = Instant::now(rt)?;
    book(rt, &desk, &mut lane, BOOKINGS, 0);
    Ok(Load {
        took: start.elapsed(rt)?,
        sum: lane.sum,
    })
}

// Books in a thread of its own for each lane.
fn book_all<R: Threads + Wait + Sync>(
    rt: &R,
    desk: &Desk,
    lanes: &mut [Lane],
    threads: usize,
    each: u32,
    work: u32,
)
    requires threads { 0 < threads }
    requires desk { All (λ l. l.pass.desk ≡ desk.now) lanes.old }
{
    thread::for_each_mut(
        rt,
        lanes,
        threads,
        &|_, lane|
            requires { lane.now.pass.desk ≡ desk.now }
        { book(rt, desk, lane, each, work) },
    );
}

fn run<R: Threads + Wait + Sync + Clock>(
    rt: &R,
    desk: &Desk,
    lanes: &mut [Lane],
    threads: usize,
    each: u32,
    work: u32,
) -> io::Result<Load>
    requires threads { 0 < threads }
    requires desk { All (λ l. l.pass.desk ≡ desk.now) lanes.old }
{
    let start = Instant::now(rt)?;
    book_all(rt, desk, lanes, threads, each, work);
    let took = start.elapsed(rt)?;
    let mut sum = 0_u64;
    for lane in lanes.iter() {
        sum = sum.wrapping_add(lane.sum);
    }
    Ok(Load { took, sum })
}

pub(crate) fn four<R: Threads + Wait + Sync + Clock>(rt: &R, alloc: Global) -> io::Result<Load> {
    let (desk, mut first) = Desk::new(alloc, Ledger::new(alloc)?)?;
    let second = desk.split(&mut first);
    let third = desk.split(&mut first);
    let fourth = desk.split(&mut first);
    let mut lanes = [
        lane_of(first),
        lane_of(second),
        lane_of(third),
        lane_of(fourth),
    ];
    run(rt, &desk, &mut lanes, FOUR, BOOKINGS / 4, 0)
}

// Splits the pass 31 times, and adds a lane for each of the 32.
fn add_lanes(desk: &Desk, mut pass: Pass, lanes: &mut Vec<Lane>) -> Result<(), AllocError>
    requires pass { (pass.desk ≡ desk.now) × (step pass ≤ 2) }
    requires lanes { All (λ l. l.pass.desk ≡ desk.now) lanes.old.items }
    ensures { IfOk result (λ _. All (λ l. l.pass.desk ≡ desk.now) lanes.new.items) }
{
    let mut step: u64 = 2;
    while step < 1 << 32 {
        lanes.push(lane_of(desk.split(&mut pass)))?;
        step *= 2;
    }
    lanes.push(lane_of(pass))?;
    Ok(())
}

pub(crate) fn many<R: Threads + Wait + Sync + Clock>(rt: &R, alloc: Global) -> io::Result<Load> {
    let (desk, mut first) = Desk::new(alloc, Ledger::new(alloc)?)?;
    let second = desk.split(&mut first);
    let mut lanes = Vec::new(alloc);
    add_lanes(&desk, first, &mut lanes)?;
    add_lanes(&desk, second, &mut lanes)?;
    run(rt, &desk, &mut lanes, MANY, BOOKINGS / 64, WORK)
}
