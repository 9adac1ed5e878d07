// Lanes over doors in memory, beside one another over one desk, under set E1.
ghost use Rattle.std.specs.Prelude.{◌≡◌, ◌≤◌, ◌<◌, ◌^◌, [], false, All, IfOk, OnOk, Some, None};
ghost use Rattle.hsm_io.specs.Connections.{Doorway};
ghost use Rattle.hsm_io.specs.MemoryLinks.{IsUntouched};
ghost use Rattle.hsm_server.specs.Lanes.{IsReady};

use arrayvec::ArrayVec;
use hsm_auth::Ledger;
use hsm_desk::{Desk, Pass};
use hsm_io::{Clock, Door, Gate, MemClock, MemDoor, MemLink, OpenGate};
use hsm_rows::Module;
use hsm_server::{HasState, Lane, LaneEnd, kind_for, run_lanes};
use hsm_session::{ConnEnd, least_message};
use std::alloc::{Alloc, AllocError, Global};
use std::process::Abort;
use std::sync::Wait;
use std::sync::atomic::{AtomicBool, Ordering};
use std::test::Fail;
use std::thread;
use std::thread::Threads;
use test_laboratory::{Set, module_of};

// How often a lane looks whether the other has booked.
const TURNS: u32 = 50_000_000;

// A frame with a sealed key whose check value is D5D44F.
const ASKED: &[u8] = b"\x00\x190001BU01085E813540F0AB405";

// Its answer.
const ANSWERED: &[u8] = b"\x00\x0E0001BV00D5D44F";

// A connection that will give these bytes, at most a chunk at each read, and fails the listed reads.
fn link_of(
    alloc: Global,
    input: &[u8],
    chunk: usize,
    bad_reads: &[u32],
) -> Result<MemLink, AllocError>
    requires { 0 < chunk }
    ensures { IfOk result IsUntouched }
{
    MemLink::new(
        alloc,
        input.to_vec(alloc)?,
        chunk,
        100,
        bad_reads.to_vec(alloc)?,
        Vec::new(alloc),
    )
}

// A door that gives a connection for each of these inputs, and fails the listed calls. Each connection gives at most a chunk at each read, and fails the listed
// reads.
pub(crate) fn door_of(
    alloc: Global,
    inputs: &[&[u8]],
    chunk: usize,
    bad_reads: &[u32],
    bad_nexts: &[u32],
) -> Result<MemDoor, AllocError>
    requires { 0 < chunk }
    ensures { IfOk result (λ door. (door.is_out ≡ false) × (door.taken ≡ [])) }
{
    let mut links = Vec::new(alloc);
    for input in inputs {
        links.push(link_of(alloc, input, chunk, bad_reads)?)?;
    }
    MemDoor::new(alloc, links, bad_nexts.to_vec(alloc)?)
}

pub(crate) fn clock_of(moments: &[u64; 2]) -> MemClock
    requires { All (λ m. m ≤ 2 ^ 40) moments.now }
{
    let mut list = ArrayVec::new();
    list.push(moments[0]);
    list.push(moments[1]);
    MemClock::new(list)
}

// Adds a lane that accepts so many connections.
pub(crate) fn add<D: Door + Send + Drop, C: Clock + Send + Drop, G: Gate + Send + Drop>(
    alloc: Global,
    module: &Module,
    desk: &Desk,
    lanes: &mut Vec<Lane<D, C, G>>,
    number: u32,
    accept: u16,
    pass: Pass,
    door: D,
    clock: C,
    gate: G,
) -> Result<(), Fail>
    requires pass { pass.desk ≡ desk.now }
    requires none_out { D.is_out door ≡ false }
    requires none_taken { (d : Doorway) → D.doorway door ≡ Some d → d.taken ≡ [] }
    requires ready { All (λ lane. IsReady «module».now desk.now (⟦<Lane<D, C, G> as HasState>⟧.state lane)) lanes.old.items }
    ensures ready { OnOk result (All (λ lane. IsReady «module».now desk.now (⟦<Lane<D, C, G> as HasState>⟧.state lane)) lanes.new.items) }
{
    let kind = kind_for(number);
    let least = least_message(module, kind);
    let Ok(lane) = Lane::new(alloc, number, least, accept, pass, door, clock, gate) else {
        return Err("no lane")?;
    };
    lanes.push(lane)?;
    Ok(())
}

// Runs the lanes.
pub(crate) fn run_all<R, D, C, G>(
    rt: &R,
    module: &Module,
    desk: &Desk,
    lanes: &mut Vec<Lane<D, C, G>>,
)
where
    R: Threads + Wait + Sync,
    D: Door + Send,
    C: Clock + Send,
    G: Gate + Send,
    requires ready { All (λ lane. IsReady «module».now desk.now (⟦<Lane<D, C, G> as HasState>⟧.state lane)) lanes.old.items }
    ensures desk { All (λ lane. lane.tools.pass.desk ≡ desk.now) lanes.new.items }
{
    run_lanes(rt, module, desk, lanes.as_mut_slice())
}

// Takes the last of the lanes apart, and joins its pass into the given one.
pub(crate) fn take_last<G: Gate + Send + Drop>(
    desk: &Desk,
    pass: &mut Pass,
    lanes: &mut Vec<Lane<MemDoor, MemClock, G>>,
) -> Option<LaneEnd<MemDoor>>
    requires mine { pass.old.desk ≡ desk.now }
    requires theirs { All (λ lane. lane.tools.pass.desk ≡ desk.now) lanes.old.items }
    ensures mine { pass.new.desk ≡ desk.now }
    ensures theirs { All (λ lane. lane.tools.pass.desk ≡ desk.now) lanes.new.items }
{
    let (own, end) = lanes.pop()?.end();
    desk.meet(pass, own);
    Some(end)
}

// Runs a lane of number 1 that accepts so many connections, over a door that gives one for each of these inputs and fails the
// listed calls. Gives what became of it, and how many messages were booked.
pub(crate) fn runs_alone(
    rt: &(impl Abort + Alloc<A = Global> + Threads + Wait + Sync),
    set: Set,
    inputs: &[&[u8]],
    bad_nexts: &[u32],
    accept: u16,
) -> Result<(LaneEnd<MemDoor>, u64), Fail> {
    let alloc = rt.alloc();
    let module = module_of(alloc, set, 1).ok_or("module")?;
    let (desk, mut pass) = Desk::new(alloc, Ledger::new(alloc)?)?;
    let own = desk.split(&mut pass);
    let door = door_of(alloc, inputs, 100, &[], bad_nexts)?;
    let mut lanes = Vec::new(alloc);
    let clock = clock_of(&[7, 8]);
    add(
        alloc, &module, &desk, &mut lanes, 1, accept, own, door, clock, OpenGate,
    )?;
    run_all(rt, &module, &desk, &mut lanes);
    let end = take_last(&desk, &mut pass, &mut lanes).ok_or("lane")?;
    Ok((end, desk.close(pass)))
}

// Over a door of three connections, each with one message: how many were served, how many messages were booked, and whether
// the door failed.
fn served(
    rt: &(impl Abort + Alloc<A = Global> + Threads + Wait + Sync),
    bad_nexts: &[u32],
    accept: u16,
) -> Result<(usize, u64, bool), Fail> {
    let (end, booked) = runs_alone(rt, Set::E1, &[ASKED, ASKED, ASKED], bad_nexts, accept)?;
    assert_eq!(rt; end.door.taken().len(), end.reports.len());
    Ok((end.reports.len(), booked, end.door_fault))
}

#[test]
fn doors(rt: HostRuntime) -> Result<(), Fail> {
    assert_eq!(rt; served(&rt, &[], 5)?, (3, 3, false));
    // The door fails at its second call, and is not asked again.
    assert_eq!(rt; served(&rt, &[1], 5)?, (1, 1, true));
    // It is not asked again behind the last connection that is accepted, nor behind its end.
    assert_eq!(rt; served(&rt, &[2], 2)?, (2, 2, false));
    assert_eq!(rt; served(&rt, &[4], 5)?, (3, 3, false));
    Ok(())
}

// A gate that, behind each booking, says so and waits until the other lane has said it too.
#[derive(Drop)]
struct Meeting<'a> {
    here: &'a AtomicBool,
    there: &'a AtomicBool,
    met: &'a AtomicBool,
}

impl<'a> Gate for Meeting<'a> {
    ghost calls = { λ gate. None };

    fn before_book(&mut self, _lane: u32, _message: u64) {}

    fn after_book(&mut self, _lane: u32, _message: u64) {
        self.here.store(true, Ordering::SeqCst);
        for _ in 0..TURNS {
            if self.there.load(Ordering::SeqCst) {
                self.met.store(true, Ordering::SeqCst);
                return;
            }
            thread::yield_now();
        }
    }
}

// Runs two lanes with these gates, each over one connection.
fn run_with_gates<'a>(
    rt: &(impl Abort + Alloc<A = Global> + Threads + Wait + Sync),
    first: Meeting<'a>,
    second: Meeting<'a>,
) -> Result<(), Fail> {
    let alloc = rt.alloc();
    let module = module_of(alloc, Set::E1, 2).ok_or("module")?;
    let (desk, mut one) = Desk::new(alloc, Ledger::new(alloc)?)?;
    let two = desk.split(&mut one);
    let mut lanes = Vec::new(alloc);
    let door = door_of(alloc, &[ASKED], 100, &[], &[])?;
    add(
        alloc,
        &module,
        &desk,
        &mut lanes,
        1,
        1,
        one,
        door,
        clock_of(&[7, 8]),
        first,
    )?;
    let door = door_of(alloc, &[ASKED], 100, &[], &[])?;
    add(
        alloc,
        &module,
        &desk,
        &mut lanes,
        2,
        1,
        two,
        door,
        clock_of(&[7, 8]),
        second,
    )?;
    run_all(rt, &module, &desk, &mut lanes);
    Ok(())
}

#[test]
fn lanes_run_beside_each_other(rt: HostRuntime) -> Result<(), Fail> {
    let booked = (AtomicBool::new(false), AtomicBool::new(false));
    let met = (AtomicBool::new(false), AtomicBool::new(false));
    let first = Meeting {
        here: &booked.0,
        there: &booked.1,
        met: &met.0,
    };
    let second = Meeting {
        here: &booked.1,
        there: &booked.0,
        met: &met.1,
    };
    run_with_gates(&rt, first, second)?;
    assert!(rt; met.0.load(Ordering::SeqCst) && met.1.load(Ordering::SeqCst));
    Ok(())
}

// How the first connections of a lane ended, how many of them there were, and what was written to each.
pub(crate) fn told(end: &LaneEnd<MemDoor>, k: usize) -> Option<(ConnEnd, u64, &[u8])> {
    let report = end.reports.get(k)?;
    let link = end.door.taken().get(k)?;
    Some((report.ended, report.messages, link.written()))
}

// The console, and a host whose first connection fails at its second read.
fn console_beside_host(
    rt: &(impl Abort + Alloc<A = Global> + Threads + Wait + Sync),
) -> Result<(), Fail> {
    let alloc = rt.alloc();
    let module = module_of(alloc, Set::E1, 1).ok_or("module")?;
    let (desk, mut pass) = Desk::new(alloc, Ledger::new(alloc)?)?;
    let console = desk.split(&mut pass);
    let host = desk.split(&mut pass);
    let mut lanes = Vec::new(alloc);
    let texts = b"\x00\x17A pin.clear 1 abc hello\x00\x02VA".as_slice();
    let door = door_of(alloc, &[texts], 100, &[], &[])?;
    add(
        alloc,
        &module,
        &desk,
        &mut lanes,
        0,
        9,
        console,
        door,
        clock_of(&[100, 160]),
        OpenGate,
    )?;
    let door = door_of(alloc, &[ASKED, b""], 100, &[1], &[])?;
    add(
        alloc,
        &module,
        &desk,
        &mut lanes,
        1,
        9,
        host,
        door,
        clock_of(&[7, 8]),
        OpenGate,
    )?;
    run_all(rt, &module, &desk, &mut lanes);
    let host = take_last(&desk, &mut pass, &mut lanes).ok_or("host")?;
    let console = take_last(&desk, &mut pass, &mut lanes).ok_or("console")?;
    assert_eq!(rt; desk.close(pass), 3);
    assert_eq!(rt;
        told(&console, 0),
        Some((ConnEnd::Clean, 2, b"\x00\x02OK\x00\x04OK 0".as_slice()))
    );
    assert_eq!(rt; told(&console, 1), None);
    assert_eq!(rt; told(&host, 0), Some((ConnEnd::ReadFault, 1, ANSWERED)));
    assert_eq!(rt; told(&host, 1), Some((ConnEnd::Clean, 0, b"".as_slice())));
    assert_eq!(rt; told(&host, 2), None);
    assert!(rt; !console.door_fault && !host.door_fault);
    Ok(())
}

#[test]
fn console_and_host(rt: HostRuntime) -> Result<(), Fail> {
    console_beside_host(&rt)
}
