// A PIN in the clear that a lane is asked for while the console cancels the activity, under the test set.
ghost use Rattle.std.specs.Prelude.{◌≡◌, None};

use crate::lanes::{add, clock_of, door_of, run_all, take_last, told};
use hsm_auth::Ledger;
use hsm_desk::Desk;
use hsm_io::Gate;
use hsm_session::ConnEnd;
use std::alloc::{Alloc, Global};
use std::process::Abort;
use std::sync::Wait;
use std::sync::atomic::{AtomicBool, Ordering};
use std::test::Fail;
use std::thread;
use std::thread::Threads;
use test_laboratory::{Set, module_of};

// How often a lane looks whether the other has got on.
const TURNS: u32 = 50_000_000;

// The console's texts: two of them end with a read of five bytes.
const TEXTS: &[u8] = b"\x00\x17A pin.clear 0 abc hello\x00\x03C *\x00\x02VA";

// The PIN 4621 for the account 123456789012, asked for twice.
const ASKED: &[u8] =
    b"\x00\x220001NG123456789012FEB654057793C1C3\x00\x220001NG123456789012FEB654057793C1C3";

// How far the lanes have got, and whether one of them looked in vain.
#[derive(Drop)]
struct Progress {
    granted: AtomicBool,
    held: AtomicBool,
    cancelled: AtomicBool,
    in_vain: AtomicBool,
}

impl Progress {
    fn new() -> Progress {
        Progress {
            granted: AtomicBool::new(false),
            held: AtomicBool::new(false),
            cancelled: AtomicBool::new(false),
            in_vain: AtomicBool::new(false),
        }
    }

    fn look_for(&self, flag: &AtomicBool) {
        for _ in 0..TURNS {
            if flag.load(Ordering::SeqCst) {
                return;
            }
            thread::yield_now();
        }
        self.in_vain.store(true, Ordering::SeqCst);
    }

    // Holds the host until the console was answered that no activity lives any more.
    fn hold(&self) {
        self.held.store(true, Ordering::SeqCst);
        self.look_for(&self.cancelled);
    }
}

// Where the host is held.
#[derive(Clone, Copy, PartialEq, Eq)]
enum Place {
    BehindFirst,
    BeforeSecond,
}

// The gate of both lanes. The host asks once PINs may be shown, and is held behind the booking of its first message or before that of its second.
// The console cancels once the host is held. Its third text is prepared once the second was answered.
#[derive(Drop)]
struct Holding<'a> {
    progress: &'a Progress,
    place: Place,
}

impl<'a> Gate for Holding<'a> {
    ghost calls = { λ gate. None };

    fn before_book(&mut self, lane: u32, message: u64) {
        match (lane, message) {
            (0, 1) => self.progress.look_for(&self.progress.held),
            (0, 2) => self.progress.cancelled.store(true, Ordering::SeqCst),
            (1, 0) => self.progress.look_for(&self.progress.granted),
            (1, 1) if self.place == Place::BeforeSecond => self.progress.hold(),
            _ => {}
        }
    }

    fn after_book(&mut self, lane: u32, message: u64) {
        match (lane, message) {
            (0, 0) => self.progress.granted.store(true, Ordering::SeqCst),
            (1, 0) if self.place == Place::BehindFirst => self.progress.hold(),
            _ => {}
        }
    }
}

// The first message is answered with the PIN, the second is refused.
fn cancels_while_held(
    rt: &(impl Abort + Alloc<A = Global> + Threads + Wait + Sync),
    progress: &Progress,
    place: Place,
) -> Result<(), Fail> {
    let alloc = rt.alloc();
    let module = module_of(alloc, Set::T, 1).ok_or("module")?;
    let (desk, mut pass) = Desk::new(alloc, Ledger::new(alloc)?)?;
    let mut lanes = Vec::new(alloc);
    let own = desk.split(&mut pass);
    let door = door_of(alloc, &[TEXTS], 5, &[], &[])?;
    let clock = clock_of(&[7, 8]);
    let gate = Holding { progress, place };
    add(
        alloc, &module, &desk, &mut lanes, 0, 1, own, door, clock, gate,
    )?;
    let own = desk.split(&mut pass);
    let door = door_of(alloc, &[ASKED], 36, &[], &[])?;
    let clock = clock_of(&[7, 8]);
    let gate = Holding { progress, place };
    add(
        alloc, &module, &desk, &mut lanes, 1, 1, own, door, clock, gate,
    )?;
    run_all(rt, &module, &desk, &mut lanes);
    let host = take_last(&desk, &mut pass, &mut lanes).ok_or("host")?;
    let console = take_last(&desk, &mut pass, &mut lanes).ok_or("console")?;
    let texts = b"\x00\x02OK\x00\x04OK 1\x00\x04OK 0".as_slice();
    let answers = b"\x00\x140001NH004621FFFFFFFF\x00\x080001NH17".as_slice();
    assert_eq!(rt; told(&console, 0), Some((ConnEnd::Clean, 3, texts)));
    assert_eq!(rt; told(&host, 0), Some((ConnEnd::Clean, 2, answers)));
    assert_eq!(rt; desk.close(pass), 5);
    Ok(())
}

// What is asked before the gate's second call is booked by then: a cancellation that comes after it does not change its answer.
#[test]
fn held_behind_its_booking_and_shown_after_a_cancel(rt: HostRuntime) -> Result<(), Fail> {
    let progress = Progress::new();
    cancels_while_held(&rt, &progress, Place::BehindFirst)?;
    assert!(rt; !progress.in_vain.load(Ordering::SeqCst));
    Ok(())
}

// What is asked is not booked before the gate's first call comes back: a cancellation that comes before it changes its answer.
#[test]
fn held_before_its_booking_and_refused_after_a_cancel(rt: HostRuntime) -> Result<(), Fail> {
    let progress = Progress::new();
    cancels_while_held(&rt, &progress, Place::BeforeSecond)?;
    assert!(rt; !progress.in_vain.load(Ordering::SeqCst));
    Ok(())
}
