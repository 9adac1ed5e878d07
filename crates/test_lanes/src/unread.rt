// A client that does not read its replies, beside another one, over the gate of the program, under set E1.
ghost use Rattle.std.specs.Prelude.{◌≡◌, false, None, All, IfOk, IfSome};

use crate::lanes::{add, clock_of, run_all};
use hsm_auth::Ledger;
use hsm_desk::Desk;
use hsm_io::{Came, Door, Got, Link, OpenGate, Put};
use hsm_session::ConnEnd;
use std::alloc::{Alloc, AllocError, Global};
use std::process::Abort;
use std::sync::Wait;
use std::sync::atomic::{AtomicBool, Ordering};
use std::test::Fail;
use std::thread;
use std::thread::Threads;
use test_laboratory::{Set, module_of};

// How often a client looks whether the other has got on.
const TURNS: u32 = 50_000_000;

// How far the lanes have got, and whether a client looked in vain.
#[derive(Drop)]
struct Progress {
    writing: AtomicBool,
    answered: AtomicBool,
    in_vain: AtomicBool,
}

impl Progress {
    fn new() -> Progress {
        Progress {
            writing: AtomicBool::new(false),
            answered: AtomicBool::new(false),
            in_vain: AtomicBool::new(false),
        }
    }

    fn look_for(&self, flag: &AtomicBool) {
        for _ in 0..TURNS {
            if flag.load(Ordering::SeqCst) {
                return;
            }
            thread::yield_now();
        }
        self.in_vain.store(true, Ordering::SeqCst);
    }
}

// A connection that gives these bytes, as many at each read as are asked for. A slow one takes nothing until the other lane was answered; the other one gives nothing
// until the slow one is written to.
#[derive(Drop)]
struct Client<'a> {
    progress: &'a Progress,
    slow: bool,
    input: Vec<u8>,
    at: usize,
    written: usize,
}

impl<'a> Link for Client<'a> {
    ghost traffic = { λ link. None };

    ghost faults = { λ link. 0 };

    ghost last_was_read = { λ link. false };

    fn read(&mut self, room: &mut [u8]) -> Got {
        if !self.slow {
            self.progress.look_for(&self.progress.writing);
        }
        let Some(rest) = self.input.get(self.at..) else {
            return Got::End;
        };
        let count = rest.len().min(room.len());
        if count == 0 {
            return Got::End;
        }
        room[..count].copy_from_slice(&rest[..count]);
        self.at = self.at.saturating_add(count);
        Got::Bytes(count)
    }

    fn write(&mut self, piece: &[u8]) -> Put {
        if self.slow {
            self.progress.writing.store(true, Ordering::SeqCst);
            self.progress.look_for(&self.progress.answered);
        } else {
            self.progress.answered.store(true, Ordering::SeqCst);
        }
        self.written = self.written.saturating_add(piece.len());
        Put::Took(piece.len())
    }
}

// A door that gives one connection, and keeps it when it is taken back.
#[derive(Drop)]
struct OneDoor<'a> {
    to_come: Option<Client<'a>>,
    is_out: bool,
    taken: Option<Client<'a>>,
}

impl<'a> Door for OneDoor<'a> {
    type Link = Client<'a>;

    ghost doorway = { λ door. None };

    ghost faults = { λ door. 0 };

    ghost is_out = { λ door. door.is_out };

    ghost broken = { λ door. 0 };

    fn next(&mut self) -> Came<Client<'a>> {
        match self.to_come.take() {
            Some(client) => {
                self.is_out = true;
                Came::Link(client)
            }
            None => Came::End,
        }
    }

    fn done(&mut self, client: Client<'a>) {
        self.is_out = false;
        self.taken = Some(client);
    }
}

fn door_of<'a>(progress: &'a Progress, slow: bool, input: Vec<u8>) -> OneDoor<'a>
    ensures { result.is_out ≡ false }
{
    let client = Client {
        progress,
        slow,
        input,
        at: 0,
        written: 0,
    };
    OneDoor {
        to_come: Some(client),
        is_out: false,
        taken: None,
    }
}

// A frame of 65,100 bytes A that are to be echoed, and 15 frames that ask for the check of the LMKs: all of them are held once the last piece came. Of their answers the
// echo and 12 checks are gathered in 65,530 bytes, and the next one does not fit.
fn long_input(alloc: Global) -> Result<Vec<u8>, AllocError> {
    let mut input = b"\xFE\x560001B2FE4C".to_vec(alloc)?;
    for _ in 0..651 {
        input.extend_from_slice(&[b'A'; 100])?;
    }
    for _ in 0..15 {
        input.extend_from_slice(b"\x00\x060001NC")?;
    }
    Ok(input)
}

// How a lane's connection ended, how many messages it had, and how many bytes were written to it.
fn end_of(
    lanes: &mut Vec<hsm_server::Lane<OneDoor<'_>, hsm_io::MemClock, OpenGate>>,
) -> Option<(ConnEnd, u64, usize)> {
    let (_, end) = lanes.pop()?.end();
    let report = end.reports.first()?;
    let client = end.door.taken.as_ref()?;
    Some((report.ended, report.messages, client.written))
}

fn beside_a_slow_client(
    rt: &(impl Abort + Alloc<A = Global> + Threads + Wait + Sync),
    progress: &Progress,
) -> Result<(), Fail> {
    let alloc = rt.alloc();
    let module = module_of(alloc, Set::E1, 2).ok_or("module")?;
    let (desk, mut one) = Desk::new(alloc, Ledger::new(alloc)?)?;
    let two = desk.split(&mut one);
    let mut lanes = Vec::new(alloc);
    let door = door_of(progress, true, long_input(alloc)?);
    let clock = clock_of(&[7, 8]);
    add(
        alloc, &module, &desk, &mut lanes, 1, 1, one, door, clock, OpenGate,
    )?;
    let input = b"\x00\x060001NC".to_vec(alloc)?;
    let door = door_of(progress, false, input);
    let clock = clock_of(&[7, 8]);
    add(
        alloc, &module, &desk, &mut lanes, 2, 1, two, door, clock, OpenGate,
    )?;
    run_all(rt, &module, &desk, &mut lanes);
    assert_eq!(rt; end_of(&mut lanes), Some((ConnEnd::Clean, 1, 35)));
    assert_eq!(rt; end_of(&mut lanes), Some((ConnEnd::Clean, 16, 65_635)));
    Ok(())
}

#[test]
fn a_client_that_does_not_read_holds_up_no_other(rt: HostRuntime) -> Result<(), Fail> {
    let progress = Progress::new();
    beside_a_slow_client(&rt, &progress)?;
    assert!(rt; !progress.in_vain.load(Ordering::SeqCst));
    Ok(())
}
