// How much room the reads of a connection offer, and what was written before each of them.
ghost use Rattle.std.specs.Prelude.{◌≡◌, false, None};

use crate::connections::tools_of;
use arrayvec::ArrayVec;
use hsm_auth::{Ledger, Place};
use hsm_desk::Desk;
use hsm_io::{Got, Link, Put};
use hsm_session::{ConnEnd, serve_link};
use std::alloc::{Alloc, Global};
use std::process::Abort;
use std::sync::Wait;
use std::test::Fail;
use test_laboratory::{Set, module_of};

// A connection with one message of 65,535 bytes A. Each read fills what it is offered, and is noted.
#[derive(Drop)]
struct Noting {
    left: usize,
    offered: ArrayVec<usize, 32>,
    written: ArrayVec<u8, 32>,
}

impl Link for Noting {
    ghost traffic = { λ link. None };

    ghost faults = { λ link. 0 };

    ghost last_was_read = { λ link. false };

    fn read(&mut self, room: &mut [u8]) -> Got {
        let _ = self.offered.try_push(room.len());
        let count = self.left.min(room.len());
        if count == 0 {
            return Got::End;
        }
        room[..count].fill(b'A');
        if self.left == 65_537 && count > 2 {
            room[..2].copy_from_slice(&[0xFF, 0xFF]);
        }
        self.left -= count;
        Got::Bytes(count)
    }

    fn write(&mut self, piece: &[u8]) -> Put {
        let _ = self.written.try_extend_from_slice(piece);
        Put::Took(piece.len())
    }
}

fn offers(rt: &(impl Abort + Alloc<A = Global> + Wait)) -> Result<(), Fail> {
    let alloc = rt.alloc();
    let module = module_of(alloc, Set::E1, 1).ok_or("module")?;
    let (desk, pass) = Desk::new(alloc, Ledger::new(alloc)?)?;
    let mut tools = tools_of(alloc, &module, pass)?;
    let mut link = Noting {
        left: 65_537,
        offered: ArrayVec::new(),
        written: ArrayVec::new(),
    };
    let report = serve_link(rt, &module, &desk, Place::Host, &mut tools, &mut link);
    assert_eq!(rt; (report.ended, report.messages), (ConnEnd::Clean, 1));
    assert_eq!(rt; link.written.as_slice(), b"\x00\x08AAAAAB68".as_slice());
    // A frame takes 65,537 bytes at most, which is one more than 16 times 4,096.
    assert_eq!(rt; link.offered.len(), 18);
    for (place, size) in link.offered.iter().enumerate() {
        let wanted = if place == 16 { 1 } else { 4_096 };
        assert_eq!(rt; *size, wanted);
    }
    Ok(())
}

#[test]
fn rooms_offered(rt: HostRuntime) -> Result<(), Fail> {
    offers(&rt)
}

// Two frames that ask for the check value of a key, the second with the header 0002.
const FRAMES: [&[u8]; 2] = [
    b"\x00\x190001BU01085E813540F0AB405",
    b"\x00\x190002BU01085E813540F0AB405",
];

// The two answers.
const ANSWERS: &[u8] = b"\x00\x0E0001BV00D5D44F\x00\x0E0002BV00D5D44F";

// A connection on which each read gives one frame, and notes how many bytes were written before it.
#[derive(Drop)]
struct Asking {
    reads: usize,
    before: ArrayVec<usize, 4>,
    written: ArrayVec<u8, 64>,
}

impl Link for Asking {
    ghost traffic = { λ link. None };

    ghost faults = { λ link. 0 };

    ghost last_was_read = { λ link. false };

    fn read(&mut self, room: &mut [u8]) -> Got {
        let _ = self.before.try_push(self.written.len());
        let frame = match FRAMES.get(self.reads) {
            Some(frame) => *frame,
            None => return Got::End,
        };
        if room.len() < frame.len() || frame.len() == 0 {
            return Got::End;
        }
        self.reads += 1;
        room[..frame.len()].copy_from_slice(frame);
        Got::Bytes(frame.len())
    }

    fn write(&mut self, piece: &[u8]) -> Put {
        let _ = self.written.try_extend_from_slice(piece);
        Put::Took(piece.len())
    }
}

fn replies_first(rt: &(impl Abort + Alloc<A = Global> + Wait)) -> Result<(), Fail> {
    let alloc = rt.alloc();
    let module = module_of(alloc, Set::E1, 1).ok_or("module")?;
    let (desk, pass) = Desk::new(alloc, Ledger::new(alloc)?)?;
    let mut tools = tools_of(alloc, &module, pass)?;
    let mut link = Asking {
        reads: 0,
        before: ArrayVec::new(),
        written: ArrayVec::new(),
    };
    let report = serve_link(rt, &module, &desk, Place::Host, &mut tools, &mut link);
    assert_eq!(rt; (report.ended, report.messages), (ConnEnd::Clean, 2));
    assert_eq!(rt; link.written.as_slice(), ANSWERS);
    // Nothing before the first read, one reply of 16 bytes before the second, both before the last.
    assert_eq!(rt; link.before.as_slice(), [0, 16, 32].as_slice());
    Ok(())
}

#[test]
fn replies_before_reads(rt: HostRuntime) -> Result<(), Fail> {
    replies_first(&rt)
}
