// Keys that a lane keeps from one connection to the next, and replies that leave together.
use crate::connections::{Case, serves};
use crate::lanes::{runs_alone, told};
use hsm_io::MemDoor;
use hsm_server::LaneEnd;
use hsm_session::ConnEnd;
use std::test::Fail;
use test_laboratory::Set;

// Under the test set: three frames that ask for the check value of one key, and their answers.
const THRICE: (&[u8], &[u8]) = (
    b"\x00\x190001BU0100432EB69FE765AC4\x00\x190001BU0100432EB69FE765AC4\
    \x00\x190001BU0100432EB69FE765AC4",
    b"\x00\x0E0001BV00D5D44F\x00\x0E0001BV00D5D44F\x00\x0E0001BV00D5D44F",
);

// The first of them alone.
const ONCE: (&[u8], &[u8]) = (
    b"\x00\x190001BU0100432EB69FE765AC4",
    b"\x00\x0E0001BV00D5D44F",
);

// Under set E1: a PIN block to be moved between two keys of one text, and its refusal.
const MOVED: (&[u8], &[u8]) = (
    b"\x00\x480001CC85E813540F0AB40585E813540F0AB40512D5D44FF720683D0D0101123456789012",
    b"\x00\x080001CD24",
);

// Ten frames under set E1, of 270 bytes, and their answers.
const TEN: (&[u8], &[u8]) = (
    b"\x00\x190001BU01085E813540F0AB405\x00\x190001BU01085E813540F0AB405\
    \x00\x190001BU01085E813540F0AB405\x00\x190001BU01085E813540F0AB405\
    \x00\x190001BU01085E813540F0AB405\x00\x190001BU01085E813540F0AB405\
    \x00\x190001BU01085E813540F0AB405\x00\x190001BU01085E813540F0AB405\
    \x00\x190001BU01085E813540F0AB405\x00\x190001BU01085E813540F0AB405",
    b"\x00\x0E0001BV00D5D44F\x00\x0E0001BV00D5D44F\x00\x0E0001BV00D5D44F\x00\x0E0001BV00D5D44F\x00\x0E0001BV00D5D44F\
    \x00\x0E0001BV00D5D44F\x00\x0E0001BV00D5D44F\x00\x0E0001BV00D5D44F\x00\x0E0001BV00D5D44F\x00\x0E0001BV00D5D44F",
);

// Whether a connection ended cleanly with so many messages and these answers, and its report counts so many keys found.
fn counts(end: &LaneEnd<MemDoor>, k: usize, messages: u64, written: &[u8], hits: u64) -> bool {
    let found = end.reports.get(k).map(|report| report.hits);
    told(end, k) == Some((ConnEnd::Clean, messages, written)) && found == Some(hits)
}

#[test]
fn keys_kept(rt: HostRuntime) -> Result<(), Fail> {
    let (end, _) = runs_alone(&rt, Set::T, &[THRICE.0, ONCE.0], &[], 9)?;
    assert!(rt; counts(&end, 0, 3, THRICE.1, 2));
    assert!(rt; counts(&end, 1, 1, ONCE.1, 3));
    Ok(())
}

#[test]
fn keys_of_one_text(rt: HostRuntime) -> Result<(), Fail> {
    let (end, _) = runs_alone(&rt, Set::E1, &[MOVED.0], &[], 9)?;
    assert!(rt; counts(&end, 0, 1, MOVED.1, 1));
    Ok(())
}

// Replies that belong together leave in one write: there is no second one to fail.
#[test]
fn ten_together(rt: HostRuntime) -> Result<(), Fail> {
    let ten = Case {
        input: TEN.0,
        chunk: 270,
        room: 160,
        bad_reads: &[],
        bad_writes: &[1],
        ended: ConnEnd::Clean,
        messages: 10,
        hits: 9,
        written: TEN.1,
    };
    serves(&rt, &ten)
}
