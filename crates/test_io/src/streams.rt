// Sinks, links, doors and clocks in memory, each with calls that fail, and the tally.
ghost use Rattle.std.specs.Prelude.{◌≡◌, false, IfOk};
ghost use Rattle.hsm_io.specs.MemoryLinks.{IsUntouched};
ghost use Rattle.hsm_io.specs.MemoryBench.{IsNewDoor};

use arrayvec::ArrayVec;
use hsm_io::{
    Came, Clock, Door, Got, Link, MemClock, MemDoor, MemLink, MemSink, OutFailed, Put, Sink,
    write_all,
};
use hsm_tally::Tally;
use sha2::{Digest, Sha256};
use std::alloc::{AllocError, Global};
use std::test::Fail;

// Calls by what they answer alone. A room or a piece of no bytes is given to none.
fn written_to(out: &mut impl Sink, piece: &[u8]) -> Result<(), OutFailed> {
    write_all(out, piece)
}

fn read_of(link: &mut impl Link, room: &mut [u8]) -> Option<Got> {
    if room.is_empty() {
        return None;
    }
    Some(link.read(room))
}

fn write_of(link: &mut impl Link, piece: &[u8]) -> Option<Put> {
    if piece.is_empty() {
        return None;
    }
    Some(link.write(piece))
}

fn moment_of(clock: &mut impl Clock) -> u64 {
    clock.now()
}

#[test]
fn sink_takes_what_fits(rt: HostRuntime) -> Result<(), Fail> {
    let alloc = rt.alloc();
    let mut out = MemSink::new(alloc, 5, [1].to_vec(alloc)?)?;
    assert_eq!(rt; written_to(&mut out, b"abc"), Ok(()));
    assert_eq!(rt; written_to(&mut out, b"lost"), Err(OutFailed));
    assert_eq!(rt; written_to(&mut out, b"defg"), Err(OutFailed));
    assert_eq!(rt; out.bytes(), b"abcde".as_slice());
    Ok(())
}

#[test]
fn link_fails_the_listed_calls(rt: HostRuntime) -> Result<(), Fail> {
    let alloc = rt.alloc();
    let input = b"abcde".to_vec(alloc)?;
    let bad_reads = [1].to_vec(alloc)?;
    let bad_writes = [1].to_vec(alloc)?;
    let mut link = MemLink::new(alloc, input, 2, 5, bad_reads, bad_writes)?;
    // The size of the room that a read is offered, what it answers, and what then stands in the room.
    let reads: [(usize, Got, &[u8]); 5] = [
        (4, Got::Bytes(2), b"ab\0\0"),
        (4, Got::Failed, b"\0\0\0\0"),
        (1, Got::Bytes(1), b"c\0\0\0"),
        (4, Got::Bytes(2), b"de\0\0"),
        (4, Got::End, b"\0\0\0\0"),
    ];
    for (size, got, held) in reads {
        let mut room = [0u8; 4];
        assert_eq!(rt; read_of(&mut link, &mut room[..size.min(4)]), Some(got));
        assert_eq!(rt; room.as_slice(), held);
    }
    let writes: [(&[u8], Put); 4] = [
        (b"one", Put::Took(3)),
        (b"lost", Put::Failed),
        (b"two", Put::Took(2)),
        (b"full", Put::Failed),
    ];
    for (piece, put) in writes {
        assert_eq!(rt; write_of(&mut link, piece), Some(put));
    }
    assert_eq!(rt; link.written(), b"onetw".as_slice());
    Ok(())
}

// A link that gives these bytes and takes four.
fn link_of(alloc: Global, input: &[u8]) -> Result<MemLink, AllocError>
    ensures { IfOk result IsUntouched }
{
    let input = input.to_vec(alloc)?;
    MemLink::new(alloc, input, 1, 4, Vec::new(alloc), Vec::new(alloc))
}

// A door of two links, whose second call fails.
fn door_of(alloc: Global) -> Result<MemDoor, AllocError>
    ensures { IfOk result IsNewDoor }
{
    let mut links = Vec::new(alloc);
    links.push(link_of(alloc, b"a")?)?;
    links.push(link_of(alloc, b"")?)?;
    MemDoor::new(alloc, links, [1].to_vec(alloc)?)
}

// What came through a door: a link with what a read and a write of it answered, an end, or a failure.
#[derive(Clone, Copy, Debug, PartialEq, Eq)]
enum Through {
    Link(Option<Got>, Option<Put>),
    End,
    Failed,
}

// Takes what comes next, and gives a link back.
fn take_next(door: &mut MemDoor, piece: &[u8]) -> Through
    requires { door.old.is_out ≡ false }
    ensures { door.new.is_out ≡ false }
{
    match door.next() {
        Came::Link(mut link) => {
            let got = read_of(&mut link, &mut [0u8; 2]);
            let put = write_of(&mut link, piece);
            door.done(link);
            Through::Link(got, put)
        }
        Came::End => Through::End,
        Came::Failed => Through::Failed,
    }
}

#[test]
fn door_gives_its_links_and_takes_them_back(rt: HostRuntime) -> Result<(), Fail> {
    let mut door = door_of(rt.alloc())?;
    assert!(rt;
        take_next(&mut door, b"one") == Through::Link(Some(Got::Bytes(1)), Some(Put::Took(3)))
    );
    assert!(rt; take_next(&mut door, b"lost") == Through::Failed);
    assert!(rt; take_next(&mut door, b"two") == Through::Link(Some(Got::End), Some(Put::Took(3))));
    assert!(rt; take_next(&mut door, b"three") == Through::End);
    let [first, second] = door.taken() else {
        return Err("not two links")?;
    };
    assert_eq!(rt; first.written(), b"one".as_slice());
    assert_eq!(rt; second.written(), b"two".as_slice());
    Ok(())
}

#[test]
fn clock_gives_its_last_moment_again(rt: HostRuntime) -> Result<(), Fail> {
    let mut moments = ArrayVec::new();
    moments.push(7);
    moments.push(9);
    let mut clock = MemClock::new(moments);
    assert_eq!(rt; moment_of(&mut clock), 7);
    assert_eq!(rt; moment_of(&mut clock), 9);
    assert_eq!(rt; moment_of(&mut clock), 9);
    Ok(())
}

// An output, and how many of its lines are replies without an error and other replies.
#[derive(Clone, Copy)]
struct Counted {
    output: &'static [u8],
    ok: u64,
    other: u64,
}

const OUTPUTS: [Counted; 6] = [
    Counted {
        output: b"",
        ok: 0,
        other: 0,
    },
    // A frame whose error code is 00, and the line of the end.
    Counted {
        output: b"L1 001030303031423330303030303033303339\nEND 1\n",
        ok: 1,
        other: 0,
    },
    // The error code 68, a frame that is too short to have one, and a lane that was closed.
    Counted {
        output: b"L1 000830303031423336380000\nL1 3030\nL1 closed\n",
        ok: 0,
        other: 3,
    },
    // Another lane's frame is no reply, and neither is an empty line.
    Counted {
        output: b"L2 001030303031423330303030303033303339\n\nL\n",
        ok: 0,
        other: 0,
    },
    Counted {
        output: b"C OK\nC OK 1\nC ERR\nCC\n C OK\n",
        ok: 2,
        other: 2,
    },
    // The last line is not whole.
    Counted {
        output: b"C OK\nC OK",
        ok: 1,
        other: 0,
    },
];

// The output is written in two pieces, cut at each place.
#[test]
fn tally_counts_replies(rt: HostRuntime) -> Result<(), Fail> {
    for case in &OUTPUTS {
        for cut in 0..=case.output.len() {
            let mut tally = Tally::new();
            assert_eq!(rt; written_to(&mut tally, &case.output[..cut]), Ok(()));
            assert_eq!(rt; written_to(&mut tally, &case.output[cut..]), Ok(()));
            let totals = tally.end();
            assert_eq!(rt; totals.ok, case.ok);
            assert_eq!(rt; totals.other, case.other);
            assert_eq!(rt; totals.digest, Sha256::digest(case.output));
        }
    }
    Ok(())
}
