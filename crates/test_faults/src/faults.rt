// A small serving, in which each call of the outside fails in turn.
use hsm_program::Outcome;
use hsm_session::ConnEnd;
use std::alloc::{Alloc, Global};
use std::process::Abort;
use std::sync::Wait;
use std::test::Fail;
use std::thread::Threads;
use test_benches::{ANSWERED, ASKED, Over, PLAIN, Port, Setup, runs};

// The calls of one lane that fail: of its door's `next`, and of its connection the reads and the writes.
#[derive(Clone, Copy)]
struct Calls<'a> {
    nexts: &'a [u32],
    reads: &'a [u32],
    writes: &'a [u32],
}

const SOUND: Calls<'static> = Calls {
    nexts: &[],
    reads: &[],
    writes: &[],
};

// The calls that fail: the opening and the reads of the configuration, the call for a seed, the calls for doors, those of three lanes, and the writes of
// the output.
#[derive(Clone, Copy)]
struct Failing<'a> {
    files: &'a [u32],
    config_reads: &'a [u32],
    seeds: &'a [u32],
    doors: &'a [u32],
    console: Calls<'a>,
    host: Calls<'a>,
    other: Calls<'a>,
    lines: &'a [u32],
}

const NONE: Failing<'static> = Failing {
    files: &[],
    config_reads: &[],
    seeds: &[],
    doors: &[],
    console: SOUND,
    host: SOUND,
    other: SOUND,
    lines: &[],
};

fn port_of<'a>(port: u16, inputs: &'a [&'a [u8]], calls: Calls<'a>) -> Port<'a> {
    Port {
        port,
        inputs,
        bad_nexts: calls.nexts,
        bad_reads: calls.reads,
        bad_writes: calls.writes,
    }
}

// How the first connection of a lane ended, how many of its messages were booked, and what was written to it.
fn told(over: &Over, lane: usize) -> Option<(ConnEnd, u64, &[u8])> {
    let end = over.ended.lanes.get(lane)?;
    let report = end.reports.get(0)?;
    let link = end.door.taken().get(0)?;
    Some((report.ended, report.messages, link.written()))
}

// Serves a text of the console and a message of the first host with these failing calls. The status, the outcome and the output, then what the console's
// connection and the host's came to.
fn comes_to(
    rt: &(impl Abort + Alloc<A = Global> + Threads + Wait + Sync),
    failing: &Failing<'_>,
    ended: (u8, Outcome),
    output: &[u8],
    console: Option<(ConnEnd, u64, &[u8])>,
    host: Option<(ConnEnd, u64, &[u8])>,
) -> Result<(), Fail> {
    let texts: &[&[u8]] = &[b"\x00\x02VA"];
    let messages: &[&[u8]] = &[ASKED];
    let ports = [
        port_of(1500, texts, failing.console),
        port_of(1501, messages, failing.host),
        port_of(1502, &[], failing.other),
    ];
    let setup = Setup {
        config_reads: failing.config_reads,
        ports: &ports,
        bad_files: failing.files,
        bad_seeds: failing.seeds,
        bad_doors: failing.doors,
        ..PLAIN
    };
    let over = runs(rt, &["serve", "c"], &setup, failing.lines)?;
    assert_eq!(rt; (over.ended.status, over.ended.outcome), ended);
    assert_eq!(rt; over.out.bytes(), output);
    assert_eq!(rt; told(&over, 0), console);
    assert_eq!(rt; told(&over, 1), host);
    Ok(())
}

const LINES: &[u8] =
    b"lane 0: 1 connections, 1 messages\nlane 1: 1 connections, 1 messages\nlane 2: 0 connections, 0 messages\n";

// What the console's text is answered.
const LISTED: &[u8] = b"\x00\x04OK 0";

// Before the first lane starts.
#[test]
fn calls_of_the_bench(rt: HostRuntime) -> Result<(), Fail> {
    let file = (3, Outcome::FileFault);
    let failing = Failing {
        files: &[0],
        ..NONE
    };
    comes_to(&rt, &failing, file, b"".as_slice(), None, None)?;
    let failing = Failing {
        config_reads: &[0],
        ..NONE
    };
    comes_to(&rt, &failing, file, b"".as_slice(), None, None)?;
    let failing = Failing {
        config_reads: &[1],
        ..NONE
    };
    comes_to(&rt, &failing, file, b"".as_slice(), None, None)?;
    let seed = (3, Outcome::SeedFault);
    let failing = Failing {
        seeds: &[0],
        ..NONE
    };
    comes_to(&rt, &failing, seed, b"".as_slice(), None, None)?;
    for door in 0..3u32 {
        let doors = [door];
        let failing = Failing {
            doors: &doors,
            ..NONE
        };
        let listen = (3, Outcome::ListenFault(u64::from(door)));
        comes_to(&rt, &failing, listen, b"".as_slice(), None, None)?;
    }
    Ok(())
}

// Each lane serves on where another's call fails.
#[test]
fn calls_of_the_doors(rt: HostRuntime) -> Result<(), Fail> {
    let served = (7, Outcome::Served);
    let listed = Some((ConnEnd::Clean, 1, LISTED));
    let answered = Some((ConnEnd::Clean, 1, ANSWERED));
    let at_once = Calls {
        nexts: &[0],
        ..SOUND
    };
    let behind_one = Calls {
        nexts: &[1],
        ..SOUND
    };
    let failing = Failing {
        console: at_once,
        ..NONE
    };
    let lines =
        b"lane 0: 0 connections, 0 messages\nlane 1: 1 connections, 1 messages\nlane 2: 0 connections, 0 messages\n".as_slice();
    comes_to(&rt, &failing, served, lines, None, answered)?;
    let failing = Failing {
        console: behind_one,
        ..NONE
    };
    comes_to(&rt, &failing, served, LINES, listed, answered)?;
    let failing = Failing {
        host: at_once,
        ..NONE
    };
    let lines =
        b"lane 0: 1 connections, 1 messages\nlane 1: 0 connections, 0 messages\nlane 2: 0 connections, 0 messages\n".as_slice();
    comes_to(&rt, &failing, served, lines, listed, None)?;
    let failing = Failing {
        host: behind_one,
        ..NONE
    };
    comes_to(&rt, &failing, served, LINES, listed, answered)?;
    let failing = Failing {
        other: at_once,
        ..NONE
    };
    comes_to(&rt, &failing, served, LINES, listed, answered)
}

// A message that was read is booked, also where its answer can't be written.
#[test]
fn calls_of_the_connections(rt: HostRuntime) -> Result<(), Fail> {
    let served = (7, Outcome::Served);
    let listed = Some((ConnEnd::Clean, 1, LISTED));
    let answered = Some((ConnEnd::Clean, 1, ANSWERED));
    let unread = Some((ConnEnd::ReadFault, 0, b"".as_slice()));
    let unwritten = Some((ConnEnd::WriteFault, 1, b"".as_slice()));
    let first_read = Calls {
        reads: &[0],
        ..SOUND
    };
    let second_read = Calls {
        reads: &[1],
        ..SOUND
    };
    let first_write = Calls {
        writes: &[0],
        ..SOUND
    };
    let failing = Failing {
        console: first_read,
        ..NONE
    };
    let lines =
        b"lane 0: 1 connections, 0 messages\nlane 1: 1 connections, 1 messages\nlane 2: 0 connections, 0 messages\n".as_slice();
    comes_to(&rt, &failing, served, lines, unread, answered)?;
    let failing = Failing {
        console: second_read,
        ..NONE
    };
    let read_late = Some((ConnEnd::ReadFault, 1, LISTED));
    comes_to(&rt, &failing, served, LINES, read_late, answered)?;
    let failing = Failing {
        console: first_write,
        ..NONE
    };
    comes_to(&rt, &failing, served, LINES, unwritten, answered)?;
    let failing = Failing {
        host: first_read,
        ..NONE
    };
    let lines =
        b"lane 0: 1 connections, 1 messages\nlane 1: 1 connections, 0 messages\nlane 2: 0 connections, 0 messages\n".as_slice();
    comes_to(&rt, &failing, served, lines, listed, unread)?;
    let failing = Failing {
        host: second_read,
        ..NONE
    };
    let read_late = Some((ConnEnd::ReadFault, 1, ANSWERED));
    comes_to(&rt, &failing, served, LINES, listed, read_late)?;
    let failing = Failing {
        host: first_write,
        ..NONE
    };
    comes_to(&rt, &failing, served, LINES, listed, unwritten)
}

// The lanes were served, and the lines before the failing write stay.
#[test]
fn writes_of_the_output(rt: HostRuntime) -> Result<(), Fail> {
    let listed = Some((ConnEnd::Clean, 1, LISTED));
    let answered = Some((ConnEnd::Clean, 1, ANSWERED));
    let out = (3, Outcome::OutFault);
    for write in 0..3u32 {
        let writes = [write];
        let failing = Failing {
            lines: &writes,
            ..NONE
        };
        let output = &LINES[..34 * write as usize];
        comes_to(&rt, &failing, out, output, listed, answered)?;
    }
    Ok(())
}
