// Lanes that are served: what is written to each connection, the line of each lane, and the status.
use hsm_program::Outcome;
use hsm_session::ConnEnd;
use std::alloc::{Alloc, Global};
use std::process::Abort;
use std::sync::Wait;
use std::test::Fail;
use std::thread::Threads;
use test_benches::{ANSWERED, ASKED, Over, PLAIN, Port, Setup, runs, sound};

// Two frames of ASKED, and the two answers.
const TWICE: &[u8] = b"\x00\x190001BU01085E813540F0AB405\x00\x190001BU01085E813540F0AB405";

const TWO: &[u8] = b"\x00\x0E0001BV00D5D44F\x00\x0E0001BV00D5D44F";

// The officers allow PINs in the clear for a minute, which is over at the next text.
const TEXTS: &[u8] = b"\x00\x17A pin.clear 1 abc hello\x00\x02VA";

const QUIET_LINES: &[u8] =
    b"lane 0: 0 connections, 0 messages\nlane 1: 0 connections, 0 messages\nlane 2: 0 connections, 0 messages\n";

// How a connection ended, how many of its messages were booked, and what was written to it.
fn told(over: &Over, lane: usize, connection: usize) -> Option<(ConnEnd, u64, &[u8])> {
    let end = over.ended.lanes.get(lane)?;
    let report = end.reports.get(connection)?;
    let link = end.door.taken().get(connection)?;
    Some((report.ended, report.messages, link.written()))
}

// How often a lane found a key that it keeps, by the end of this connection.
fn hits(over: &Over, lane: usize, connection: usize) -> Option<u64> {
    let end = over.ended.lanes.get(lane)?;
    Some(end.reports.get(connection)?.hits)
}

fn serves(
    rt: &(impl Abort + Alloc<A = Global> + Threads + Wait + Sync),
    ports: &[Port<'_>],
    status: u8,
    output: &[u8],
) -> Result<Over, Fail> {
    let setup = Setup { ports, ..PLAIN };
    let over = runs(rt, &["serve", "c"], &setup, &[])?;
    assert_eq!(rt;
        (over.ended.status, over.ended.outcome),
        (status, Outcome::Served)
    );
    assert_eq!(rt; over.out.bytes(), output);
    assert_eq!(rt; over.ended.lanes.len(), 3);
    assert!(rt; over.ended.pass.is_some());
    Ok(over)
}

// The texts of the console have the moments 100 and 160, where no lane books a second message.
#[test]
fn console_beside_hosts(rt: HostRuntime) -> Result<(), Fail> {
    let ports = [
        sound(1500, &[TEXTS, b"\x00\x01Q"]),
        sound(1501, &[ASKED]),
        sound(1502, &[]),
    ];
    let lines =
        b"lane 0: 2 connections, 3 messages\nlane 1: 1 connections, 1 messages\nlane 2: 0 connections, 0 messages\n";
    let over = serves(&rt, &ports, 0, lines)?;
    let clean = ConnEnd::Clean;
    assert_eq!(rt;
        told(&over, 0, 0),
        Some((clean, 2, b"\x00\x02OK\x00\x04OK 0".as_slice()))
    );
    assert_eq!(rt; told(&over, 1, 0), Some((clean, 1, ANSWERED)));
    assert_eq!(rt; told(&over, 1, 1), None);
    assert_eq!(rt; told(&over, 2, 0), None);
    Ok(())
}

// Neither the order of the doors in the bench matters, nor what other ports it has.
#[test]
fn hosts_of_several_connections(rt: HostRuntime) -> Result<(), Fail> {
    let ports = [
        sound(1502, &[TWICE, b"", ASKED]),
        sound(1503, &[ASKED]),
        sound(1501, &[ASKED]),
        sound(1500, &[]),
    ];
    let lines =
        b"lane 0: 0 connections, 0 messages\nlane 1: 1 connections, 1 messages\nlane 2: 3 connections, 3 messages\n";
    let over = serves(&rt, &ports, 0, lines)?;
    let clean = ConnEnd::Clean;
    assert_eq!(rt; told(&over, 1, 0), Some((clean, 1, ANSWERED)));
    assert_eq!(rt; told(&over, 2, 0), Some((clean, 2, TWO)));
    assert_eq!(rt; told(&over, 2, 1), Some((clean, 0, b"".as_slice())));
    assert_eq!(rt; told(&over, 2, 2), Some((clean, 1, ANSWERED)));
    assert!(rt; !over.ended.lanes.iter().any(|end| end.door_fault));
    // Each lane keeps the keys of its own messages, from one connection to the next.
    assert_eq!(rt; (hits(&over, 1, 0), hits(&over, 2, 0)), (Some(0), Some(1)));
    assert_eq!(rt; (hits(&over, 2, 1), hits(&over, 2, 2)), (Some(1), Some(2)));
    Ok(())
}

// One host, and one connection a lane, under the LMKs of the test laboratory.
const ONCE: &[u8] = br#"
version = 1
header = 4
officers = ["ba7816bf8f01cfea414140de5dae2223b00361a396177a9cb410ff61f20015ad",
            "2cf24dba5fb0a30e26e83b2ac5b9e29e1b161e5c1fa7425e73043362938b9824"]
console_port = 2
host_ports = [1]
accept = 1
lmk = "test"
"#;

#[test]
fn as_many_as_accepted(rt: HostRuntime) -> Result<(), Fail> {
    let echoed = [b"\x00\x0C0001B20002AB".as_slice(), b""];
    let texts = [b"\x00\x02VA".as_slice()];
    // A door is not asked for a connection behind the last that is accepted.
    let console = Port {
        bad_nexts: &[1],
        ..sound(2, &texts)
    };
    let ports = [sound(1, &echoed), console];
    let setup = Setup {
        config: ONCE,
        ports: &ports,
        ..PLAIN
    };
    let over = runs(&rt, &["serve", "c"], &setup, &[])?;
    assert_eq!(rt;
        (over.ended.status, over.ended.outcome),
        (0, Outcome::Served)
    );
    let lines =
        b"lane 0: 1 connections, 1 messages\nlane 1: 1 connections, 1 messages\n".as_slice();
    assert_eq!(rt; over.out.bytes(), lines);
    let clean = ConnEnd::Clean;
    assert_eq!(rt;
        told(&over, 0, 0),
        Some((clean, 1, b"\x00\x04OK 0".as_slice()))
    );
    assert_eq!(rt;
        told(&over, 1, 0),
        Some((clean, 1, b"\x00\x0A0001B300AB".as_slice()))
    );
    assert_eq!(rt; told(&over, 1, 1), None);
    Ok(())
}

const NONE: &[u8] =
    b"lane 0: 0 connections, 0 messages\nlane 1: 1 connections, 0 messages\nlane 2: 0 connections, 0 messages\n";

const ONE: &[u8] =
    b"lane 0: 0 connections, 0 messages\nlane 1: 1 connections, 1 messages\nlane 2: 0 connections, 0 messages\n";

const BOTH: &[u8] =
    b"lane 0: 0 connections, 0 messages\nlane 1: 1 connections, 2 messages\nlane 2: 0 connections, 0 messages\n";

// What the console's port and two hosts' come to: the status, the lines, how the first connection of lane 1 ended where there is one, and whether its door failed.
fn first_ends(
    rt: &(impl Abort + Alloc<A = Global> + Threads + Wait + Sync),
    ports: &[Port<'_>],
    status: u8,
    lines: &[u8],
    ended: Option<(ConnEnd, u64, &[u8])>,
    door_fault: bool,
) -> Result<(), Fail> {
    let over = serves(rt, ports, status, lines)?;
    assert_eq!(rt; told(&over, 1, 0), ended);
    let end = over.ended.lanes.get(1).ok_or("lane")?;
    assert_eq!(rt; end.door_fault, door_fault);
    Ok(())
}

// The ports of a console and two hosts, of which the first has these connections.
fn beside<'a>(first: Port<'a>) -> [Port<'a>; 3] {
    [sound(1500, &[]), first, sound(1502, &[])]
}

#[test]
fn early_ends(rt: HostRuntime) -> Result<(), Fail> {
    let clean = Some((ConnEnd::Clean, 2, TWO));
    first_ends(&rt, &beside(sound(1501, &[TWICE])), 0, BOTH, clean, false)?;
    // The input ends within the frame.
    let cut = Some((ConnEnd::Cut, 0, b"".as_slice()));
    let inputs: &[&[u8]] = &[b"\x00\x190001BU01085E813540F0AB40"];
    first_ends(&rt, &beside(sound(1501, inputs)), 6, NONE, cut, false)?;
    // A length below the least ends the connection behind the answer.
    let short = Some((ConnEnd::Short(5), 1, ANSWERED));
    let inputs: &[&[u8]] = &[b"\x00\x190001BU01085E813540F0AB405\x00\x050001B"];
    first_ends(&rt, &beside(sound(1501, inputs)), 6, ONE, short, false)?;
    // A failed call tells more than an input that ends early, in whichever lane it stands.
    let inputs: &[&[u8]] = &[b"\x00"];
    let failing = Port {
        bad_nexts: &[0],
        ..sound(1502, &[])
    };
    let ports = [sound(1500, &[]), sound(1501, inputs), failing];
    first_ends(&rt, &ports, 7, NONE, cut, false)
}

#[test]
fn failing_calls(rt: HostRuntime) -> Result<(), Fail> {
    // The first read.
    let host = Port {
        bad_reads: &[0],
        ..sound(1501, &[TWICE])
    };
    let unread = Some((ConnEnd::ReadFault, 0, b"".as_slice()));
    first_ends(&rt, &beside(host), 7, NONE, unread, false)?;
    // The second read: what came before is answered.
    let host = Port {
        bad_reads: &[1],
        ..sound(1501, &[TWICE])
    };
    let answered = Some((ConnEnd::ReadFault, 2, TWO));
    first_ends(&rt, &beside(host), 7, BOTH, answered, false)?;
    // The first write: both messages were booked.
    let host = Port {
        bad_writes: &[0],
        ..sound(1501, &[TWICE])
    };
    let unwritten = Some((ConnEnd::WriteFault, 2, b"".as_slice()));
    first_ends(&rt, &beside(host), 7, BOTH, unwritten, false)
}

#[test]
fn failing_doors(rt: HostRuntime) -> Result<(), Fail> {
    // At once.
    let host = Port {
        bad_nexts: &[0],
        ..sound(1501, &[TWICE])
    };
    first_ends(&rt, &beside(host), 7, QUIET_LINES, None, true)?;
    // Behind the first of three connections: it is not asked again.
    let host = Port {
        bad_nexts: &[1],
        ..sound(1501, &[TWICE, ASKED, ASKED])
    };
    let clean = Some((ConnEnd::Clean, 2, TWO));
    first_ends(&rt, &beside(host), 7, BOTH, clean, true)?;
    // It is not asked again behind its end.
    let host = Port {
        bad_nexts: &[2],
        ..sound(1501, &[TWICE])
    };
    first_ends(&rt, &beside(host), 0, BOTH, clean, false)
}

// The console's connections are looked at like those of the hosts.
#[test]
fn console_cut(rt: HostRuntime) -> Result<(), Fail> {
    let ports = [
        sound(1500, &[b"\x00\x02V"]),
        sound(1501, &[]),
        sound(1502, &[]),
    ];
    let lines =
        b"lane 0: 1 connections, 0 messages\nlane 1: 0 connections, 0 messages\nlane 2: 0 connections, 0 messages\n";
    let over = serves(&rt, &ports, 6, lines)?;
    assert_eq!(rt; told(&over, 0, 0), Some((ConnEnd::Cut, 0, b"".as_slice())));
    Ok(())
}

// Serving that cannot write its lines keeps its lanes and the pass.
#[test]
fn lines_not_written(rt: HostRuntime) -> Result<(), Fail> {
    let cases: [(u32, &[u8]); 3] = [
        (0, b""),
        (1, b"lane 0: 0 connections, 0 messages\n"),
        (
            2,
            b"lane 0: 0 connections, 0 messages\nlane 1: 1 connections, 2 messages\n",
        ),
    ];
    let failing = Port {
        bad_nexts: &[0],
        ..sound(1502, &[])
    };
    let ports = [sound(1500, &[]), sound(1501, &[TWICE]), failing];
    let setup = Setup {
        ports: &ports,
        ..PLAIN
    };
    for (write, output) in cases {
        let over = runs(&rt, &["serve", "c"], &setup, &[write])?;
        assert_eq!(rt;
            (over.ended.status, over.ended.outcome),
            (3, Outcome::OutFault)
        );
        assert_eq!(rt; over.out.bytes(), output);
        assert_eq!(rt; over.ended.lanes.len(), 3);
        assert!(rt; over.ended.pass.is_some());
        assert_eq!(rt; told(&over, 1, 0), Some((ConnEnd::Clean, 2, TWO)));
    }
    Ok(())
}
