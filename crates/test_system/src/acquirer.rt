// Two hosts and the console over sockets, of which the first host is held until the second was answered; then an acquirer's day of the first.
// model/socket_rows.py computes the messages.
ghost use Rattle.std.specs.Prelude.{None, All};
ghost use Rattle.std.specs.Thread.{IsSync};
ghost use Rattle.hsm_server.specs.Lanes.{IsReady, lane_state};

use crate::adapters::{SET_T, any_door};
use crate::connections::{add, module_of, run_all};
use hsm_auth::Ledger;
use hsm_desk::Desk;
use hsm_io::{Clock, Door, Gate};
use hsm_rows::Module;
use hsm_server::Lane;
use hsm_session::ConnEnd;
use hsm_system::SystemClock;
use std::alloc::Global;
use std::io::{Read, Write};
use std::net::TcpStream;
use std::process::Abort;
use std::sync::Wait;
use std::sync::atomic::{AtomicBool, Ordering};
use std::test::Fail;
use std::thread::Threads;
use std::time::Duration;
use std::{io, thread};

// How often a lane or a client looks whether another has got on.
const TURNS: u32 = 8_000;

// How far the lanes and the clients have got, and whether one of them looked in vain.
#[derive(Drop)]
struct Progress {
    booked: AtomicBool,
    answered: AtomicBool,
    asked_again: AtomicBool,
    answered_again: AtomicBool,
    in_vain: AtomicBool,
}

impl Progress {
    fn new() -> Progress {
        Progress {
            booked: AtomicBool::new(false),
            answered: AtomicBool::new(false),
            asked_again: AtomicBool::new(false),
            answered_again: AtomicBool::new(false),
            in_vain: AtomicBool::new(false),
        }
    }

    // A gate that tells and looks here.
    fn gate<'a>(&'a self, rt: &'a HostRuntime) -> Holding<'a> {
        Holding { rt, progress: self }
    }

    // Looks for a flag, a millisecond each turn.
    fn look_for(&self, rt: &HostRuntime, flag: &AtomicBool) {
        for _ in 0..TURNS {
            if flag.load(Ordering::SeqCst) {
                return;
            }
            thread::sleep(rt, Duration::from_millis(1));
        }
        self.in_vain.store(true, Ordering::SeqCst);
    }
}

// A gate that holds lane 1 behind the booking of its first message until lane 2 was answered, and before that of its second until lane 2 was answered again.
#[derive(Drop)]
struct Holding<'a> {
    rt: &'a HostRuntime,
    progress: &'a Progress,
}

impl<'a> Gate for Holding<'a> {
    ghost calls = { λ gate. None };

    fn before_book(&mut self, lane: u32, message: u64) {
        if lane == 1 && message == 1 {
            self.progress.asked_again.store(true, Ordering::SeqCst);
            self.progress
                .look_for(self.rt, &self.progress.answered_again);
        }
    }

    fn after_book(&mut self, lane: u32, message: u64) {
        if lane == 1 && message == 0 {
            self.progress.booked.store(true, Ordering::SeqCst);
            self.progress.look_for(self.rt, &self.progress.answered);
        }
    }
}

// Sends a message of at most 1,000 bytes, and gives its reply.
fn ask(rt: &HostRuntime, stream: &mut TcpStream, message: &[u8]) -> io::Result<Vec<u8>> {
    let mut frame = Vec::new(rt.alloc());
    let length = message.len().min(1_000) as u16;
    frame.extend_from_slice(&length.to_be_bytes())?;
    frame.extend_from_slice(message)?;
    stream.write_all(&frame)?;
    let mut size = [0; 2];
    stream.read_exact(&mut size)?;
    let mut reply = vec![in rt.alloc(); 0u8; usize::from(u16::from_be_bytes(size))]?;
    stream.read_exact(&mut reply)?;
    Ok(reply)
}

// The message whose parts these are.
fn joined(alloc: Global, parts: &[&[u8]]) -> io::Result<Vec<u8>> {
    let mut message = Vec::new(alloc);
    for part in parts {
        message.extend_from_slice(part)?;
    }
    Ok(message)
}

#[rattlefmt::skip]
const PURCHASE: &[u8] = b"0001M600032008UE1A5AE053DF672D5C4FAE33267B83F0400C8\
    ABCDEFGHIJKLMNOPQRSTUVWXYABCDEFGHIJKLMNOPQRSTUVWXYABCDEFGHIJKLMNOPQRSTUVWXYABCDEFGHIJKLMNOPQRSTUVWXY\
    ABCDEFGHIJKLMNOPQRSTUVWXYABCDEFGHIJKLMNOPQRSTUVWXYABCDEFGHIJKLMNOPQRSTUVWXYABCDEFGHIJKLMNOPQRSTUVWXY";

// The replies to the first host: to two checks of the LMKs, to the drawing of a ZPK that is exported, to a block that is translated to it and to its verification,
// and to the purchase.
fn first_host(rt: &HostRuntime, port: u16) -> io::Result<Vec<Vec<u8>>> {
    let alloc = rt.alloc();
    let mut stream = TcpStream::connect(rt, ("127.0.0.1", port))?;
    let mut replies = Vec::new(alloc);
    replies.push(ask(rt, &mut stream, b"0001NC")?)?;
    replies.push(ask(rt, &mut stream, b"0001NC")?)?;
    let drawn = ask(
        rt,
        &mut stream,
        b"0001A01001U;0U9F9A79DCD106B37584C5D3D3C418F4AEX",
    )?;
    let zpk = drawn.get(8..41).unwrap_or(b"");
    let message = joined(
        alloc,
        &[
            b"0001CAD28DDC6EABBD41CE",
            zpk,
            b"12383E3F5E617278810101123456789012",
        ],
    )?;
    let translated = ask(rt, &mut stream, &message)?;
    let block = translated.get(10..26).unwrap_or(b"");
    let message = joined(
        alloc,
        &[
            b"0001EC",
            zpk,
            b"U32098F004A5488DBFBECB411DC94FF89",
            block,
            b"0112345678901212504",
        ],
    )?;
    let verified = ask(rt, &mut stream, &message)?;
    replies.push(drawn)?;
    replies.push(translated)?;
    replies.push(verified)?;
    replies.push(ask(rt, &mut stream, PURCHASE)?)?;
    Ok(replies)
}

// The replies to the second host, which asks once lane 1 has booked, and again once lane 1 is to book again.
fn second_host(rt: &HostRuntime, port: u16, progress: &Progress) -> io::Result<Vec<Vec<u8>>> {
    let mut stream = TcpStream::connect(rt, ("127.0.0.1", port))?;
    let mut replies = Vec::new(rt.alloc());
    progress.look_for(rt, &progress.booked);
    replies.push(ask(rt, &mut stream, b"0001NC")?)?;
    progress.answered.store(true, Ordering::SeqCst);
    progress.look_for(rt, &progress.asked_again);
    replies.push(ask(rt, &mut stream, b"0001NC")?)?;
    progress.answered_again.store(true, Ordering::SeqCst);
    Ok(replies)
}

// The replies to the console.
fn console(rt: &HostRuntime, port: u16) -> io::Result<Vec<Vec<u8>>> {
    let mut stream = TcpStream::connect(rt, ("127.0.0.1", port))?;
    let mut replies = Vec::new(rt.alloc());
    replies.push(ask(rt, &mut stream, b"A pin.clear 0 abc hello")?)?;
    replies.push(ask(rt, &mut stream, b"VA")?)?;
    Ok(replies)
}

// What the clients were replied: the console, the first host and the second.
#[derive(Drop)]
struct Replies {
    console: io::Result<Vec<Vec<u8>>>,
    first: io::Result<Vec<Vec<u8>>>,
    second: io::Result<Vec<Vec<u8>>>,
}

// Lets the three clients ask beside one another, at these ports.
fn ask_all<R: Threads + Sync>(
    runtime: &R,
    rt: &HostRuntime,
    ports: [u16; 3],
    progress: &Progress,
) -> Replies {
    let ((console, first), second) = thread::join(
        runtime,
        || {
            thread::join(
                runtime,
                || console(rt, ports[0]),
                || first_host(rt, ports[1]),
            )
        },
        || second_host(rt, ports[2], progress),
    );
    Replies {
        console,
        first,
        second,
    }
}

// Runs the lanes beside their clients.
fn run_beside<R, D, C, G>(
    runtime: &R,
    rt: &HostRuntime,
    module: &Module,
    desk: &Desk,
    lanes: &mut Vec<Lane<D, C, G>>,
    ports: [u16; 3],
    progress: &Progress,
) -> Replies
where
    R: Threads + Wait + Sync,
    D: Door + Send,
    C: Clock + Send,
    G: Gate + Send,
    requires ready { All (λ lane. IsReady «module».now desk.now (lane_state D.doorway D.faults D.broken D.is_out C.last C.to_come G.calls lane)) lanes.old.items }
{
    let (replies, _) = thread::join(
        runtime,
        || ask_all(runtime, rt, ports, progress),
        ||
            requires { IsSync R.row × All (λ lane. IsReady «module».now desk.now (lane_state D.doorway D.faults D.broken D.is_out C.last C.to_come G.calls lane)) lanes.now.items }
        { run_all(runtime, module, desk, lanes) },
    );
    replies
}

// The check of the LMKs, which no draw changes.
const CHECKED: &[u8] = b"0001ND0033C517CEFDC01D400001-LAB1";

// Each of the replies begins so.
fn begin(rt: &impl Abort, replies: &[Vec<u8>], wanted: &[&[u8]]) {
    assert_eq!(rt; replies.len(), wanted.len());
    for (reply, front) in replies.iter().zip(wanted) {
        assert!(rt; reply.starts_with(front));
    }
}

#[test]
fn acquirers_day(rt: HostRuntime) -> Result<(), Fail> {
    let alloc = rt.alloc();
    let module = module_of(&rt, SET_T)?;
    let (desk, mut pass) = Desk::new(alloc, Ledger::new(alloc)?)?;
    let progress = Progress::new();
    let mut lanes = Vec::new(alloc);
    let own = desk.split(&mut pass);
    let (door, port_0) = any_door(&rt)?;
    let clock = SystemClock::new(&rt);
    let gate = progress.gate(&rt);
    add(alloc, &module, &desk, &mut lanes, 0, own, door, clock, gate)?;
    let own = desk.split(&mut pass);
    let (door, port_1) = any_door(&rt)?;
    let clock = SystemClock::new(&rt);
    let gate = progress.gate(&rt);
    add(alloc, &module, &desk, &mut lanes, 1, own, door, clock, gate)?;
    let own = desk.split(&mut pass);
    let (door, port_2) = any_door(&rt)?;
    let clock = SystemClock::new(&rt);
    let gate = progress.gate(&rt);
    add(alloc, &module, &desk, &mut lanes, 2, own, door, clock, gate)?;
    let ports = [port_0, port_1, port_2];
    let replies = run_beside(&rt, &rt, &module, &desk, &mut lanes, ports, &progress);
    assert!(rt; !progress.in_vain.load(Ordering::SeqCst));
    let Replies {
        console,
        first,
        second,
    } = replies;
    begin(&rt, &console?, &[b"OK", b"OK 1 pin.clear=0"]);
    begin(
        &rt,
        &first?,
        &[
            CHECKED,
            CHECKED,
            b"0001A100U",
            b"0001CB0004",
            b"0001ED00",
            b"0001M700A701784F",
        ],
    );
    begin(&rt, &second?, &[CHECKED, CHECKED]);
    for (lane, messages) in lanes.iter().zip([2, 6, 2]) {
        let report = lane.reports.first().ok_or("no report")?;
        assert_eq!(rt; (report.ended, report.messages), (ConnEnd::Clean, messages));
    }
    Ok(())
}
