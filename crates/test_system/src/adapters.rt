// Each adapter, and ports that are taken.
ghost use Rattle.std.specs.Prelude.{◌≡◌, false, IfOk};

use hsm_io::{Bench, Got, MemSink, Put, Sink, Source, write_all};
use hsm_program::{Outcome, hsm_run, read_all};
use hsm_system::{Output, SystemBench, SystemDoor};
use std::alloc::Global;
use std::net::TcpListener;
use std::test::Fail;
use std::{fs, io};

const SCRIPT: &[u8] = b"L1 001930303031425530313038354538313335343046304142343035\n";

const ANSWER: &[u8] = b"L1 000E3030303142563030443544343446\nEND 1\n";

// The LMKs of the test laboratory.
pub(crate) const SET_T: &str = "\"test\"";

#[test]
fn system_files(rt: HostRuntime) -> Result<(), Fail> {
    let alloc = rt.alloc();
    fs::write(&rt, "there", SCRIPT)?;
    let mut bench = SystemBench::new(&rt);
    assert!(rt; bench.open_file("missing").is_none());
    let Some(mut file) = bench.open_file("there") else {
        return Err("not opened")?;
    };
    let bytes = read_all(alloc, &mut file).ok().ok_or("not read")?;
    assert!(rt; !file.has_failed());
    bench.close_file(file);
    assert_eq!(rt; bytes.as_slice(), SCRIPT);
    // A folder can be opened, and not read.
    let Some(mut folder) = bench.open_file(".") else {
        return Err("not opened")?;
    };
    let mut room = [0; 100];
    assert_eq!(rt; folder.read(&mut room), Got::Failed);
    assert!(rt; folder.has_failed());
    bench.close_file(folder);
    Ok(())
}

#[test]
fn system_output(rt: HostRuntime) -> Result<(), Fail> {
    fs::write(&rt, "output", b"")?;
    let mut out = Output::new(fs::create(&rt, "output")?);
    assert!(rt; write_all(&mut out, ANSWER).is_ok());
    drop(out);
    assert_eq!(rt; fs::read(&rt, "output")?.as_slice(), ANSWER);
    // A device that is always full.
    let mut full = Output::new(fs::create(&rt, "/dev/full")?);
    assert_eq!(rt; full.write(ANSWER), Put::Failed);
    Ok(())
}

// A port of 127.0.0.1 at which nobody listened just now.
fn free_port(rt: &HostRuntime) -> io::Result<u16> {
    let listener = TcpListener::bind(rt, ("127.0.0.1", 0))?;
    Ok(listener.local_addr()?.port())
}

// A door at a port that nobody else has, and that port.
pub(crate) fn any_door(rt: &HostRuntime) -> Result<(SystemDoor, u16), Fail>
    ensures { IfOk result (λ r. r.0.is_out ≡ false) }
{
    for _ in 0..100 {
        let port = free_port(rt)?;
        if let Some(door) = SystemBench::new(rt).door(port) {
            return Ok((door, port));
        }
    }
    Err("no port")?
}

// A configuration with these LMKs, one host port, and one connection a lane.
pub(crate) fn settings(alloc: Global, lmks: &str, console: u16, host: u16) -> Result<String, Fail> {
    let mut text = String::from_str(alloc, "version = 1\nheader = 4\naccept = 1\n")?;
    text.push_str(
        "officers = [\"ba7816bf8f01cfea414140de5dae2223b00361a396177a9cb410ff61f20015ad\", ",
    )?;
    text.push_str("\"2cf24dba5fb0a30e26e83b2ac5b9e29e1b161e5c1fa7425e73043362938b9824\"]\n")?;
    let ports = format!(in alloc; "console_port = {console}\nhost_ports = [{host}]\n")?;
    text.push_str(&ports)?;
    text.push_str("lmk = ")?;
    text.push_str(lmks)?;
    text.push_str("\n")?;
    Ok(text)
}

#[test]
fn ports_taken(rt: HostRuntime) -> Result<(), Fail> {
    let alloc = rt.alloc();
    let taken = TcpListener::bind(&rt, ("127.0.0.1", 0))?;
    let port = taken.local_addr()?.port();
    let mut words = Vec::new(alloc);
    words.push(String::from_str(alloc, "serve")?)?;
    words.push(String::from_str(alloc, "settings.toml")?)?;
    // Another may take the free port of the console in the meantime. Then it is tried again.
    for (is_free, lane) in [(false, 0), (true, 1)] {
        let mut outcome = Outcome::Served;
        for _ in 0..10 {
            let other = free_port(&rt)?;
            let (console, host) = if is_free {
                (other, port)
            } else {
                (port, other)
            };
            let text = settings(alloc, SET_T, console, host)?;
            fs::write(&rt, "settings.toml", text.as_bytes())?;
            let mut out = MemSink::new(alloc, 100, Vec::new(alloc))?;
            let ended = hsm_run(&rt, alloc, &words, &mut SystemBench::new(&rt), &mut out);
            assert_eq!(rt; ended.status, 3);
            assert_eq!(rt; out.bytes(), b"".as_slice());
            outcome = ended.outcome;
            if outcome == Outcome::ListenFault(lane) {
                break;
            }
        }
        assert_eq!(rt; outcome, Outcome::ListenFault(lane));
    }
    Ok(())
}
