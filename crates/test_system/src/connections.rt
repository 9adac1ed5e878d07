// A connection of the system that is served, and one that breaks.
ghost use Rattle.std.specs.Prelude.{◌≡◌, [], false, All, OnOk, Some};
ghost use Rattle.hsm_io.specs.Connections.{Doorway};
ghost use Rattle.hsm_server.specs.Lanes.{IsReady, lane_state};

use crate::adapters::{any_door, settings};
use hsm_auth::Ledger;
use hsm_config::Config;
use hsm_desk::{Desk, Pass};
use hsm_io::{Bench, Came, Clock, Door, Gate, Got, Link, OpenGate, Put};
use hsm_rows::Module;
use hsm_server::{Lane, kind_for, run_lanes};
use hsm_session::{ConnEnd, least_message};
use hsm_system::{SystemBench, SystemClock, SystemDoor};
use std::alloc::Global;
use std::io::{Read, Write};
use std::net::{Shutdown, TcpStream};
use std::sync::Wait;
use std::test::Fail;
use std::thread::Threads;

// In each LMK pair 133457799BBCDFF1 twice.
#[rattlefmt::skip]
const SET_E1: &str = r#"["133457799BBCDFF1133457799BBCDFF1", "133457799BBCDFF1133457799BBCDFF1", "133457799BBCDFF1133457799BBCDFF1",
    "133457799BBCDFF1133457799BBCDFF1", "133457799BBCDFF1133457799BBCDFF1", "133457799BBCDFF1133457799BBCDFF1",
    "133457799BBCDFF1133457799BBCDFF1", "133457799BBCDFF1133457799BBCDFF1", "133457799BBCDFF1133457799BBCDFF1",
    "133457799BBCDFF1133457799BBCDFF1", "133457799BBCDFF1133457799BBCDFF1", "133457799BBCDFF1133457799BBCDFF1",
    "133457799BBCDFF1133457799BBCDFF1", "133457799BBCDFF1133457799BBCDFF1", "133457799BBCDFF1133457799BBCDFF1",
    "133457799BBCDFF1133457799BBCDFF1", "133457799BBCDFF1133457799BBCDFF1", "133457799BBCDFF1133457799BBCDFF1",
    "133457799BBCDFF1133457799BBCDFF1", "133457799BBCDFF1133457799BBCDFF1"]"#;

// A frame with a sealed key whose check value is D5D44F, and its answer.
const ASKED: &[u8] = b"\x00\x190001BU01085E813540F0AB405";

const ANSWERED: &[u8] = b"\x00\x0E0001BV00D5D44F";

// The module of these LMKs, with a seed of the system.
pub(crate) fn module_of(rt: &HostRuntime, lmks: &str) -> Result<Module, Fail> {
    let text = settings(rt.alloc(), lmks, 1500, 1501)?;
    let seed = SystemBench::new(rt).seed().ok_or("no seed")?;
    match Config::read(rt.alloc(), text.as_bytes()) {
        Ok(config) => Ok(config.module(seed)),
        Err(_) => Err("configuration")?,
    }
}

// Adds a lane that serves one connection.
pub(crate) fn add<D: Door + Send + Drop, C: Clock + Send + Drop, G: Gate + Send + Drop>(
    alloc: Global,
    module: &Module,
    desk: &Desk,
    lanes: &mut Vec<Lane<D, C, G>>,
    number: u32,
    pass: Pass,
    door: D,
    clock: C,
    gate: G,
) -> Result<(), Fail>
    requires pass { pass.desk ≡ desk.now }
    requires none_out { D.is_out door ≡ false }
    requires none_taken { (d : Doorway) → D.doorway door ≡ Some d → d.taken ≡ [] }
    requires ready { All (λ lane. IsReady «module».now desk.now (lane_state D.doorway D.faults D.broken D.is_out C.last C.to_come G.calls lane)) lanes.old.items }
    ensures ready { OnOk result (All (λ lane. IsReady «module».now desk.now (lane_state D.doorway D.faults D.broken D.is_out C.last C.to_come G.calls lane)) lanes.new.items) }
{
    let least = least_message(module, kind_for(number));
    let Ok(lane) = Lane::new(alloc, number, least, 1, pass, door, clock, gate) else {
        return Err("no lane")?;
    };
    lanes.push(lane)?;
    Ok(())
}

// Runs the lanes.
pub(crate) fn run_all<R, D, C, G>(
    rt: &R,
    module: &Module,
    desk: &Desk,
    lanes: &mut Vec<Lane<D, C, G>>,
)
where
    R: Threads + Wait + Sync,
    D: Door + Send,
    C: Clock + Send,
    G: Gate + Send,
    requires ready { All (λ lane. IsReady «module».now desk.now (lane_state D.doorway D.faults D.broken D.is_out C.last C.to_come G.calls lane)) lanes.old.items }
{
    run_lanes(rt, module, desk, lanes.as_mut_slice())
}

#[test]
fn connection_served(rt: HostRuntime) -> Result<(), Fail> {
    let alloc = rt.alloc();
    let module = module_of(&rt, SET_E1)?;
    let (desk, pass) = Desk::new(alloc, Ledger::new(alloc)?)?;
    let (door, port) = any_door(&rt)?;
    let mut client = TcpStream::connect(&rt, ("127.0.0.1", port))?;
    client.write_all(ASKED)?;
    client.shutdown(Shutdown::Write)?;
    let mut lanes = Vec::new(alloc);
    let clock = SystemClock::new(&rt);
    add(
        alloc, &module, &desk, &mut lanes, 1, pass, door, clock, OpenGate,
    )?;
    run_all(&rt, &module, &desk, &mut lanes);
    let mut written = Vec::new(alloc);
    client.read_to_end(&mut written)?;
    assert_eq!(rt; written.as_slice(), ANSWERED);
    let lane = lanes.pop().ok_or("no lane")?;
    let report = lane.reports.first().ok_or("no report")?;
    assert_eq!(rt; (report.ended, report.messages), (ConnEnd::Clean, 1));
    assert!(rt; !lane.door_fault);
    Ok(())
}

#[test]
fn connection_broken(rt: HostRuntime) -> Result<(), Fail> {
    let (mut door, port) = any_door(&rt)?;
    let mut client = TcpStream::connect(&rt, ("127.0.0.1", port))?;
    let Came::Link(mut link) = door.next() else {
        return Err("no connection")?;
    };
    assert_eq!(rt; link.write(b"AB"), Put::Took(2));
    // A peer that ends with a byte unread breaks the connection.
    let mut byte = [0; 1];
    client.read_exact(&mut byte)?;
    drop(client);
    let mut room = [0; 10];
    assert_eq!(rt; link.read(&mut room), Got::Failed);
    assert_eq!(rt; link.write(b"AB"), Put::Failed);
    door.done(link);
    Ok(())
}
