// What the adapters tell is what the system answered: seeds, moments, the address of a door, an accept that fails, and reads that fill a part of the room.
use crate::adapters::any_door;
use hsm_io::{Bench, Came, Clock, Door, Got, Link, Source};
use hsm_system::{SystemBench, SystemDoor};
use std::fs;
use std::io::Write;
use std::net::{Shutdown, TcpListener, TcpStream};
use std::test::Fail;
use std::time::{SystemTime, UNIX_EPOCH};

// How many seeds are compared. By chance two bytes of a seed are equal in all of them once in 256^12.
const SEEDS: usize = 12;

#[test]
fn no_byte_of_a_seed_follows_another(rt: HostRuntime) -> Result<(), Fail> {
    let mut bench = SystemBench::new(&rt);
    let mut seeds = Vec::new(rt.alloc());
    for _ in 0..SEEDS {
        seeds.push(bench.seed().ok_or("no seed")?)?;
    }
    let first = *seeds.first().ok_or("no seed")?;
    for place in 0..32 {
        assert!(rt; seeds.iter().any(|seed| seed[place] != first[place]));
        for before in 0..place {
            assert!(rt; seeds.iter().any(|seed| seed[place] != seed[before]));
        }
    }
    Ok(())
}

// The seconds since the beginning of 1970, as std tells them.
fn seconds(rt: &HostRuntime) -> Result<u64, Fail> {
    match SystemTime::now(rt)?.duration_since(UNIX_EPOCH) {
        Ok(since) => Ok(since.as_secs()),
        Err(_) => Err("a time before 1970")?,
    }
}

#[test]
fn moments_are_seconds_since_1970(rt: HostRuntime) -> Result<(), Fail> {
    let mut clock = SystemBench::new(&rt).clock();
    let before = seconds(&rt)?;
    let moment = clock.now();
    assert!(rt; before <= moment && moment <= seconds(&rt)?);
    Ok(())
}

// Whether a connection to the port of this address of the machine itself is taken.
fn is_taken(rt: &HostRuntime, address: &str, port: u16) -> bool {
    TcpStream::connect(rt, (address, port)).is_ok()
}

#[test]
fn door_at_its_port_of_one_address(rt: HostRuntime) -> Result<(), Fail> {
    let (door, port) = any_door(&rt)?;
    assert!(rt; is_taken(&rt, "127.0.0.1", port));
    assert!(rt; !is_taken(&rt, "127.0.0.2", port));
    drop(door);
    assert!(rt; !is_taken(&rt, "127.0.0.1", port));
    Ok(())
}

#[test]
fn accept_that_fails(rt: HostRuntime) -> Result<(), Fail> {
    let listener = TcpListener::bind(&rt, ("127.0.0.1", 0))?;
    // It fails where it would wait.
    listener.set_nonblocking(true)?;
    let mut door = SystemDoor::new(listener);
    assert!(rt; matches!(door.next(), Came::Failed));
    Ok(())
}

#[test]
fn reads_of_a_part_of_the_room(rt: HostRuntime) -> Result<(), Fail> {
    let mut room = [0; 10];
    fs::write(&rt, "short", b"ABC")?;
    let mut file = SystemBench::new(&rt)
        .open_file("short")
        .ok_or("not opened")?;
    assert_eq!(rt; file.read(&mut room), Got::Bytes(3));
    assert_eq!(rt; &room[..3], b"ABC".as_slice());
    assert_eq!(rt; file.read(&mut room), Got::End);
    let (mut door, port) = any_door(&rt)?;
    let mut client = TcpStream::connect(&rt, ("127.0.0.1", port))?;
    let Came::Link(mut link) = door.next() else {
        return Err("no connection")?;
    };
    client.write_all(b"DEFG")?;
    assert_eq!(rt; link.read(&mut room), Got::Bytes(4));
    assert_eq!(rt; &room[..4], b"DEFG".as_slice());
    client.shutdown(Shutdown::Write)?;
    assert_eq!(rt; link.read(&mut room), Got::End);
    door.done(link);
    Ok(())
}
