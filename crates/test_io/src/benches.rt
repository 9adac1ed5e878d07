// A bench in memory: which calls fail, and what it gives.
ghost use Rattle.std.specs.Prelude.{◌≡◌, ◌++◌, ◌∷◌, ◌<◌, [], false, None, length, IfOk};
ghost use Rattle.hsm_io.specs.MemoryBench.{IsNewDoor};
ghost use Rattle.hsm_io.specs.Sides.{IsNotAmong};

use arrayvec::ArrayVec;
use hsm_io::{
    Bench, Came, Clock, Door, Gate, Got, Link, MemBench, MemDoor, MemGate, MemLink, MemNamed,
    Source,
};
use std::alloc::{AllocError, Global};
use std::test::Fail;

const SEED: [u8; 32] = *b"0123456789abcdef0123456789ABCDEF";

// A door with one link, which gives these bytes.
fn door_of(alloc: Global, input: &[u8]) -> Result<MemDoor, AllocError>
    ensures { IfOk result IsNewDoor }
{
    let mut links = Vec::new(alloc);
    let input = input.to_vec(alloc)?;
    links.push(MemLink::new(alloc, input, 8, 8, Vec::new(alloc), Vec::new(alloc))?)?;
    MemDoor::new(alloc, links, Vec::new(alloc))
}

// A file whose first read fails.
fn file_of(alloc: Global, name: &str, bytes: &[u8]) -> Result<MemNamed, AllocError> {
    let name = String::from_str(alloc, name)?;
    let bytes = bytes.to_vec(alloc)?;
    let bad_reads = [0].to_vec(alloc)?;
    Ok(MemNamed {
        name,
        bytes,
        bad_reads,
    })
}

// A bench with two files and two doors, of which the second opening, the first call for a seed and the second call for a
// door fail.
fn bench_of(alloc: Global) -> Result<MemBench, Fail>
    ensures { IfOk result (λ bench. (bench.files.out ≡ None) × (bench.doors.asked ≡ [])) }
{
    let mut files = Vec::new(alloc);
    files.push(file_of(alloc, "first", b"abc")?)?;
    files.push(file_of(alloc, "second", b"de")?)?;
    let mut doors = Vec::new(alloc);
    doors.push((9001, door_of(alloc, b"one")?))?;
    doors.push((9002, door_of(alloc, b"two")?))?;
    if !MemBench::names_differ(&files) || !MemBench::ports_differ(&doors) {
        return Err("names or ports are equal")?;
    }
    let mut moments = ArrayVec::new();
    moments.push(7);
    moments.push(9);
    let bad_files = [1].to_vec(alloc)?;
    let bad_seeds = [0].to_vec(alloc)?;
    let bad_doors = [1].to_vec(alloc)?;
    Ok(MemBench::new(files, doors, SEED, moments, bad_files, bad_seeds, bad_doors))
}

// What the first two reads of a file answer, and what then stands in the room.
fn first_reads(file: &mut impl Source) -> (Got, Got, [u8; 2]) {
    let mut room = [0u8; 2];
    let first = file.read(&mut room);
    let second = file.read(&mut room);
    (first, second, room)
}

#[test]
fn bench_fails_the_listed_openings(rt: HostRuntime) -> Result<(), Fail> {
    let alloc = rt.alloc();
    let mut bench = bench_of(alloc)?;
    let Some(mut file) = bench.open_file("first") else {
        return Err("not opened")?;
    };
    assert!(rt; first_reads(&mut file) == (Got::Failed, Got::Bytes(2), *b"ab"));
    bench.close_file(file);
    assert_eq!(rt; bench.bad_name(), b"first".as_slice());
    assert!(rt; bench.open_file("second").is_none());
    assert_eq!(rt; bench.bad_name(), b"second".as_slice());
    assert!(rt; bench.open_file("third").is_none());
    assert_eq!(rt; bench.bad_name(), b"third".as_slice());
    assert!(rt; bench.open_file("second").is_some());
    Ok(())
}

#[test]
fn bench_fails_the_listed_seed(rt: HostRuntime) -> Result<(), Fail> {
    let mut bench = bench_of(rt.alloc())?;
    assert!(rt; bench.seed().is_none());
    assert!(rt; bench.seed() == Some(SEED));
    assert!(rt; bench.seed() == Some(SEED));
    Ok(())
}

// The first bytes that come through a door.
fn first_bytes(door: &mut MemDoor, room: &mut [u8; 3]) -> Option<Got>
    requires { door.old.is_out ≡ false }
{
    match door.next() {
        Came::Link(mut link) => Some(link.read(room)),
        Came::End => None,
        Came::Failed => None,
    }
}

// Asks for a door.
fn ask<B: Bench>(bench: &mut B, port: u16) -> Option<B::Door>
    requires new { IsNotAmong port (B.doors bench.old).asked }
    requires few { length (B.doors bench.old).asked < 65 }
    ensures { (B.doors bench.new).asked ≡ (B.doors bench.old).asked ++ port ∷ [] }
{
    bench.door(port)
}

#[test]
fn bench_fails_the_listed_door(rt: HostRuntime) -> Result<(), Fail> {
    let mut bench = bench_of(rt.alloc())?;
    let Some(mut door) = bench.door(9002) else {
        return Err("no door")?;
    };
    let mut room = [0u8; 3];
    assert!(rt; first_bytes(&mut door, &mut room) == Some(Got::Bytes(3)));
    assert_eq!(rt; room.as_slice(), b"two".as_slice());
    let mut bench = bench_of(rt.alloc())?;
    assert!(rt; ask(&mut bench, 9002).is_some());
    assert!(rt; ask(&mut bench, 9001).is_none());
    let mut bench = bench_of(rt.alloc())?;
    assert!(rt; ask(&mut bench, 9003).is_none());
    Ok(())
}

fn calls_of(gate: &mut impl Gate, lane: u32) {
    for message in 0..2 {
        gate.before_book(lane, message);
        gate.after_book(lane, message);
    }
}

#[test]
fn bench_gives_clocks_and_gates(rt: HostRuntime) -> Result<(), Fail> {
    let mut bench = bench_of(rt.alloc())?;
    for _ in 0..2 {
        let mut clock = bench.clock();
        assert_eq!(rt; clock.now(), 7);
        assert_eq!(rt; clock.now(), 9);
        assert_eq!(rt; clock.now(), 9);
    }
    let mut gate: MemGate = bench.gate(3);
    calls_of(&mut gate, 3);
    Ok(())
}
