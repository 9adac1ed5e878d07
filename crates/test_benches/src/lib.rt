//! Benches in memory, and what the words of a test come to over them.
#![tactic(auto)]

ghost use Rattle.std.specs.Prelude.{◌≡◌, [], None, All, IfOk};
ghost use Rattle.hsm_io.specs.MemoryLinks.{IsUntouched};
ghost use Rattle.hsm_io.specs.MemoryBench.{IsNewDoor};

use arrayvec::ArrayVec;
use hsm_io::{MemBench, MemDoor, MemLink, MemNamed, MemSink};
use hsm_program::{Ended, hsm_run};
use std::alloc::{Alloc, AllocError, Global};
use std::sync::Wait;
use std::test::Fail;
use std::thread::Threads;

/// Two host ports, eight connections at most, and in each LMK pair 133457799BBCDFF1 twice. The digests are those of the officers' words, abc and hello.
#[rattlefmt::skip]
pub const SETTINGS: &[u8] = br#"
version = 1
header = 4
officers = ["ba7816bf8f01cfea414140de5dae2223b00361a396177a9cb410ff61f20015ad",
            "2cf24dba5fb0a30e26e83b2ac5b9e29e1b161e5c1fa7425e73043362938b9824"]
console_port = 1500
host_ports = [1501, 1502]
accept = 8
lmk = ["133457799BBCDFF1133457799BBCDFF1", "133457799BBCDFF1133457799BBCDFF1", "133457799BBCDFF1133457799BBCDFF1",
       "133457799BBCDFF1133457799BBCDFF1", "133457799BBCDFF1133457799BBCDFF1", "133457799BBCDFF1133457799BBCDFF1",
       "133457799BBCDFF1133457799BBCDFF1", "133457799BBCDFF1133457799BBCDFF1", "133457799BBCDFF1133457799BBCDFF1",
       "133457799BBCDFF1133457799BBCDFF1", "133457799BBCDFF1133457799BBCDFF1", "133457799BBCDFF1133457799BBCDFF1",
       "133457799BBCDFF1133457799BBCDFF1", "133457799BBCDFF1133457799BBCDFF1", "133457799BBCDFF1133457799BBCDFF1",
       "133457799BBCDFF1133457799BBCDFF1", "133457799BBCDFF1133457799BBCDFF1", "133457799BBCDFF1133457799BBCDFF1",
       "133457799BBCDFF1133457799BBCDFF1", "133457799BBCDFF1133457799BBCDFF1"]
"#;

/// A frame with a sealed key whose check value is D5D44F under these settings.
pub const ASKED: &[u8] = b"\x00\x190001BU01085E813540F0AB405";

/// Its answer.
pub const ANSWERED: &[u8] = b"\x00\x0E0001BV00D5D44F";

/// A door of a bench: its port, what each of its connections will give, and the calls that fail: of `next`, and of each connection the reads and the writes.
#[derive(Clone, Copy)]
pub struct Port<'a> {
    pub port: u16,
    pub inputs: &'a [&'a [u8]],
    pub bad_nexts: &'a [u32],
    pub bad_reads: &'a [u32],
    pub bad_writes: &'a [u32],
}

/// A port with these connections, of which no call fails.
pub fn sound<'a>(port: u16, inputs: &'a [&'a [u8]]) -> Port<'a> {
    Port {
        port,
        inputs,
        bad_nexts: &[],
        bad_reads: &[],
        bad_writes: &[],
    }
}

/// What a bench holds: the configuration `c` and the script `f`, each with the reads of it that fail, its doors, and the calls for files, seeds and doors that fail.
#[derive(Clone, Copy)]
pub struct Setup<'a> {
    pub config: &'a [u8],
    pub config_reads: &'a [u32],
    pub script: &'a [u8],
    pub script_reads: &'a [u32],
    pub ports: &'a [Port<'a>],
    pub bad_files: &'a [u32],
    pub bad_seeds: &'a [u32],
    pub bad_doors: &'a [u32],
}

/// The settings, no script and no door. No call fails.
pub const PLAIN: Setup<'static> = Setup {
    config: SETTINGS,
    config_reads: &[],
    script: b"",
    script_reads: &[],
    ports: &[],
    bad_files: &[],
    bad_seeds: &[],
    bad_doors: &[],
};

fn link_of(alloc: Global, port: &Port<'_>, input: &[u8]) -> Result<MemLink, AllocError>
    ensures { IfOk result IsUntouched }
{
    MemLink::new(
        alloc,
        input.to_vec(alloc)?,
        1_000,
        1_000,
        port.bad_reads.to_vec(alloc)?,
        port.bad_writes.to_vec(alloc)?,
    )
}

fn door_of(alloc: Global, port: &Port<'_>) -> Result<MemDoor, AllocError>
    ensures { IfOk result IsNewDoor }
{
    let mut links = Vec::new(alloc);
    for input in port.inputs {
        links.push(link_of(alloc, port, input)?)?;
    }
    MemDoor::new(alloc, links, port.bad_nexts.to_vec(alloc)?)
}

fn doors_of(alloc: Global, ports: &[Port<'_>]) -> Result<Vec<(u16, MemDoor)>, AllocError>
    ensures { IfOk result (λ doors. All (λ door. IsNewDoor door.1) doors.items) }
{
    let mut doors = Vec::new(alloc);
    for port in ports {
        doors.push((port.port, door_of(alloc, port)?))?;
    }
    Ok(doors)
}

// A file of these bytes. What can fail is bound first.
fn named(
    alloc: Global,
    name: &str,
    bytes: Vec<u8>,
    bad_reads: &[u32],
) -> Result<MemNamed, AllocError> {
    let name = String::from_str(alloc, name)?;
    let bad_reads = bad_reads.to_vec(alloc)?;
    Ok(MemNamed {
        name,
        bytes,
        bad_reads,
    })
}

fn files_of(
    alloc: Global,
    setup: &Setup<'_>,
    config: Vec<u8>,
    script: Vec<u8>,
) -> Result<Vec<MemNamed>, AllocError> {
    let mut files = Vec::new(alloc);
    files.push(named(alloc, "c", config, setup.config_reads)?)?;
    files.push(named(alloc, "f", script, setup.script_reads)?)?;
    Ok(files)
}

// A bench whose files have these bytes. Its seed is zero, and each clock gives 100 and then 160.
fn bench_of(
    alloc: Global,
    setup: &Setup<'_>,
    config: Vec<u8>,
    script: Vec<u8>,
) -> Result<MemBench, Fail>
    ensures none_out { IfOk result (λ bench. bench.files.out ≡ None) }
    ensures none_asked { IfOk result (λ bench. bench.doors.asked ≡ []) }
{
    let files = files_of(alloc, setup, config, script)?;
    let doors = doors_of(alloc, setup.ports)?;
    if !MemBench::names_differ(&files) || !MemBench::ports_differ(&doors) {
        return Err("names or ports")?;
    }
    let mut moments = ArrayVec::new();
    moments.push(100);
    moments.push(160);
    Ok(MemBench::new(
        files,
        doors,
        [0; 32],
        moments,
        setup.bad_files.to_vec(alloc)?,
        setup.bad_seeds.to_vec(alloc)?,
        setup.bad_doors.to_vec(alloc)?,
    ))
}

fn words_of(alloc: Global, texts: &[&str]) -> Result<Vec<String>, AllocError> {
    let mut words = Vec::new(alloc);
    for text in texts {
        words.push(String::from_str(alloc, text)?)?;
    }
    Ok(words)
}

/// What a command came to, what it wrote, and its bench.
#[derive(Drop)]
pub struct Over {
    pub ended: Ended<MemDoor>,
    pub out: MemSink,
    pub bench: MemBench,
}

/// Runs these words over a new bench, whose files have these bytes in the place of the setup's. The listed writes of the output fail.
pub fn runs_with(
    rt: &(impl Alloc<A = Global> + Threads + Wait + Sync),
    texts: &[&str],
    setup: &Setup<'_>,
    config: Vec<u8>,
    script: Vec<u8>,
    bad_writes: &[u32],
) -> Result<Over, Fail> {
    let alloc = rt.alloc();
    let words = words_of(alloc, texts)?;
    let mut bench = bench_of(alloc, setup, config, script)?;
    let mut out = MemSink::new(alloc, 1_000, bad_writes.to_vec(alloc)?)?;
    let ended = hsm_run(rt, alloc, &words, &mut bench, &mut out);
    Ok(Over { ended, out, bench })
}

/// The same with the files of the setup.
pub fn runs(
    rt: &(impl Alloc<A = Global> + Threads + Wait + Sync),
    texts: &[&str],
    setup: &Setup<'_>,
    bad_writes: &[u32],
) -> Result<Over, Fail> {
    let alloc = rt.alloc();
    let config = setup.config.to_vec(alloc)?;
    let script = setup.script.to_vec(alloc)?;
    runs_with(rt, texts, setup, config, script, bad_writes)
}
