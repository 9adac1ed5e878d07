// Connections in memory, served over a desk of their own, under set E1.
ghost use Rattle.std.specs.Prelude.{◌≡◌, IfOk};
ghost use Rattle.hsm_auth.specs.declared.activity.Place.TheVariants.{Host};
ghost use Rattle.hsm_answers.specs.Kept.{IsCacheOf};
ghost use Rattle.hsm_answers.specs.Messages.{least_for};

use arrayvec::ArrayVec;
use hsm_auth::{Ledger, Place};
use hsm_desk::{Booked, Desk, Pass};
use hsm_frame::Frames;
use hsm_io::{MemClock, MemLink, OpenGate};
use hsm_lmk::KeyCache;
use hsm_rows::Module;
use hsm_session::{ConnEnd, Report, Tools, least_message, serve_link};
use hsm_text::Reply;
use std::alloc::{Alloc, AllocError, Global};
use std::array;
use std::process::Abort;
use std::sync::Wait;
use std::test::Fail;
use test_laboratory::{Set, module_of};

// A frame with a sealed key whose check value is D5D44F, twice.
const ASKED: &[u8] = b"\x00\x190001BU01085E813540F0AB405\x00\x190001BU01085E813540F0AB405";

// Their answers.
const ANSWERED: &[u8] = b"\x00\x0E0001BV00D5D44F\x00\x0E0001BV00D5D44F";

// A connection's bytes, of which each read gives at most a chunk; the room for what is written; the numbers of the reads
// and of the writes that fail; how it ends, the number of its messages, how often a kept key was found, and what is written.
#[derive(Clone, Copy)]
pub(crate) struct Case {
    pub(crate) input: &'static [u8],
    pub(crate) chunk: usize,
    pub(crate) room: usize,
    pub(crate) bad_reads: &'static [u32],
    pub(crate) bad_writes: &'static [u32],
    pub(crate) ended: ConnEnd,
    pub(crate) messages: u64,
    pub(crate) hits: u64,
    pub(crate) written: &'static [u8],
}

// A cache that keeps no key yet.
fn cache_for(alloc: Global, module: &Module) -> Result<KeyCache, AllocError>
    ensures agrees { IfOk result (λ cache. IsCacheOf «module».now cache) }
{
    let _ = module;
    KeyCache::new(alloc, 64)
}

// What serves a host's connection, over this pass.
pub(crate) fn tools_of(
    alloc: Global,
    module: &Module,
    pass: Pass,
) -> Result<Tools<MemClock, OpenGate>, Fail>
    ensures least { IfOk result (λ tools. tools.frames.least ≡ least_for «module».now Host) }
    ensures pass { IfOk result (λ tools. tools.pass ≡ pass) }
    ensures agrees { IfOk result (λ tools. IsCacheOf «module».now tools.cache) }
{
    let mut moments = ArrayVec::new();
    moments.push(7);
    let frames = Frames::open(alloc, least_message(module, Place::Host))?;
    let cache = cache_for(alloc, module)?;
    Ok(Tools {
        pass,
        clock: MemClock::new(moments),
        gate: OpenGate,
        room: [0; 4096],
        frames,
        reply: Reply::new(),
        out: ArrayVec::new(),
        lane: 1,
        cache,
        booked: array::from_fn(|_| Booked::nothing()),
    })
}

pub(crate) fn serves(
    rt: &(impl Abort + Alloc<A = Global> + Wait),
    case: &Case,
) -> Result<(), Fail> {
    let alloc = rt.alloc();
    let module = module_of(alloc, Set::E1, 1).ok_or("module")?;
    let (desk, pass) = Desk::new(alloc, Ledger::new(alloc)?)?;
    let mut tools = tools_of(alloc, &module, pass)?;
    let mut link = MemLink::new(
        alloc,
        case.input.to_vec(alloc)?,
        case.chunk.max(1),
        case.room,
        case.bad_reads.to_vec(alloc)?,
        case.bad_writes.to_vec(alloc)?,
    )?;
    let report = serve_link(rt, &module, &desk, Place::Host, &mut tools, &mut link);
    let told = Report {
        ended: case.ended,
        messages: case.messages,
        first: Some(0),
        last: case.messages.checked_sub(1),
        hits: case.hits,
    };
    assert_eq!(rt; report, told);
    assert_eq!(rt; link.written(), case.written);
    Ok(())
}

#[test]
fn connections(rt: HostRuntime) -> Result<(), Fail> {
    let whole = Case {
        input: ASKED,
        chunk: 5,
        room: 100,
        bad_reads: &[],
        bad_writes: &[],
        ended: ConnEnd::Clean,
        messages: 2,
        hits: 1,
        written: ANSWERED,
    };
    let one = Case {
        messages: 1,
        hits: 0,
        written: &ANSWERED[..16],
        ..whole
    };
    let cases = [
        whole,
        // The input ends within the second frame.
        Case {
            input: &ASKED[..53],
            ended: ConnEnd::Cut,
            ..one
        },
        // The second frame names a length below the least.
        Case {
            input: b"\x00\x190001BU01085E813540F0AB405\x00\x05 0001",
            chunk: 100,
            ended: ConnEnd::Short(5),
            ..one
        },
        // The second read fails.
        Case {
            chunk: 27,
            bad_reads: &[1],
            ended: ConnEnd::ReadFault,
            ..one
        },
        // The first write fails.
        Case {
            chunk: 54,
            bad_writes: &[0],
            ended: ConnEnd::WriteFault,
            written: b"",
            ..whole
        },
        // The answers do not fit.
        Case {
            chunk: 54,
            room: 20,
            ended: ConnEnd::WriteFault,
            written: &ANSWERED[..20],
            ..whole
        },
    ];
    for case in &cases {
        serves(&rt, case)?;
    }
    Ok(())
}
