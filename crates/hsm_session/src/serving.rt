//! One connection, from its first byte to its end.

ghost use Rattle.std.specs.Prelude.{◌≡◌, ◌≤◌, ◌<◌, ◌+◌, ◌^◌, ◌++◌, List, ℕ, [], length, Option};
ghost use Rattle.hsm_frame.specs.Frames.{frame};
ghost use Rattle.hsm_io.specs.Connections.{IsSilent, Traffic};
ghost use Rattle.hsm_session.specs.Connections.{EndCause, Scene, Serves, scene_of};
ghost use Rattle.hsm_session.specs.Lanes.{AreBytes, IsWaiting};
ghost use Rattle.hsm_answers.specs.Kept.{IsCacheOf};
ghost use Rattle.hsm_answers.specs.Messages.{least_for};
ghost use Rattle.hsm_session.specs.Serving.{IsServing, StepCause, Steps, holding, no_entry, one_more, report_of};

use crate::batch::{BATCH, Behind, answer_front};
use crate::replies::send;
use arrayvec::ArrayVec;
use hsm_auth::Place;
use hsm_desk::{Booked, Desk, Pass};
use hsm_frame::Frames;
use hsm_frame::laws::has_one_reading;
use hsm_io::{Clock, Gate, Got, Link};
use hsm_lmk::KeyCache;
use hsm_rows::Module;
use hsm_text::Reply;
use std::sync::Wait;

/// What a lane serves its connections with. All its memory was taken when it was made.
#[derive(Drop)]
pub struct Tools<C, G> {
    /// The seat at the desk with which the lane books.
    pub pass: Pass,
    pub clock: C,
    pub gate: G,
    /// The room for the bytes of a read.
    pub room: [u8; 4096],
    /// The bytes that came and were not handed out.
    pub frames: Frames,
    pub reply: Reply,
    /// The framed replies that were not written yet.
    pub out: ArrayVec<u8, 65537>,
    /// The number of the lane: 0 for the console, from 1 on for hosts.
    pub lane: u32,
    /// The keys that were opened last; they stay from one connection to the next.
    pub cache: KeyCache,
    /// What was booked for the messages that are answered together. What stands there before is not read.
    pub booked: [Booked; BATCH],
}

/// How a connection ended.
#[derive(Clone, Copy, Debug, PartialEq, Eq)]
pub enum ConnEnd {
    /// The input ended behind a whole frame.
    Clean,
    /// The input ended within a frame.
    Cut,
    /// A frame named this length, which is below the least.
    Short(u16),
    /// A read failed.
    ReadFault,
    /// A write failed.
    WriteFault,
}

/// What became of a connection.
#[derive(Clone, Copy, Debug, PartialEq, Eq)]
pub struct Report {
    pub ended: ConnEnd,
    /// The number of messages that were booked.
    pub messages: u64,
    /// The place in the history of the first of their entries.
    pub first: Option<u64>,
    /// The place of the last.
    pub last: Option<u64>,
    /// How often a key was found among the lane's kept ones, at the connection's end, of all connections so far.
    pub hits: u64,
}

// How many messages were booked, and the places of the first and the last of their entries.
#[derive(Clone, Copy)]
pub(crate) struct Count {
    pub(crate) messages: u64,
    first: Option<u64>,
    last: Option<u64>,
}

impl Count {
    fn new() -> Count
        ensures { result ≡ no_entry }
    {
        Count {
            messages: 0,
            first: None,
            last: None,
        }
    }

    // Counts one more entry.
    pub(crate) fn add(&mut self, place: u64)
        requires { self.old.messages < 2 ^ 63 }
        ensures { self.new ≡ one_more self.old place }
    {
        self.messages += 1;
        if self.first.is_none() {
            self.first = Some(place);
        }
        self.last = Some(place);
    }

    fn report(self, ended: ConnEnd, hits: u64) -> Report
        ensures { result ≡ report_of self ended hits }
    {
        Report {
            ended,
            messages: self.messages,
            first: self.first,
            last: self.last,
            hits,
        }
    }
}

/// The least length of a message from there: a host's has a header and a command code, the console's has one byte.
pub fn least_message(module: &Module, kind: Place) -> u16
    ensures { result ≡ least_for «module».now kind }
{
    match kind {
        Place::Host => u16::from(module.header) + 2,
        Place::Console => 1,
    }
}

// The end at a frame of this length, which is below the least.
fn end_short(module: &Module, kind: Place, length: u64) -> ConnEnd
    requires { length < least_for «module».now kind }
    ensures { result ≡ ConnEnd.Short length }
{
    let least = least_message(module, kind);
    prove!(length < u64::from(least));
    ConnEnd::Short(length as u16)
}

// Books and answers the whole messages that the frames hold, and gathers their replies.
fn answer_messages<R: Wait, K: Link, C: Clock, G: Gate>(
    rt: &R,
    module: &Module,
    desk: &Desk,
    kind: Place,
    tools: &mut Tools<C, G>,
    link: &mut K,
    count: &mut Count,
) -> Option<ConnEnd>
    requires agrees { IsCacheOf «module».now tools.old.cache }
    requires desk { tools.old.pass.desk ≡ desk.now }
    requires least { tools.old.frames.least ≡ least_for «module».now kind }
    requires counted { count.old.messages ≤ length tools.old.pass.seen }
    ensures agrees { IsCacheOf «module».now tools.new.cache }
    ensures desk { tools.new.pass.desk ≡ tools.old.pass.desk }
    ensures counted { count.new.messages ≤ length tools.new.pass.seen }
    ensures steps { Steps «module».now kind tools.old.lane
        (scene_of C.last C.to_come G.calls tools.old (K.traffic link.old))
        (scene_of C.last C.to_come G.calls tools.new (K.traffic link.new))
        (holding tools.old.frames.bytes tools.old.out.items count.old)
        (holding tools.new.frames.bytes tools.new.out.items count.new) result }
    ensures cause { StepCause (K.faults link.old) (K.faults link.new) (K.last_was_read link.new) result }
    ensures lane { tools.new.lane ≡ tools.old.lane }
    ensures frames { tools.new.frames.least ≡ tools.old.frames.least }
{
    has_one_reading();
    'messages: loop {
        match answer_front(rt, module, desk, kind, tools, link, count) {
            Ok(Behind::More) => {}
            Ok(Behind::NotYet) => return None,
            Ok(Behind::Short(length)) => {
                return match send(&mut tools.out, link) {
                    Ok(()) => Some(end_short(module, kind, length)),
                    Err(_) => Some(ConnEnd::WriteFault),
                };
            }
            Err(_) => return Some(ConnEnd::WriteFault),
        }
    }
}

// Tells that what a slice holds are bytes. It does nothing.
fn tell_bytes(piece: &[u8])
    ensures { AreBytes piece.now }
{
    let _ = piece;
}

// Writes what is gathered, reads a piece, and answers the messages that it ends.
fn serve_piece<R: Wait, K: Link, C: Clock, G: Gate>(
    rt: &R,
    module: &Module,
    desk: &Desk,
    kind: Place,
    tools: &mut Tools<C, G>,
    link: &mut K,
    count: &mut Count,
) -> Option<ConnEnd>
    requires agrees { IsCacheOf «module».now tools.old.cache }
    requires desk { tools.old.pass.desk ≡ desk.now }
    requires least { tools.old.frames.least ≡ least_for «module».now kind }
    requires waits { IsWaiting (least_for «module».now kind) tools.old.frames.bytes }
    requires counted { count.old.messages ≤ length tools.old.pass.seen }
    ensures agrees { IsCacheOf «module».now tools.new.cache }
    ensures desk { tools.new.pass.desk ≡ tools.old.pass.desk }
    ensures counted { count.new.messages ≤ length tools.new.pass.seen }
    ensures steps { Steps «module».now kind tools.old.lane
        (scene_of C.last C.to_come G.calls tools.old (K.traffic link.old))
        (scene_of C.last C.to_come G.calls tools.new (K.traffic link.new))
        (holding tools.old.frames.bytes tools.old.out.items count.old)
        (holding tools.new.frames.bytes tools.new.out.items count.new) result }
    ensures cause { StepCause (K.faults link.old) (K.faults link.new) (K.last_was_read link.new) result }
    ensures lane { tools.new.lane ≡ tools.old.lane }
    ensures frames { tools.new.frames.least ≡ tools.old.frames.least }
{
    has_one_reading();
    match send(&mut tools.out, link) {
        Ok(()) => {}
        Err(_) => return Some(ConnEnd::WriteFault),
    }
    let size = (65_537 - tools.frames.held()).min(4096);
    match link.read(&mut tools.room[..size]) {
        Got::Bytes(read) => {
            let piece = &tools.room[..read];
            tell_bytes(piece);
            tools.frames.feed(piece);
            answer_messages(rt, module, desk, kind, tools, link, count)
        }
        Got::End => {
            if tools.frames.held() == 0 {
                return Some(ConnEnd::Clean);
            }
            Some(ConnEnd::Cut)
        }
        Got::Failed => Some(ConnEnd::ReadFault),
    }
}

/// Serves one connection to its end: each message is prepared, booked and answered. A key that the lane keeps is not opened
/// anew, and keys that messages open are kept. It takes no memory, and may wait for its turn at the desk. Replies are
/// gathered, and written before a reply that no longer fits, before each read, and at the end.
pub fn serve_link<R: Wait, K: Link, C: Clock, G: Gate>(
    rt: &R,
    module: &Module,
    desk: &Desk,
    kind: Place,
    tools: &mut Tools<C, G>,
    link: &mut K,
) -> Report
    requires agrees { IsCacheOf «module».now tools.old.cache }
    requires desk { tools.old.pass.desk ≡ desk.now }
    requires least { tools.old.frames.least ≡ least_for «module».now kind }
    // Where the link tells, nothing of it was read or written.
    requires silent { IsSilent (K.traffic link.old) }
    ensures serves { Serves «module».now kind tools.old.lane
        (scene_of C.last C.to_come G.calls tools.old (K.traffic link.old))
        (scene_of C.last C.to_come G.calls tools.new (K.traffic link.new)) result }
    ensures agrees { IsCacheOf «module».now tools.new.cache }
    ensures cause { EndCause (K.faults link.old) (K.faults link.new) (K.last_was_read link.new) result.ended }
    ensures lane { tools.new.lane ≡ tools.old.lane }
    ensures frames { tools.new.frames.least ≡ tools.old.frames.least }
{
    let mut count = Count::new();
    tools.pass.facts();
    tools.frames.reset();
    tools.out.clear();
    'pieces: for _ in rt.forever() {
        if let Some(ended) = serve_piece(rt, module, desk, kind, tools, link, &mut count) {
            return count.report(ended, tools.cache.hits());
        }
    }
    unreachable!()
}
