//! Length framing: a message on a stream of bytes is its length in two bytes, high byte first, and then its bytes.
#![tactic(auto)]

ghost use Rattle.std.specs.Prelude.{◌≡◌, ◌+◌, ◌-◌, ◌^◌, ◌<◌, ◌≤◌, ◌++◌, [], length, take, drop, min, IfOk, ℕ, List};
ghost use Rattle.arrayvec.specs.ArrayVec.{array_vec_len};
ghost use Rattle.hsm_frame.specs.First.{BeginsWith};
ghost use Rattle.hsm_frame.specs.Frames.{frame};

pub mod laws;

use arrayvec::ArrayVec;
use std::alloc::{AllocError, Global};
use std::marker::Model;

// The longest frame: two bytes of length and 65,535 bytes.
const CAPACITY: usize = 65_537;

/// What the bytes held begin with.
#[derive(Clone, Copy, Debug, PartialEq, Eq)]
pub enum Next<'a> {
    /// Fewer than two bytes are held, or the bytes of a frame are not all there. There is room for at least one more.
    NotYet,
    /// Two bytes are held that name this length, which is below the least.
    Short(u64),
    /// A whole message, without its length.
    Message(&'a [u8]),
}

/// The bytes of a stream that came and were not handed out, at most 65,537 of them, and the least length of a message.
#[derive(Drop)]
pub struct Frames {
    buffer: Vec<u8>,
    // The bytes before this place were handed out.
    start: usize,
    least: u16,
}

impl Model for Frames {
    ghost use Rattle.std.specs.Prelude.{◌≤◌, ◌-◌, ◌≡◌, drop, vec_len, vec_capacity};
    ghost use Rattle.hsm_frame.specs.Calls.{Held};

    ghost Value = { Held };

    ghost view = { λ s. record { least = s.least; bytes = drop s.start s.buffer.items } };

    ghost invariant = { λ s. (s.start ≤ vec_len s.buffer) × (vec_len s.buffer ≤ 65537) × (65537 ≤ vec_capacity s.buffer) };
}

impl Frames {
    ghost use Rattle.hsm_frame.specs.Calls.{Held};
    ghost use Rattle.std.specs.Borrow.{sem};
    ghost use Rattle.hsm_frame.specs.Next.{IsAnswerFor, LeavesAnswered};

    /// A receiver that holds nothing, of messages of at least so many bytes. All its memory is taken here.
    pub fn open(alloc: Global, least: u16) -> Result<Frames, AllocError>
        ensures { IfOk result (λ frames. frames ≡ record { least = least; bytes = [] }) }
    {
        let buffer = Vec::with_capacity(alloc, CAPACITY)?;
        Ok(Frames {
            buffer,
            start: 0,
            least,
        })
    }

    /// How many bytes are held.
    pub fn held(&self) -> usize
        ensures length { result ≡ length self.now.bytes }
        ensures room { result ≤ 65537 }
    {
        self.buffer.len() - self.start
    }

    /// Lets go of all that is held.
    pub fn reset(&mut self)
        ensures { self.new ≡ record self.old { bytes = [] } }
    {
        self.buffer.clear();
        self.start = 0;
    }

    /// Appends as much of the front of the piece as there is room for, and answers how many bytes that were.
    pub fn feed(&mut self, piece: &[u8]) -> usize
        ensures count { result ≡ min (length piece.now) (65537 - length self.old.bytes) }
        ensures held { self.new ≡ record self.old { bytes = self.old.bytes ++ take result piece.now } }
    {
        let held = self.held();
        self.buffer.copy_within(self.start.., 0);
        self.buffer.truncate(held);
        self.start = 0;
        let count = piece.len().min(CAPACITY - held);
        match self.buffer.extend_from_slice(&piece[..count]) {
            Ok(()) => count,
            Err(_) => unreachable!(),
        }
    }

    /// What the bytes held behind the first `from` of them begin with. Nothing changes, so that several messages may be lent at
    /// once; [`Frames::skip`] removes them.
    pub fn look(&self, from: usize) -> Next<'_>
        requires { from ≤ length self.now.bytes }
        ensures { IsAnswerFor (record self.now { bytes = drop from self.now.bytes }) result }
    {
        let at = self.start + from;
        match first_frame(&self.buffer[at..], self.least) {
            First::NotYet => Next::NotYet,
            First::Short(count) => Next::Short(u64::from(count)),
            First::Whole(count) => {
                let from = at + 2;
                Next::Message(&self.buffer[from..from + usize::from(count)])
            }
        }
    }

    /// Lets go of the first so many bytes held.
    pub fn skip(&mut self, count: usize)
        requires { count ≤ length self.old.bytes }
        ensures { self.new ≡ record self.old { bytes = drop count self.old.bytes } }
    {
        self.start += count;
    }

    /// What the bytes held begin with. A message is removed from them and lent; nothing else changes.
    pub fn next(&mut self) -> Next<'_>
        // What the answer says of the bytes that were held; a message that is lent is just that of the frame.
        ensures answer { IsAnswerFor self.old result }
        // What is held once the answer is done with, as `Answers` says. `sem` and the loan are the toolchain's words for a state that a lent message hides.
        ensures* leaves { sem 𝓛 (LeavesAnswered self.entry result) }
    {
        match first_frame(&self.buffer[self.start..], self.least) {
            First::NotYet => Next::NotYet,
            First::Short(count) => Next::Short(u64::from(count)),
            First::Whole(count) => {
                let from = self.start + 2;
                self.start = from + usize::from(count);
                Next::Message(&self.buffer[from..self.start])
            }
        }
    }
}

// What bytes begin with; a whole frame by the length that it names.
enum First {
    NotYet,
    Short(u16),
    Whole(u16),
}

fn first_frame(held: &[u8], least: u16) -> First
    ensures { BeginsWith least held.now result }
{
    let [high, low, rest @ ..] = held else {
        return First::NotYet;
    };
    let count = u16::from_be_bytes([*high, *low]);
    if count < least {
        First::Short(count)
    } else if rest.len() < usize::from(count) {
        First::NotYet
    } else {
        First::Whole(count)
    }
}

/// Appends the body as a frame.
pub fn frame_append(body: &[u8], out: &mut ArrayVec<u8, 65537>)
    requires body { length body.now < 2 ^ 16 }
    requires room { array_vec_len out.old + length body.now + 2 ≤ 65537 }
    ensures { out.new.items ≡ out.old.items ++ frame body.now }
{
    let count = (body.len() as u16).to_be_bytes();
    append(out, &count);
    append(out, body);
}

/// Puts the body as a frame in the place of what was there.
pub fn frame_into(body: &[u8], out: &mut ArrayVec<u8, 65537>)
    requires { length body.now < 2 ^ 16 }
    ensures { out.new.items ≡ frame body.now }
{
    out.clear();
    frame_append(body, out);
}

fn append(out: &mut ArrayVec<u8, 65537>, bytes: &[u8])
    requires { array_vec_len out.old + length bytes.now ≤ 65537 }
    ensures items { out.new.items ≡ out.old.items ++ bytes.now }
    ensures len { array_vec_len out.new ≡ array_vec_len out.old + length bytes.now }
{
    match out.try_extend_from_slice(bytes) {
        Ok(()) => {}
        Err(_) => unreachable!(),
    }
}
