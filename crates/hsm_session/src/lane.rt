//! A host lane of a script.

ghost use Rattle.std.specs.Prelude.{◌≡◌, ◌+◌, ◌<◌, ◌≤◌, ◌^◌, ◌∷◌, ◌++◌, ℕ, List, [], length, OnOk, OnErr, IfOk, None, codes};
ghost use Rattle.arrayvec.specs.ArrayVec.{array_vec_len};
ghost use Rattle.hsm_auth.specs.declared.entry.Entry.{Entry};
ghost use Rattle.hsm_auth.specs.History.{StandsFor, IsKnown};
ghost use Rattle.hsm_auth.specs.declared.activity.Place.TheVariants.{Console};
ghost use Rattle.hsm_io.specs.Outside.{Rose};
ghost use Rattle.hsm_io.specs.Texts.{Appends, AppendsFront};
ghost use Rattle.hsm_answers.specs.Messages.{least_for, least_length};
ghost use Rattle.hsm_session.specs.Booking.{IsBooked, BooksAll, BooksFront, BooksSome, IsAnswered, console_line, entry_of, lane_words, reply_line, reply_of};
ghost use Rattle.hsm_session.specs.Runs.{closed_line, end_line, is_cut, is_short, last_line, short_line};
ghost use Rattle.hsm_answers.specs.Kept.{IsCacheOf};
ghost use Rattle.hsm_session.specs.Lanes.{Drains, FeedsPiece, StopsDraining, StopsPiece, lane_end};

use crate::plans::{finish_cached, prepare_cached};
use crate::text::{append, append_hex};
use arrayvec::ArrayVec;
use hsm_auth::{Ledger, Place};
use hsm_frame::laws::has_one_reading;
use hsm_frame::{Frames, Next, frame_into};
use hsm_io::{OutFailed, Sink, write_all};
use hsm_lmk::KeyCache;
use hsm_rows::Module;
use hsm_text::Reply;
use itoa::Buffer;
use std::alloc::{AllocError, Global};

/// The room in which replies and lines are put together, and the keys that were opened last.
#[derive(Drop)]
pub struct Buffers {
    cache: KeyCache,
    reply: Reply,
    frame: ArrayVec<u8, 65537>,
    line: ArrayVec<u8, 131_200>,
}

impl Buffers {
    /// Empty buffers, and a cache for 64 keys, which keeps none yet.
    pub fn new(alloc: Global, module: &Module) -> Result<Buffers, AllocError>
        ensures { IfOk result (λ buffers. IsCacheOf «module».now buffers.cache) }
    {
        let _ = module;
        let cache = KeyCache::new(alloc, 64)?;
        Ok(Buffers {
            cache,
            reply: Reply::new(),
            frame: ArrayVec::new(),
            line: ArrayVec::new(),
        })
    }

    // Books the ask of a message, and puts its answer in the place of the reply.
    // A constant parameter that nothing reads: the toolchain has no plan for a value that holds a type with a lifetime in a function without parameters.
    fn answer<const N: usize>(
        &mut self,
        module: &Module,
        ledger: &mut Ledger,
        kind: Place,
        moment: u64,
        message: &[u8],
    )
        requires known { IsKnown ledger.old }
        requires moment { moment ≤ 2 ^ 40 }
        requires least { least_for «module».now kind ≤ length message.now }
        requires most { length message.now ≤ 65535 }
        requires cache { IsCacheOf «module».now self.old.cache }
        ensures answered { (h : List Entry) → StandsFor ledger.old h → IsAnswered «module».now kind moment message.now ledger.old ledger.new self.new.reply h }
        ensures cache { IsCacheOf «module».now self.new.cache }
    {
        let plan = prepare_cached(module, &mut self.cache, kind, message);
        let granted = ledger.step(moment, &plan.ask());
        finish_cached(module, &self.cache, &plan, &granted, &mut self.reply);
    }

    // Puts what each line of a host lane begins with in the place of the line.
    fn begin_lane_line(&mut self, number: u32)
        ensures line { self.new.line.items ≡ lane_words number }
        ensures short { array_vec_len self.new.line ≤ 50 }
        ensures reply { self.new.reply ≡ self.old.reply }
        ensures frame { self.new.frame ≡ self.old.frame }
        ensures cache { self.new.cache ≡ self.old.cache }
    {
        let mut digits = Buffer::new();
        self.line.clear();
        append(&mut self.line, b"L");
        append(&mut self.line, digits.format(number).as_bytes());
        append(&mut self.line, b" ");
    }

    // Books the ask of a message to a host lane, and prints its answer.
    fn print_answer<S: Sink>(
        &mut self,
        module: &Module,
        ledger: &mut Ledger,
        number: u32,
        moment: u64,
        message: &[u8],
        out: &mut S,
    ) -> Result<(), OutFailed>
        requires known { IsKnown ledger.old }
        requires moment { moment ≤ 2 ^ 40 }
        requires least { least_length «module».now ≤ length message.now }
        requires most { length message.now ≤ 65535 }
        requires cache { IsCacheOf «module».now self.old.cache }
        ensures cache { IsCacheOf «module».now self.new.cache }
        ensures booked { OnOk result (BooksAll «module».now number moment (message.now ∷ []) ledger.old ledger.new (S.stands_for out.old) (S.stands_for out.new)) }
        ensures part { OnErr result (BooksSome «module».now number moment (message.now ∷ []) ledger.old ledger.new (S.stands_for out.old) (S.stands_for out.new)) }
        ensures failed { OnErr result (Rose (S.faults out.old) (S.faults out.new)) }
        ensures kept { OnOk result (S.faults out.new ≡ S.faults out.old) }
    {
        self.answer::<0>(module, ledger, Place::Host, moment, message);
        frame_into(self.reply.bytes(), &mut self.frame);
        self.begin_lane_line(number);
        append_hex(&mut self.line, &self.frame);
        append(&mut self.line, b"\n");
        write_all(out, &self.line)
    }

    /// Books the ask of a console text, and prints its answer.
    pub fn print_console<S: Sink>(
        &mut self,
        module: &Module,
        ledger: &mut Ledger,
        moment: u64,
        text: &[u8],
        out: &mut S,
    ) -> Result<(), OutFailed>
        requires known { IsKnown ledger.old }
        requires moment { moment ≤ 2 ^ 40 }
        requires least { 1 ≤ length text.now }
        requires most { length text.now ≤ 65535 }
        requires cache { IsCacheOf «module».now self.old.cache }
        ensures cache { IsCacheOf «module».now self.new.cache }
        ensures booked { OnOk result ((h : List Entry) → StandsFor ledger.old h →
            IsBooked h (entry_of «module».now Console moment h text.now ∷ []) (console_line (reply_of «module».now Console moment h text.now))
            ledger.new (S.stands_for out.old) (S.stands_for out.new)) }
        ensures part { OnErr result ((h : List Entry) → StandsFor ledger.old h →
            BooksFront h (entry_of «module».now Console moment h text.now ∷ []) (console_line (reply_of «module».now Console moment h text.now))
            ledger.new (S.stands_for out.old) (S.stands_for out.new)) }
        ensures failed { OnErr result (Rose (S.faults out.old) (S.faults out.new)) }
        ensures kept { OnOk result (S.faults out.new ≡ S.faults out.old) }
    {
        self.answer::<0>(module, ledger, Place::Console, moment, text);
        self.line.clear();
        append(&mut self.line, b"C ");
        append(&mut self.line, self.reply.bytes());
        append(&mut self.line, b"\n");
        write_all(out, &self.line)
    }

    // Prints a line of a host lane.
    fn print_words<S: Sink>(
        &mut self,
        number: u32,
        words: &[u8],
        out: &mut S,
    ) -> Result<(), OutFailed>
        requires { length words.now ≤ 100 }
        ensures cache { self.new.cache ≡ self.old.cache }
        ensures ok { OnOk result (Appends (S.stands_for out.old) (S.stands_for out.new) (lane_words number ++ words.now)) }
        ensures front { OnErr result (AppendsFront (S.stands_for out.old) (S.stands_for out.new) (lane_words number ++ words.now)) }
        ensures failed { OnErr result (Rose (S.faults out.old) (S.faults out.new)) }
        ensures kept { OnOk result (S.faults out.new ≡ S.faults out.old) }
    {
        self.begin_lane_line(number);
        append(&mut self.line, words);
        write_all(out, &self.line)
    }

    // Prints that a frame of this length, which is below the least, closed a lane.
    #[tactic(auto, unfolding(crate::specs::Runs::short_line))]
    fn print_short<S: Sink>(
        &mut self,
        number: u32,
        length: u64,
        out: &mut S,
    ) -> Result<(), OutFailed>
        ensures cache { self.new.cache ≡ self.old.cache }
        ensures ok { OnOk result (Appends (S.stands_for out.old) (S.stands_for out.new) (short_line number length)) }
        ensures front { OnErr result (AppendsFront (S.stands_for out.old) (S.stands_for out.new) (short_line number length)) }
        ensures failed { OnErr result (Rose (S.faults out.old) (S.faults out.new)) }
        ensures kept { OnOk result (S.faults out.new ≡ S.faults out.old) }
    {
        let mut digits = Buffer::new();
        self.begin_lane_line(number);
        append(&mut self.line, b"short ");
        append(&mut self.line, digits.format(length).as_bytes());
        append(&mut self.line, b"\n");
        write_all(out, &self.line)
    }

    /// Prints the last line, with the number of entries.
    #[tactic(auto, unfolding(crate::specs::Runs::last_line))]
    pub fn print_last<S: Sink>(&mut self, entries: u64, out: &mut S) -> Result<(), OutFailed>
        ensures ok { OnOk result (Appends (S.stands_for out.old) (S.stands_for out.new) (last_line entries)) }
        ensures front { OnErr result (AppendsFront (S.stands_for out.old) (S.stands_for out.new) (last_line entries)) }
        ensures failed { OnErr result (Rose (S.faults out.old) (S.faults out.new)) }
        ensures kept { OnOk result (S.faults out.new ≡ S.faults out.old) }
    {
        let mut digits = Buffer::new();
        self.line.clear();
        append(&mut self.line, b"END ");
        append(&mut self.line, digits.format(entries).as_bytes());
        append(&mut self.line, b"\n");
        write_all(out, &self.line)
    }
}

// How many messages were answered, and the length of a frame below the least length, where one stands next.
#[derive(Clone, Copy)]
struct Drained {
    answered: u64,
    short: Option<u64>,
}

/// A host lane: its number, and what its stream holds.
#[derive(Drop)]
pub struct ScriptLane {
    number: u32,
    frames: Frames,
    // The length of the frame that closed the lane, where one did.
    short: Option<u64>,
}

// Books and answers the whole messages that the lane of this number holds.
fn answer_held<S: Sink>(
    module: &Module,
    ledger: &mut Ledger,
    number: u32,
    moment: u64,
    frames: &mut Frames,
    buffers: &mut Buffers,
    out: &mut S,
) -> Result<Drained, OutFailed>
    requires known { IsKnown ledger.old }
    requires moment { moment ≤ 2 ^ 40 }
    requires least { frames.old.least ≡ least_length «module».now }
    requires room { length frames.old.bytes ≤ 65537 }
    requires cache { IsCacheOf «module».now buffers.old.cache }
    ensures cache { IsCacheOf «module».now buffers.new.cache }
    ensures drains { IfOk result (Drains «module».now number moment frames.old frames.new ledger.old ledger.new (S.stands_for out.old) (S.stands_for out.new)) }
    ensures stops { OnErr result (StopsDraining «module».now number moment frames.old ledger.old ledger.new (S.stands_for out.old) (S.stands_for out.new)) }
    ensures failed { OnErr result (Rose (S.faults out.old) (S.faults out.new)) }
    ensures kept { OnOk result (S.faults out.new ≡ S.faults out.old) }
{
    let mut answered = 0;
    'messages: loop {
        match frames.next() {
            Next::Message(message) => {
                buffers.print_answer(module, ledger, number, moment, message, out)?
            }
            Next::Short(length) => {
                return Ok(Drained {
                    answered,
                    short: Some(length),
                });
            }
            Next::NotYet => {
                return Ok(Drained {
                    answered,
                    short: None,
                });
            }
        }
        answered += 1;
    }
}

impl ScriptLane {
    /// The lane of this number, of which nothing came yet.
    pub fn new(number: u32, frames: Frames) -> ScriptLane
        ensures { result ≡ record { number = number; frames = frames; short = None } }
    {
        ScriptLane {
            number,
            frames,
            short: None,
        }
    }

    /// Feeds a piece, books its messages at the moment, and prints what they are answered. Answers how many they were.
    pub fn take_piece<S: Sink>(
        &mut self,
        module: &Module,
        ledger: &mut Ledger,
        moment: u64,
        piece: &[u8],
        buffers: &mut Buffers,
        out: &mut S,
    ) -> Result<u64, OutFailed>
        requires known { IsKnown ledger.old }
        requires moment { moment ≤ 2 ^ 40 }
        requires least { self.old.frames.least ≡ least_length «module».now }
        requires held { length self.old.frames.bytes < 65537 }
        requires cache { IsCacheOf «module».now buffers.old.cache }
        ensures cache { IsCacheOf «module».now buffers.new.cache }
        ensures feeds { IfOk result (λ answered. FeedsPiece «module».now moment self.old self.new piece.now answered ledger.old ledger.new (S.stands_for out.old) (S.stands_for out.new)) }
        ensures stops { OnErr result (StopsPiece «module».now moment self.old piece.now ledger.old ledger.new (S.stands_for out.old) (S.stands_for out.new)) }
        ensures failed { OnErr result (Rose (S.faults out.old) (S.faults out.new)) }
        ensures kept { OnOk result (S.faults out.new ≡ S.faults out.old) }
    {
        // What follows a failed write has a reading too.
        has_one_reading();
        if let Some(_) = self.short {
            buffers.print_words(self.number, b"closed\n", out)?;
            return Ok(0);
        }
        let mut answered = 0;
        let mut rest = piece;
        'chunks: while !rest.is_empty() {
            let taken = self.frames.feed(rest);
            let drained = answer_held(
                module,
                ledger,
                self.number,
                moment,
                &mut self.frames,
                buffers,
                out,
            )?;
            answered += drained.answered;
            rest = &rest[taken..];
            if let Some(length) = drained.short {
                self.short = drained.short;
                self.frames.reset();
                buffers.print_short(self.number, length, out)?;
                return Ok(answered);
            }
        }
        Ok(answered)
    }

    /// Whether the stream ends within a frame.
    pub fn is_cut(&self) -> bool
        ensures { result ≡ is_cut (lane_end self.now) }
    {
        self.short.is_none() && self.frames.held() > 0
    }

    /// Whether a frame below the least length closed the stream.
    pub fn is_short(&self) -> bool
        ensures { result ≡ is_short (lane_end self.now) }
    {
        self.short.is_some()
    }

    /// Prints that the lane holds a part of a frame, where it does.
    #[tactic(auto, unfolding(crate::specs::Runs::cut_line))]
    pub fn print_end<S: Sink>(&self, buffers: &mut Buffers, out: &mut S) -> Result<(), OutFailed>
        ensures ok { OnOk result (Appends (S.stands_for out.old) (S.stands_for out.new) (end_line self.now.number (lane_end self.now))) }
        ensures front { OnErr result (AppendsFront (S.stands_for out.old) (S.stands_for out.new) (end_line self.now.number (lane_end self.now))) }
        ensures failed { OnErr result (Rose (S.faults out.old) (S.faults out.new)) }
        ensures kept { OnOk result (S.faults out.new ≡ S.faults out.old) }
    {
        if self.is_cut() {
            buffers.print_words(self.number, b"cut\n", out)
        } else {
            Ok(())
        }
    }
}
