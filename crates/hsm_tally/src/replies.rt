// The replies in a script's output, counted line by line.
ghost use Rattle.std.specs.Prelude.{◌≡◌, ◌++◌, ◌∷◌, [], ℕ, List, take, drop, min, ◌+◌, ◌-◌, ◌^◌, if◌then◌else◌};
ghost use Rattle.hsm_tally.specs.Replies.{begins, is_ok, is_other, is_reply};

use arrayvec::ArrayVec;
use std::marker::Model;

// The counts of the whole lines, and what tells the kind of the line that is not yet whole.
#[derive(Drop)]
pub(crate) struct Lines {
    ok: u64,
    other: u64,
    begun: ArrayVec<u8, 23>,
}

impl Model for Lines {
    ghost use Rattle.hsm_tally.specs.Tallies.{LinesState};

    ghost Value = { LinesState };

    ghost view = { λ s. record { ok = s.ok; other = s.other; begun = s.begun.items } };
}

impl Lines {
    ghost use Rattle.hsm_tally.specs.Tallies.{Counts};

    // Of no text.
    pub(crate) fn new() -> Lines
        ensures { Counts result [] }
    {
        Lines {
            ok: 0,
            other: 0,
            begun: ArrayVec::new(),
        }
    }

    // The replies without an error.
    pub(crate) fn ok(&self) -> u64
        ensures { result ≡ self.now.ok }
    {
        self.ok
    }

    // The other replies.
    pub(crate) fn other(&self) -> u64
        ensures { result ≡ self.now.other }
    {
        self.other
    }

    // Counts the line that just ended.
    fn end_line(&mut self)
        ensures { (text : List ℕ) → Counts self.old text → Counts self.new (text ++ 10 ∷ []) }
    {
        let line = self.begun.as_slice();
        let (ok, other) = (is_ok(line), is_other(line));
        self.ok = counted(self.ok, ok);
        self.other = counted(self.other, other);
        self.begun.clear();
    }

    // Adds one byte to the text.
    fn add_byte(&mut self, byte: u8)
        ensures { (text : List ℕ) → Counts self.old text → Counts self.new (text ++ byte ∷ []) }
    {
        if byte == b'\n' {
            self.end_line();
        } else {
            push_within(&mut self.begun, byte);
        }
    }

    // Adds a piece to the text.
    pub(crate) fn add(&mut self, piece: &[u8])
        ensures { (text : List ℕ) → Counts self.old text → Counts self.new (text ++ piece.now) }
    {
        for byte in piece {
            self.add_byte(*byte);
        }
    }
}

// Whether the line begins with the text.
fn begins(line: &[u8], text: &[u8]) -> bool
    ensures { result ≡ begins line.now text.now }
{
    let front = &line[..text.len().min(line.len())];
    front == text
}

// What stands behind so many bytes.
fn behind(line: &[u8], count: usize) -> &[u8]
    ensures { result.now ≡ drop count line.now }
{
    &line[count.min(line.len())..]
}

// Whether the line is a reply.
fn is_reply(line: &[u8]) -> bool
    ensures { result ≡ is_reply line.now }
{
    begins(line, b"C") || begins(line, b"L1")
}

// Whether the line is another reply.
fn is_other(line: &[u8]) -> bool
    ensures { result ≡ is_other line.now }
{
    is_reply(line) && !is_ok(line)
}

// Whether the line is a reply without an error.
fn is_ok(line: &[u8]) -> bool
    ensures { result ≡ is_ok line.now }
{
    begins(line, b"C OK") || begins(line, b"L1 ") && begins(behind(behind(line, 3), 16), b"3030")
}

// The count, one higher where a line counts.
fn counted(count: u64, counts: bool) -> u64
    ensures { result ≡ (if counts then min (count + 1) (2 ^ 64 - 1) else count) }
{
    if counts {
        count.saturating_add(1)
    } else {
        count
    }
}

// Appends the byte, where there is room for it.
fn push_within(begun: &mut ArrayVec<u8, 23>, byte: u8)
    ensures { begun.new.items ≡ take 23 (begun.old.items ++ byte ∷ []) }
{
    if begun.len() < 23 {
        begun.push(byte);
    }
}
