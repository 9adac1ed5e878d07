// The tally.
ghost use Rattle.std.specs.Prelude.{◌≡◌, ◌<◌, ◌++◌, [], ℕ, List, length};
ghost use Rattle.sha2.specs.Sha256.{sha256};
ghost use Rattle.hsm_io.specs.Outside.{HasCause, Write, has_put_failed};
ghost use Rattle.hsm_io.specs.declared.sink.Put.TheVariants.{Took};
ghost use Rattle.hsm_tally.specs.Replies.{ok_count, other_count, capped};

use crate::replies::Lines;
use hsm_io::{Put, Sink};
use sha2::{Digest, Sha256};
use std::marker::Model;

/// What a tally gives at its end.
#[derive(Clone, Copy, Debug, PartialEq, Eq)]
pub struct Totals {
    /// The replies without an error.
    pub ok: u64,
    /// The other replies.
    pub other: u64,
    /// The SHA-256 of the text (FIPS 180-4).
    pub digest: [u8; 32],
}

/// A sink that never fails. Of the text that is written to it, it keeps the number of lines that are replies without an
/// error, the number of other replies, and the hash. A count stays at its last value, `2^64 - 1`.
#[derive(Drop)]
pub struct Tally {
    lines: Lines,
    hasher: Sha256,
}

impl Model for Tally {
    ghost use Rattle.hsm_tally.specs.Tallies.{TallyState};

    ghost Value = { TallyState };

    ghost view = { λ s. record { lines = s.lines; hasher = s.hasher } };
}

impl Tally {
    ghost use Rattle.hsm_tally.specs.Tallies.{StandsFor};

    /// A tally of the empty text.
    pub fn new() -> Tally
        ensures { StandsFor result [] }
    {
        Tally {
            lines: Lines::new(),
            hasher: Sha256::new(),
        }
    }

    /// Gives the counts and the hash of the text.
    pub fn end(self) -> Totals
        ensures ok { (text : List ℕ) → StandsFor self text → result.ok ≡ capped (ok_count text) }
        ensures other { (text : List ℕ) → StandsFor self text → result.other ≡ capped (other_count text) }
        ensures digest { (text : List ℕ) → StandsFor self text → result.digest ≡ sha256 text }
    {
        Totals {
            ok: self.lines.ok(),
            other: self.lines.other(),
            digest: self.hasher.finalize(),
        }
    }
}

impl Sink for Tally {
    ghost use Rattle.hsm_tally.specs.Tallies.{StandsFor};

    ghost stands_for = { StandsFor };

    ghost faults = { λ tally. 0 };

    fn write(&mut self, piece: &[u8]) -> Put
        requires { 0 < length piece.now }
        ensures bytes { Write (StandsFor self.old) (StandsFor self.new) piece.now result }
        ensures cause { HasCause 0 0 (has_put_failed result) }
        ensures all { result ≡ Took (length piece.now) }
    {
        self.lines.add(piece);
        self.hasher.update(piece);
        Put::Took(piece.len())
    }
}
