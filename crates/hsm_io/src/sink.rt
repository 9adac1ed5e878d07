// What bytes are written to.
ghost use Rattle.std.specs.Prelude.{◌<◌, ℕ, List, length};
ghost use Rattle.hsm_io.specs.Outside.{HasCause, Write, has_put_failed};

/// What a write took.
#[derive(Clone, Copy, Debug, PartialEq, Eq)]
pub enum Put {
    /// The first so many bytes of the piece: at least one, and at most its length.
    Took(usize),
    /// The write failed, and changed nothing but the count of faults.
    Failed,
}

/// A sink of bytes with a count of its faults.
pub trait Sink {
    /// Whether the sink stands for this list, as the list of all bytes that were written to it.
    /// A sink that doesn't tell what it holds stands for every list.
    ghost stands_for: { Self → List ℕ → Type 0 };

    /// How often a write has failed.
    ghost faults: { Self → ℕ };

    /// Appends a part from the front of the piece.
    fn write(&mut self, piece: &[u8]) -> Put
        requires { 0 < length piece.now }
        ensures bytes { Write (stands_for self.old) (stands_for self.new) piece.now result }
        ensures cause { HasCause (faults self.old) (faults self.new) (has_put_failed result) };
}
