// What bytes are read from.
ghost use Rattle.std.specs.Prelude.{◌<◌, ℕ, length, Option};
ghost use Rattle.hsm_io.specs.Stream.{Stream};
ghost use Rattle.hsm_io.specs.Outside.{HasCause, Read, has_got_failed};

/// What a read gave.
#[derive(Clone, Copy, Debug, PartialEq, Eq)]
pub enum Got {
    /// So many bytes stand in the front of the room: at least one, and at most its length.
    Bytes(usize),
    /// Nothing is left.
    End,
    /// The read failed, and changed nothing but the count of faults.
    Failed,
}

/// A source of bytes with a count of its faults.
pub trait Source {
    /// The bytes read so far and the bytes left, where told.
    ghost stream: { Self → Option Stream };

    /// How often a read has failed.
    ghost faults: { Self → ℕ };

    /// Reads into the front of the room. What it leaves in the rest of the room isn't said.
    fn read(&mut self, room: &mut [u8]) -> Got
        requires { 0 < length room.old }
        ensures bytes { Read (stream self.old) (stream self.new) room.new result }
        ensures cause { HasCause (faults self.old) (faults self.new) (has_got_failed result) };
}
