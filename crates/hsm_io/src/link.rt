// A connection: bytes are read from it and written to it.
ghost use Rattle.std.specs.Prelude.{◌<◌, ℕ, Bool, true, false, length, Option};
ghost use Rattle.hsm_io.specs.Outside.{HasCause, has_got_failed, has_put_failed};
ghost use Rattle.hsm_io.specs.Connections.{Traffic, ReadLink, WriteLink, LastFailed};

use crate::{Got, Put};

/// A connection with one count of faults for both directions.
pub trait Link {
    /// The bytes read, the bytes left to read and the bytes written, where told.
    ghost traffic: { Self → Option Traffic };

    /// How often a call has failed.
    ghost faults: { Self → ℕ };

    /// Whether the last failed call was a read.
    ghost last_was_read: { Self → Bool };

    /// Reads into the front of the room. What it leaves in the rest of the room isn't said.
    fn read(&mut self, room: &mut [u8]) -> Got
        requires { 0 < length room.old }
        ensures bytes { ReadLink (traffic self.old) (traffic self.new) room.new result }
        ensures cause { HasCause (faults self.old) (faults self.new) (has_got_failed result) }
        ensures last { LastFailed true (last_was_read self.old) (last_was_read self.new) (has_got_failed result) };

    /// Writes a part from the front of the piece.
    fn write(&mut self, piece: &[u8]) -> Put
        requires { 0 < length piece.now }
        ensures bytes { WriteLink (traffic self.old) (traffic self.new) piece.now result }
        ensures cause { HasCause (faults self.old) (faults self.new) (has_put_failed result) }
        ensures last { LastFailed false (last_was_read self.old) (last_was_read self.new) (has_put_failed result) };
}
