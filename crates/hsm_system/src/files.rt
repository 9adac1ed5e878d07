//! A file of the system as a source, and a writer as the output. They tell their counts alone.

ghost use Rattle.std.specs.Prelude.{◌≡◌, ◌<◌, length, None, nat_lt};
ghost use Rattle.hsm_io.specs.Outside.{HasCause, Read, Write, has_got_failed, has_put_failed};
ghost use Rattle.hsm_system.specs.Inside.{reader_of, writer_of};
ghost use Rattle.hsm_system.specs.Told.{TellsRead, TellsWrite};

use hsm_io::{Got, Put, Sink, Source};
use std::io;

/// A file of the system, or another reader, with a count of its failed reads.
#[derive(Drop)]
pub struct SystemFile<R> {
    reader: R,
    faults: u64,
}

impl<R> SystemFile<R> {
    /// A file that has not failed.
    pub fn new(reader: R) -> Self
        ensures reader { reader_of result ≡ reader }
        ensures no_fault { result.faults ≡ 0 }
    {
        SystemFile { reader, faults: 0 }
    }

    /// Whether a read has failed.
    pub fn has_failed(&self) -> bool
        ensures { result ≡ nat_lt 0 self.now.faults }
    {
        self.faults > 0
    }
}

impl<R: io::Read> Source for SystemFile<R> {
    ghost stream = { λ file. None };

    ghost faults = { λ file. file.faults };

    fn read(&mut self, room: &mut [u8]) -> Got
        requires { 0 < length room.old }
        ensures bytes { Read None None room.new result }
        ensures cause { HasCause self.old.faults self.new.faults (has_got_failed result) }
        ensures told { TellsRead (R.remaining (reader_of self.old)) (R.remaining (reader_of self.new)) room.new result }
    {
        match self.reader.read(room) {
            Ok(0) => Got::End,
            Ok(count) => Got::Bytes(count),
            Err(_) => {
                self.faults = self.faults.saturating_add(1);
                Got::Failed
            }
        }
    }
}

/// The output, over a writer, with a count of its failed writes. A write that takes nothing of a piece has failed.
#[derive(Drop)]
pub struct Output<W> {
    writer: W,
    faults: u64,
}

impl<W> Output<W> {
    /// An output that has not failed.
    pub fn new(writer: W) -> Self
        ensures { writer_of result ≡ writer }
    {
        Output { writer, faults: 0 }
    }
}

impl<W: io::Write> Sink for Output<W> {
    ghost stands_for = { λ output text. Unit {0} };

    ghost faults = { λ output. output.faults };

    fn write(&mut self, piece: &[u8]) -> Put
        requires { 0 < length piece.now }
        ensures bytes { Write (λ text. Unit {0}) (λ text. Unit {0}) piece.now result }
        ensures cause { HasCause self.old.faults self.new.faults (has_put_failed result) }
        ensures told { TellsWrite (W.contents (writer_of self.old)) (W.contents (writer_of self.new)) piece.now result }
    {
        match self.writer.write(piece) {
            Ok(count) if count > 0 => Put::Took(count),
            _ => {
                self.faults = self.faults.saturating_add(1);
                Put::Failed
            }
        }
    }
}
