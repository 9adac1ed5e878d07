// A connection in memory.
ghost use Rattle.std.specs.Prelude.{◌≡◌, ◌<◌, [], false, length, nat_lt, IfOk, Some};
ghost use Rattle.hsm_io.specs.Stream.{unread};
ghost use Rattle.hsm_io.specs.Outside.{HasCause, has_got_failed, has_put_failed};
ghost use Rattle.hsm_io.specs.Connections.{ReadLink, WriteLink, LastFailed};

use crate::{Got, Link, MemFile, MemSink, Put, Sink, Source};
use std::alloc::{AllocError, Global};
use std::marker::Model;

/// A connection whose bytes to read are in memory, and which keeps what is written to it. It fails the listed reads and
/// writes, and a write that finds its room full.
#[derive(Drop)]
pub struct MemLink {
    // The bytes to read, of which each read gives at most a chunk.
    input: MemFile,
    chunk: usize,
    // What is written.
    output: MemSink,
    last_was_read: bool,
}

impl Model for MemLink {
    ghost use Rattle.std.specs.Prelude.{◌<◌};
    ghost use Rattle.hsm_io.specs.MemoryLinks.{LinkState};

    ghost Value = { LinkState };

    ghost view = { λ s. record {
      input = s.input;
      chunk = s.chunk;
      output = s.output;
      last_was_read = s.last_was_read;
    } };

    ghost invariant = { λ s. 0 < s.chunk };
}

impl MemLink {
    ghost use Rattle.hsm_io.specs.MemoryLinks.{faults_of};

    /// A connection that will give these bytes, at most a chunk at each read, and has room for so many that are
    /// written, all of which is taken here. It fails the listed reads and the listed writes, each numbered from 0.
    pub fn new(
        alloc: Global,
        input: Vec<u8>,
        chunk: usize,
        room: usize,
        bad_reads: Vec<u32>,
        bad_writes: Vec<u32>,
    ) -> Result<MemLink, AllocError>
        requires { 0 < chunk }
        ensures { IfOk result (λ link. link ≡ record {
          input = record { stream = unread input.items; bad_reads = bad_reads.items; calls = 0; faults = 0 };
          chunk = chunk;
          output = record { bytes = []; room = room; bad_writes = bad_writes.items; calls = 0; faults = 0 };
          last_was_read = false;
        }) }
    {
        let output = MemSink::new(alloc, room, bad_writes)?;
        Ok(MemLink {
            input: MemFile::opened(input, bad_reads),
            chunk,
            output,
            last_was_read: false,
        })
    }

    /// All that was written.
    pub fn written(&self) -> &[u8]
        ensures { result.now ≡ self.now.output.bytes }
    {
        self.output.bytes()
    }

    // Whether a read or a write has failed.
    pub(crate) fn has_failed(&self) -> bool
        ensures { result ≡ nat_lt 0 (faults_of self.now) }
    {
        self.input.has_failed() || self.output.has_failed()
    }
}

impl Link for MemLink {
    ghost use Rattle.std.specs.Prelude.{true};
    ghost use Rattle.hsm_io.specs.MemoryLinks.{traffic_of, faults_of, link_got_of, after_link_read, link_put_of, after_link_write};

    ghost traffic = { λ link. Some (traffic_of link) };

    ghost faults = { faults_of };

    ghost last_was_read = { λ link. link.last_was_read };

    fn read(&mut self, room: &mut [u8]) -> Got
        requires { 0 < length room.old }
        ensures bytes { ReadLink (Some (traffic_of self.old)) (Some (traffic_of self.new)) room.new result }
        ensures cause { HasCause (faults_of self.old) (faults_of self.new) (has_got_failed result) }
        ensures last { LastFailed true self.old.last_was_read self.new.last_was_read (has_got_failed result) }
        ensures answer { result ≡ link_got_of self.old (length room.old) }
        ensures after { self.new ≡ after_link_read self.old result }
    {
        let most = room.len().min(self.chunk);
        let got = self.input.read(&mut room[..most]);
        if got == Got::Failed {
            self.last_was_read = true;
        }
        got
    }

    fn write(&mut self, piece: &[u8]) -> Put
        requires { 0 < length piece.now }
        ensures bytes { WriteLink (Some (traffic_of self.old)) (Some (traffic_of self.new)) piece.now result }
        ensures cause { HasCause (faults_of self.old) (faults_of self.new) (has_put_failed result) }
        ensures last { LastFailed false self.old.last_was_read self.new.last_was_read (has_put_failed result) }
        ensures answer { result ≡ link_put_of self.old piece.now }
        ensures after { self.new ≡ after_link_write self.old piece.now result }
    {
        let put = self.output.write(piece);
        if put == Put::Failed {
            self.last_was_read = false;
        }
        put
    }
}
