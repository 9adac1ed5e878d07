// A file in memory.
ghost use Rattle.std.specs.Prelude.{◌≡◌, ◌<◌, ◌≤◌, ◌++◌, length, take, nat_lt, Some};
ghost use Rattle.hsm_io.specs.Stream.{unread};
ghost use Rattle.hsm_io.specs.Outside.{HasCause, Read, has_got_failed};

use crate::listed::names_call;
use crate::{Got, Source};
use std::marker::Model;

/// A file of a memory bench, which fails the listed reads, numbered from 0 since it was opened.
#[derive(Drop)]
pub struct MemFile {
    bytes: Vec<u8>,
    // How many bytes were read.
    at: usize,
    bad_reads: Vec<u32>,
    // The number of the next read.
    calls: u64,
    faults: u64,
}

impl Model for MemFile {
    ghost use Rattle.std.specs.Prelude.{◌≤◌, take, drop, vec_len};
    ghost use Rattle.hsm_io.specs.MemoryForms.{FileState};

    ghost Value = { FileState };

    ghost view = { λ s. record {
      stream = record { was_read = take s.at s.bytes.items; left = drop s.at s.bytes.items };
      bad_reads = s.bad_reads.items;
      calls = s.calls;
      faults = s.faults;
    } };

    ghost invariant = { λ s. s.at ≤ vec_len s.bytes };
}

impl MemFile {
    // A file that was just opened.
    pub(crate) fn opened(bytes: Vec<u8>, bad_reads: Vec<u32>) -> MemFile
        ensures { result ≡ record { stream = unread bytes.items; bad_reads = bad_reads.items; calls = 0; faults = 0 } }
    {
        MemFile {
            bytes,
            at: 0,
            bad_reads,
            calls: 0,
            faults: 0,
        }
    }

    // Whether a read has failed.
    pub(crate) fn has_failed(&self) -> bool
        ensures { result ≡ nat_lt 0 self.now.faults }
    {
        self.faults > 0
    }

    // The bytes read and left, and the reads that fail.
    pub(crate) fn into_parts(self) -> (Vec<u8>, Vec<u32>)
        ensures bytes { result.0.items ≡ self.stream.was_read ++ self.stream.left }
        ensures bad_reads { result.1.items ≡ self.bad_reads }
    {
        (self.bytes, self.bad_reads)
    }
}

impl Source for MemFile {
    ghost use Rattle.hsm_io.specs.MemoryForms.{got_of, after_read};

    ghost stream = { λ file. Some file.stream };

    ghost faults = { λ file. file.faults };

    fn read(&mut self, room: &mut [u8]) -> Got
        requires { 0 < length room.old }
        ensures bytes { Read (Some self.old.stream) (Some self.new.stream) room.new result }
        ensures cause { HasCause self.old.faults self.new.faults (has_got_failed result) }
        ensures answer { result ≡ got_of self.old (length room.old) }
        ensures after { self.new ≡ after_read self.old result }
    {
        let bad = names_call(&self.bad_reads, self.calls);
        self.calls = self.calls.saturating_add(1);
        if bad {
            self.faults = self.faults.saturating_add(1);
            return Got::Failed;
        }
        let left = &self.bytes[self.at..];
        if left.is_empty() {
            return Got::End;
        }
        let count = room.len().min(left.len());
        copy_front(room, &left[..count]);
        self.at += count;
        Got::Bytes(count)
    }
}

// Writes a piece over the front of the room.
fn copy_front(room: &mut [u8], piece: &[u8])
    requires { length piece.now ≤ length room.old }
    ensures front { take (length piece.now) room.new ≡ piece.now }
    ensures len { length room.new ≡ length room.old }
{
    room[..piece.len()].copy_from_slice(piece);
}
