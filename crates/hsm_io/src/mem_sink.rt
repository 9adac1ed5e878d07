// A sink in memory.
ghost use Rattle.std.specs.Prelude.{◌≡◌, ◌<◌, [], length, nat_lt, IfOk};
ghost use Rattle.hsm_io.specs.Outside.{HasCause, Write, has_put_failed};

use crate::listed::names_call;
use crate::{Put, Sink};
use std::alloc::{AllocError, Global};
use std::marker::Model;

/// A sink of fixed room, which keeps what is written to it and fails the listed writes.
#[derive(Drop)]
pub struct MemSink {
    bytes: Vec<u8>,
    room: usize,
    bad_writes: Vec<u32>,
    // The number of the next write.
    calls: u64,
    faults: u64,
}

impl Model for MemSink {
    ghost use Rattle.std.specs.Prelude.{◌≤◌, vec_len, vec_capacity};
    ghost use Rattle.hsm_io.specs.MemoryForms.{SinkState};

    ghost Value = { SinkState };

    ghost view = { λ s. record {
      bytes = s.bytes.items;
      room = s.room;
      bad_writes = s.bad_writes.items;
      calls = s.calls;
      faults = s.faults;
    } };

    ghost invariant = { λ s. (vec_len s.bytes ≤ s.room) × (s.room ≤ vec_capacity s.bytes) };
}

impl MemSink {
    /// A sink that holds nothing and has room for so many bytes, all of which is taken here. It fails the listed
    /// writes, numbered from 0.
    pub fn new(alloc: Global, room: usize, bad_writes: Vec<u32>) -> Result<Self, AllocError>
        ensures { IfOk result (λ sink. sink ≡ record {
          bytes = [];
          room = room;
          bad_writes = bad_writes.items;
          calls = 0;
          faults = 0;
        }) }
    {
        let bytes = Vec::with_capacity(alloc, room)?;
        Ok(MemSink {
            bytes,
            room,
            bad_writes,
            calls: 0,
            faults: 0,
        })
    }

    /// All that was written.
    pub fn bytes(&self) -> &[u8]
        ensures { result.now ≡ self.now.bytes }
    {
        self.bytes.as_slice()
    }

    // Whether a write has failed.
    pub(crate) fn has_failed(&self) -> bool
        ensures { result ≡ nat_lt 0 self.now.faults }
    {
        self.faults > 0
    }
}

impl Sink for MemSink {
    ghost use Rattle.hsm_io.specs.MemoryForms.{put_of, after_write};

    ghost stands_for = { λ sink text. text ≡ sink.bytes };

    ghost faults = { λ sink. sink.faults };

    fn write(&mut self, piece: &[u8]) -> Put
        requires { 0 < length piece.now }
        ensures bytes { Write (λ text. text ≡ self.old.bytes) (λ text. text ≡ self.new.bytes) piece.now result }
        ensures cause { HasCause self.old.faults self.new.faults (has_put_failed result) }
        ensures answer { result ≡ put_of self.old piece.now }
        ensures after { self.new ≡ after_write self.old piece.now result }
    {
        let bad = names_call(&self.bad_writes, self.calls);
        self.calls = self.calls.saturating_add(1);
        if bad || self.room <= self.bytes.len() {
            self.faults = self.faults.saturating_add(1);
            return Put::Failed;
        }
        let count = piece.len().min(self.room - self.bytes.len());
        match self.bytes.extend_from_slice(&piece[..count]) {
            Ok(()) => Put::Took(count),
            Err(_) => unreachable!(),
        }
    }
}
