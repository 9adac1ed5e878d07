// A door in memory.
ghost use Rattle.std.specs.Prelude.{◌≡◌, [], false, true, All, IfOk, Some};
ghost use Rattle.hsm_io.specs.Outside.{HasCause};
ghost use Rattle.hsm_io.specs.Connections.{has_came_failed, Comes, IsNew, IsOutAfter, TakesBack, Breaks};

use crate::listed::names_call;
use crate::{Came, Door, MemLink};
use std::alloc::{AllocError, Global};
use std::collections::VecDeque;
use std::marker::Model;

/// A door that gives its links in order, keeps those that are taken back, and fails the listed calls of `next`.
#[derive(Drop)]
pub struct MemDoor {
    to_come: VecDeque<MemLink>,
    bad_nexts: Vec<u32>,
    // The number of the next call of `next`.
    calls: u64,
    faults: u64,
    is_out: bool,
    // It has a place for each link that is to come or out.
    taken: Vec<MemLink>,
    broken: u64,
}

impl Model for MemDoor {
    ghost use Rattle.std.specs.Prelude.{◌≤◌, ◌+◌, All, length, vec_capacity, if◌then◌else◌};
    ghost use Rattle.hsm_io.specs.MemoryLinks.{DoorState, IsUntouched};

    ghost Value = { DoorState };

    ghost view = { λ s. record {
      to_come = s.to_come.items;
      bad_nexts = s.bad_nexts.items;
      calls = s.calls;
      faults = s.faults;
      is_out = s.is_out;
      taken = s.taken.items;
      broken = s.broken;
    } };

    ghost invariant = { λ s. All IsUntouched s.to_come.items
        × (length s.to_come.items + (if s.is_out then 1 else 0) + length s.taken.items ≤ vec_capacity s.taken) };
}

impl MemDoor {
    ghost use Rattle.hsm_io.specs.MemoryLinks.{IsUntouched};

    /// A door with these links to come, of which none is out. The room for those that are taken back is taken here. It
    /// fails the listed calls of `next`, numbered from 0.
    pub fn new(
        alloc: Global,
        links: Vec<MemLink>,
        bad_nexts: Vec<u32>,
    ) -> Result<MemDoor, AllocError>
        // Of each link nothing was read or written, and it has not failed.
        requires { All IsUntouched links.items }
        ensures { IfOk result (λ door. door ≡ record {
          to_come = links.items;
          bad_nexts = bad_nexts.items;
          calls = 0;
          faults = 0;
          is_out = false;
          taken = [];
          broken = 0;
        }) }
    {
        let taken = Vec::with_capacity(alloc, links.len())?;
        Ok(MemDoor {
            to_come: VecDeque::from(links),
            bad_nexts,
            calls: 0,
            faults: 0,
            is_out: false,
            taken,
            broken: 0,
        })
    }

    /// The links that were taken back, in order.
    pub fn taken(&self) -> &[MemLink]
        ensures { result.now ≡ self.now.taken }
    {
        self.taken.as_slice()
    }
}

impl Door for MemDoor {
    type Link = MemLink;

    ghost use Rattle.hsm_io.specs.MemoryLinks.{traffic_of, faults_of, doorway_of, came_of, after_next, after_done};

    ghost doorway = { λ door. Some (doorway_of door) };

    ghost faults = { λ door. door.faults };

    ghost is_out = { λ door. door.is_out };

    ghost broken = { λ door. door.broken };

    fn next(&mut self) -> Came<MemLink>
        requires { self.old.is_out ≡ false }
        ensures comes { Comes (Some (doorway_of self.old)) (Some (doorway_of self.new)) (λ link. Some (traffic_of link)) result }
        ensures new { IsNew (λ link. Some (traffic_of link)) faults_of result }
        ensures out { IsOutAfter self.new.is_out result }
        ensures broken { self.new.broken ≡ self.old.broken }
        ensures cause { HasCause self.old.faults self.new.faults (has_came_failed result) }
        ensures answer { result ≡ came_of self.old }
        ensures after { self.new ≡ after_next self.old result }
    {
        let bad = names_call(&self.bad_nexts, self.calls);
        self.calls = self.calls.saturating_add(1);
        if bad {
            self.faults = self.faults.saturating_add(1);
            return Came::Failed;
        }
        let Some(link) = self.to_come.pop_front() else {
            return Came::End;
        };
        self.is_out = true;
        Came::Link(link)
    }

    fn done(&mut self, link: MemLink)
        requires { self.old.is_out ≡ true }
        ensures taken { TakesBack (Some (doorway_of self.old)) (Some (doorway_of self.new)) (Some (traffic_of link)) (faults_of link) }
        ensures out { self.new.is_out ≡ false }
        ensures broken { Breaks self.old.broken self.new.broken (faults_of link) }
        ensures faults { self.new.faults ≡ self.old.faults }
        ensures after { self.new ≡ after_done self.old link }
    {
        if link.has_failed() {
            self.broken = self.broken.saturating_add(1);
        }
        self.is_out = false;
        match self.taken.push(link) {
            Ok(()) => {}
            Err(_) => unreachable!(),
        }
    }
}
