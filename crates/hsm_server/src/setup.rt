//! How a lane is made, and how it is taken apart.
ghost use Rattle.std.specs.Prelude.{◌≡◌, [], false, IfOk, IfErr, Some};
ghost use Rattle.hsm_io.specs.Connections.{Doorway};
ghost use Rattle.hsm_lmk.specs.Caches.{capacity_of, kept_in};
ghost use Rattle.hsm_server.specs.Lanes.{nothing_kept};

use crate::lane::{Lane, LaneEnd};
use crate::state::HasState;
use arrayvec::ArrayVec;
use hsm_desk::{Booked, Pass};
use hsm_frame::Frames;
use hsm_io::{Clock, Door, Gate};
use hsm_lmk::KeyCache;
use hsm_session::Tools;
use hsm_text::Reply;
use std::alloc::Global;
use std::array;

impl<D: Door + Send + Drop, C: Clock + Send + Drop, G: Gate + Send + Drop> Lane<D, C, G> {
    /// A lane that served no connection yet. All its memory is taken here: the frames, places for as many reports as it
    /// accepts connections, and a cache of 64 opened keys. Want of memory is the one refusal. It hands the pass back, and
    /// drops the rest.
    pub fn new(
        alloc: Global,
        number: u32,
        least: u16,
        accept: u16,
        pass: Pass,
        door: D,
        clock: C,
        gate: G,
    ) -> Result<Lane<D, C, G>, Pass>
        requires none_out { D.is_out door ≡ false }
        // Where the door tells, no connection was taken back.
        requires none_taken { (d : Doorway) → D.doorway door ≡ Some d → d.taken ≡ [] }
        ensures made { IfOk result (λ lane. ⟦<Lane<D, C, G> as HasState>⟧.state lane ≡ record {
          number = number;
          accept = accept;
          least = least;
          pass = pass;
          last = C.last clock;
          moments = C.to_come clock;
          calls = G.calls gate;
          cache = lane.tools.cache;
          doorway = D.doorway door;
          faults = D.faults door;
          broken = D.broken door;
          is_out = false;
          reports = [];
          door_fault = false;
        }) }
        ensures capacity { IfOk result (λ lane. capacity_of lane.tools.cache ≡ 64) }
        ensures no_key { IfOk result (λ lane. kept_in lane.tools.cache ≡ nothing_kept) }
        ensures handed_back { IfErr result (λ given. given ≡ pass) }
    {
        let Ok(frames) = Frames::open(alloc, least) else {
            return Err(pass);
        };
        let Ok(reports) = Vec::with_capacity(alloc, usize::from(accept)) else {
            return Err(pass);
        };
        let Ok(cache) = KeyCache::new(alloc, 64) else {
            return Err(pass);
        };
        Ok(Lane {
            accept,
            tools: Tools {
                pass,
                clock,
                gate,
                room: [0; 4096],
                frames,
                reply: Reply::new(),
                out: ArrayVec::new(),
                lane: number,
                cache,
                booked: array::from_fn(|_| Booked::nothing()),
            },
            door,
            reports,
            door_fault: false,
        })
    }

    /// Hands back the pass and what became of the lane. The clock and the gate are dropped.
    pub fn end(self) -> (Pass, LaneEnd<D>)
        ensures { result ≡ (self.tools.pass, record { door = self.door; reports = self.reports; door_fault = self.door_fault }) }
    {
        let Lane {
            tools,
            door,
            reports,
            door_fault,
            ..
        } = self;
        (
            tools.pass,
            LaneEnd {
                door,
                reports,
                door_fault,
            },
        )
    }
}
