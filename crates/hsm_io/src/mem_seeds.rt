// The seed of a bench in memory.
ghost use Rattle.std.specs.Prelude.{◌≡◌, ◌≤◌, []};

use crate::listed::names_call;
use std::marker::Model;

// One seed. It fails the listed calls.
#[derive(Drop)]
pub(crate) struct MemSeeds {
    seed: [u8; 32],
    bad_seeds: Vec<u32>,
    // The number of the next call.
    calls: u64,
    faults: u64,
    // How often the seed was given.
    given: u64,
    // The seed, once it was given.
    last: Option<[u8; 32]>,
}

impl Model for MemSeeds {
    ghost use Rattle.std.specs.Prelude.{[], unwrap_or};
    ghost use Rattle.hsm_io.specs.MemoryBench.{SeedState};

    ghost Value = { SeedState };

    ghost view = { λ s. record {
      seed = s.seed;
      bad_seeds = s.bad_seeds.items;
      calls = s.calls;
      faults = s.faults;
      given = s.given;
      last_seed = unwrap_or s.last [];
    } };
}

impl MemSeeds {
    ghost use Rattle.hsm_io.specs.MemoryBench.{seed_of, after_seed};

    // The seed, of which the listed calls fail, numbered from 0.
    pub(crate) fn new(seed: [u8; 32], bad_seeds: Vec<u32>) -> MemSeeds
        ensures { result ≡ record { seed = seed; bad_seeds = bad_seeds.items; calls = 0; faults = 0; given = 0; last_seed = [] } }
    {
        MemSeeds {
            seed,
            bad_seeds,
            calls: 0,
            faults: 0,
            given: 0,
            last: None,
        }
    }

    // Gives the seed.
    pub(crate) fn give(&mut self) -> Option<[u8; 32]>
        ensures later { self.old.faults ≤ self.new.faults }
        ensures answer { result ≡ seed_of self.old }
        ensures after { self.new ≡ after_seed self.old result }
    {
        let bad = names_call(&self.bad_seeds, self.calls);
        self.calls = self.calls.saturating_add(1);
        if bad {
            self.faults = self.faults.saturating_add(1);
            return None;
        }
        self.given = self.given.saturating_add(1);
        self.last = Some(self.seed);
        Some(self.seed)
    }
}
