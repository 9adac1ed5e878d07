// The clock.
ghost use Rattle.std.specs.Prelude.{◌≡◌, ◌≤◌, ◌<◌, ◌^◌, ℕ, List, length, Option, Some};
ghost use Rattle.hsm_io.specs.Moments.{tick, after_now};

/// A clock, which never fails. Its moments are in seconds.
pub trait Clock {
    /// The moment that it gave last.
    ghost last: { Self → ℕ };

    /// The moments to come, where told.
    ghost to_come: { Self → Option (List ℕ) };

    /// Gives the first moment to come, and removes it unless it is the only one.
    fn now(&mut self) -> u64
        ensures limit { result ≤ 2 ^ 40 }
        ensures last { last self.new ≡ result }
        ensures some_to_come { (c : List ℕ) → to_come self.old ≡ Some c → 0 < length c }
        ensures told { (c : List ℕ) → to_come self.old ≡ Some c →
            (result ≡ tick c 0) × (to_come self.new ≡ Some (after_now c)) };
}
