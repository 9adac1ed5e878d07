//! What follows from the definitions of a history.
ghost use Rattle.std.specs.Prelude.{◌≡◌, ℕ, ◌<◌, ◌^◌, true, List, length, slice_get, Some, All, Contains};
ghost use Rattle.hsm_auth.specs.declared.activity.Activity.{Activity};
ghost use Rattle.hsm_auth.specs.declared.entry.Entry.{Entry};
ghost use Rattle.hsm_auth.specs.declared.entry.Grant.{Grant};
ghost use Rattle.hsm_auth.specs.Activities.{covers};
ghost use Rattle.hsm_auth.specs.History.{live, is_met};
ghost use Rattle.hsm_auth.specs.Grants.{IsLive};
ghost use Rattle.hsm_auth.specs.Own.{own, own_total, MadeBelow};

use crate::entry::{MAX_GRANTS, MAX_MINUTES, MAX_MOMENT, MAX_NOTES, MAX_WORDS};

/// A grant is live exactly where some entry gave it, no later entry ends it and its end is not come,
/// and a need that is met is covered by such a grant. It does nothing.
pub fn live_grants()
    ensures given { (h : List Entry) (m : ℕ) → All (IsLive h m) (live h m) }
    ensures live { (h : List Entry) (m : ℕ) (g : Grant) → IsLive h m g → Contains (live h m) g }
    ensures met { (h : List Entry) (m : ℕ) (need : Activity) → is_met (Some need) (live h m) ≡ true → (g : Grant) × IsLive h m g × (covers g.activity need ≡ true) }
{}

/// The own entries of a pass are just the entries of its number, each with its place, and their places ascend.
/// Where the passes of the numbers 0 to k - 1 made all entries, their own entries together are as many as all entries.
/// It does nothing.
pub fn own_entries()
    ensures there { (n : ℕ) (h : List Entry) (j place : ℕ) (e : Entry) → slice_get (own n h) j ≡ Some (place, e) → (slice_get h place ≡ Some e) × (e.pass ≡ n) }
    ensures every { (n : ℕ) (h : List Entry) (place : ℕ) (e : Entry) → slice_get h place ≡ Some e → e.pass ≡ n → (j : ℕ) × (slice_get (own n h) j ≡ Some (place, e)) }
    ensures ascends { (n : ℕ) (h : List Entry) (i j : ℕ) (p q : ℕ × Entry) → i < j → slice_get (own n h) i ≡ Some p → slice_get (own n h) j ≡ Some q → p.0 < q.0 }
    ensures total { (k : ℕ) (h : List Entry) → MadeBelow k h → length h ≡ own_total k h }
{}

/// The limits that callers test are those that the definitions of a history write out. It does nothing.
pub fn limits()
    ensures grants { MAX_GRANTS ≡ 32 }
    ensures minutes { MAX_MINUTES ≡ 720 }
    ensures words { MAX_WORDS ≡ 12 }
    ensures moment { MAX_MOMENT ≡ 2 ^ 40 }
    ensures notes { MAX_NOTES ≡ 16 }
{}
