//! Asks, their answers, and the entries of a history.
use crate::activity::Activity;
use arrayvec::ArrayVec;

/// How many grants of other activities may live beside one that is given, and how many a ledger holds.
pub const MAX_GRANTS: usize = 32;

/// The longest that a grant may last, in minutes.
pub const MAX_MINUTES: u16 = 720;

/// The most random words that one entry draws.
pub const MAX_WORDS: u16 = 12;

/// The latest moment, in seconds.
pub const MAX_MOMENT: u64 = 1 << 40;

/// How many notes are kept.
pub const MAX_NOTES: usize = 16;

/// An activity that officers allowed, and the moment at which it ends. The end 0 means until it is cancelled.
#[derive(Clone, Copy, Debug, Default, PartialEq, Eq)]
pub struct Grant {
    pub activity: Activity,
    pub end: u64,
}

/// The activities that live grants must cover.
#[derive(Clone, Copy, Debug, Default, PartialEq, Eq)]
pub struct Needs {
    pub first: Option<Activity>,
    pub second: Option<Activity>,
}

/// What was asked in an entry.
#[derive(Clone, Copy, Debug, Default, PartialEq, Eq)]
pub enum Kind {
    #[default]
    Use,
    Authorise,
    Cancel,
    CancelAll,
    Look,
    Recent,
}

/// What is kept of an entry for a while: how many entries stood before it modulo `2^63`, the ledger's moment then,
/// what was asked, and whether it was not refused.
#[derive(Clone, Copy, Debug, Default, PartialEq, Eq)]
pub struct Note {
    pub number: u64,
    pub moment: u64,
    pub kind: Kind,
    pub good: bool,
}

/// What is asked of the ledger. `Use` without needs and words is the empty ask.
#[derive(Clone, Copy, Debug, PartialEq, Eq)]
pub enum Ask {
    /// To act under grants that cover the needs, and to draw so many random words.
    Use { needs: Needs, words: u16 },
    /// To allow the activity for so many minutes, with 0 until it is cancelled.
    Authorise { activity: Activity, minutes: u16 },
    /// To end the grant of just this activity.
    Cancel { activity: Activity },
    /// To end all grants.
    CancelAll,
    /// To see moment, random place and live grants.
    Look,
    /// To see the last notes.
    Recent,
}

/// What the ledger answers. `Refused` and `Full` are refusals.
#[derive(Debug, Drop, PartialEq, Eq)]
pub enum Granted {
    /// The random words begin at this place.
    Use {
        first: u64,
    },
    /// A need is covered by no live grant.
    Refused,
    Authorised,
    /// `MAX_GRANTS` grants of other activities live.
    Full,
    /// So many live grants were ended.
    Cancelled {
        count: u8,
    },
    Seen {
        moment: u64,
        place: u64,
        grants: ArrayVec<Grant, MAX_GRANTS>,
    },
    /// The last notes, the oldest first.
    Recent {
        notes: ArrayVec<Note, MAX_NOTES>,
    },
}

/// One entry of a history. The pass is the number of the pass that made it, the moment is what the clock gave,
/// also where an earlier entry has a later one.
#[derive(Debug, Drop, PartialEq, Eq)]
pub struct Entry {
    pub pass: u64,
    pub moment: u64,
    pub ask: Ask,
    pub granted: Granted,
}
