//! A step of the ledger's state.
ghost use Rattle.std.specs.Prelude.{◌≡◌, false, ℕ, ◌+◌, ◌%◌, ◌^◌, ◌<◌, ◌≤◌, List, [], ◌∷◌, ◌++◌, IfOk, length, filter, if◌then◌else◌, ◌==◌, not};
ghost use Rattle.std.specs.List.{list_any};
ghost use Rattle.hsm_auth.specs.declared.entry.Ask.TheVariants.{Use, Authorise, Cancel, CancelAll, Look, Recent};
ghost use Rattle.hsm_auth.specs.declared.entry.Entry.{Entry};
ghost use Rattle.hsm_auth.specs.Activities.{same_activity, covers};
ghost use Rattle.hsm_auth.specs.History.{entry, outcome, CanAsk, IsLegal, StandsFor, lasts, end_of, is_met, are_met, kind_of, is_good, other_count};
ghost use Rattle.hsm_auth.specs.Steps.{view_of, ComesTo, Answers, Notes, drawn_answer, is_use_ask};

use crate::activity::{Activity, covers};
use crate::entry::{Ask, Grant, Granted, Kind, MAX_GRANTS, MAX_NOTES, Needs, Note};
use crate::state::State;
use arrayvec::ArrayVec;
use circular_buffer::HeapCircularBuffer;
use std::alloc::{AllocError, Global};

// Random places and numbers are kept modulo this.
const MODULUS: u64 = 1 << 63;

impl Grant {
    fn lasts(&self, moment: u64) -> bool
        ensures { result ≡ lasts moment self.now }
    {
        self.end == 0 || moment < self.end
    }
}

fn end_of(moment: u64, minutes: u16) -> u64
    requires { moment ≤ 2 ^ 40 }
    ensures { result ≡ end_of moment minutes }
{
    if minutes == 0 {
        0
    } else {
        moment + 60 * u64::from(minutes)
    }
}

fn expire(grants: &mut ArrayVec<Grant, MAX_GRANTS>, moment: u64)
    ensures { grants.new.items ≡ filter (lasts moment) grants.old.items }
{
    grants.retain(|grant| grant.lasts(moment));
}

fn remove(grants: &mut ArrayVec<Grant, MAX_GRANTS>, activity: &Activity)
    ensures { grants.new.items ≡ filter (λ g. not (same_activity activity.now g.activity)) grants.old.items }
{
    grants.retain(|grant| !activity.is(&grant.activity));
}

fn count_others(grants: &[Grant], activity: &Activity) -> usize
    ensures { result ≡ other_count activity.now grants.now }
{
    grants
        .iter()
        .filter(|grant| !activity.is(&grant.activity))
        .count()
}

fn is_covered(need: &Activity, grants: &[Grant]) -> bool
    ensures { result ≡ list_any (λ g. covers g.activity need.now) grants.now }
{
    grants.iter().any(|grant| covers(&grant.activity, need))
}

fn is_met(need: &Option<Activity>, grants: &[Grant]) -> bool
    ensures { result ≡ is_met need.now grants.now }
{
    match need {
        None => true,
        Some(need) => is_covered(need, grants),
    }
}

fn copied_grants(grants: &ArrayVec<Grant, MAX_GRANTS>) -> ArrayVec<Grant, MAX_GRANTS>
    ensures { result.items ≡ grants.now.items }
{
    let mut list = ArrayVec::new();
    let _ = list.try_extend_from_slice(grants.as_slice());
    list
}

fn copied_notes(notes: &HeapCircularBuffer<Note>) -> ArrayVec<Note, MAX_NOTES>
    requires { notes.now.capacity ≡ MAX_NOTES }
    ensures { result.items ≡ notes.now.items }
{
    prove!(notes.len() <= MAX_NOTES);
    let (front, back) = notes.as_slices();
    let mut list = ArrayVec::new();
    let _ = list.try_extend_from_slice(front);
    let _ = list.try_extend_from_slice(back);
    list
}

impl Needs {
    fn are_met(&self, grants: &[Grant]) -> bool
        ensures { result ≡ are_met self.now grants.now }
    {
        is_met(&self.first, grants) && is_met(&self.second, grants)
    }
}

impl Ask {
    fn kind(&self) -> Kind
        ensures { result ≡ kind_of self.now }
    {
        match self {
            Ask::Use { .. } => Kind::Use,
            Ask::Authorise { .. } => Kind::Authorise,
            Ask::Cancel { .. } => Kind::Cancel,
            Ask::CancelAll => Kind::CancelAll,
            Ask::Look => Kind::Look,
            Ask::Recent => Kind::Recent,
        }
    }
}

impl Granted {
    fn is_good(&self) -> bool
        ensures { result ≡ is_good self.now }
    {
        !matches!(self, Granted::Refused | Granted::Full)
    }
}

impl State {
    /// The state of the empty history. Want of memory is the one refusal.
    pub(crate) fn new(alloc: Global) -> Result<State, AllocError>
        ensures { IfOk result (λ s. StandsFor (view_of s) []) }
    {
        Ok(State {
            moment: 0,
            grants: ArrayVec::new(),
            place: 0,
            number: 0,
            notes: HeapCircularBuffer::with_capacity(alloc, MAX_NOTES)?,
        })
    }

    /// Makes one entry, and puts its answer in the place of `granted`.
    pub(crate) fn step(&mut self, moment: u64, ask: &Ask, granted: &mut Granted)
        requires moment { moment ≤ 2 ^ 40 }
        requires ask { CanAsk ask.now }
        ensures answer { (h : List Entry) → StandsFor (view_of self.old) h → granted.new ≡ outcome h moment ask.now }
        ensures stands { (h : List Entry) (pass : ℕ) → StandsFor (view_of self.old) h → StandsFor (view_of self.new) (h ++ entry pass moment ask.now granted.new ∷ []) }
        ensures legal { (h : List Entry) (pass : ℕ) → StandsFor (view_of self.old) h → IsLegal h → IsLegal (h ++ entry pass moment ask.now granted.new ∷ []) }
    {
        self.come_to(moment);
        // most asks are these: the answer, which is large, is made in its place
        if let Ask::Use { needs, words } = ask {
            let drawn = self.draw(needs, *words);
            self.note(Kind::Use, drawn.is_some());
            match drawn {
                Some(first) => *granted = Granted::Use { first },
                None => *granted = Granted::Refused,
            }
            return;
        }
        self.answer(ask, granted);
        self.note(ask.kind(), granted.is_good());
    }

    fn come_to(&mut self, moment: u64)
        requires { moment ≤ 2 ^ 40 }
        ensures { ComesTo moment self.old self.new }
    {
        self.moment = self.moment.max(moment);
        expire(&mut self.grants, self.moment);
    }

    fn note(&mut self, kind: Kind, good: bool)
        ensures { Notes kind good self.old self.new }
    {
        self.notes.push_back(Note {
            number: self.number,
            moment: self.moment,
            kind,
            good,
        });
        self.number = (self.number + 1) % MODULUS;
    }

    // Answers an ask that isn't `Use`. In `step` it would make room for all its answers at each ask.
    #[inline(never)]
    fn answer(&mut self, ask: &Ask, granted: &mut Granted)
        requires { is_use_ask ask.now ≡ false }
        ensures { Answers ask.now granted.new self.old self.new }
    {
        *granted = match ask {
            Ask::Use { .. } => unreachable!(),
            Ask::Authorise { activity, minutes } => self.authorise(activity, *minutes),
            Ask::Cancel { activity } => self.cancel(activity),
            Ask::CancelAll => self.cancel_all(),
            Ask::Look => self.look(),
            Ask::Recent => self.recent(),
        };
    }

    // The place at which the words begin, or none where a need isn't met.
    fn draw(&mut self, needs: &Needs, words: u16) -> Option<u64>
        ensures { Answers (Use needs.now words) (drawn_answer result) self.old self.new }
    {
        if !needs.are_met(&self.grants) {
            return None;
        }
        let first = self.place;
        self.place = (first + u64::from(words)) % MODULUS;
        Some(first)
    }

    fn authorise(&mut self, activity: &Activity, minutes: u16) -> Granted
        ensures { Answers (Authorise activity.now minutes) result self.old self.new }
    {
        if MAX_GRANTS <= count_others(&self.grants, activity) {
            return Granted::Full;
        }
        remove(&mut self.grants, activity);
        self.grants.push(Grant {
            activity: *activity,
            end: end_of(self.moment, minutes),
        });
        Granted::Authorised
    }

    fn cancel(&mut self, activity: &Activity) -> Granted
        ensures { Answers (Cancel activity.now) result self.old self.new }
    {
        let before = self.grants.len();
        remove(&mut self.grants, activity);
        Granted::Cancelled {
            count: (before - self.grants.len()) as u8,
        }
    }

    fn cancel_all(&mut self) -> Granted
        ensures { Answers CancelAll result self.old self.new }
    {
        let count = self.grants.len() as u8;
        self.grants.clear();
        Granted::Cancelled { count }
    }

    fn look(&self) -> Granted
        ensures { Answers Look result self.now self.now }
    {
        Granted::Seen {
            moment: self.moment,
            place: self.place,
            grants: copied_grants(&self.grants),
        }
    }

    fn recent(&self) -> Granted
        ensures { Answers Recent result self.now self.now }
    {
        Granted::Recent {
            notes: copied_notes(&self.notes),
        }
    }
}
