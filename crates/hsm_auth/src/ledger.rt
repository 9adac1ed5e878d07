//! The ledger, which always stands for some history.
ghost use Rattle.std.specs.Prelude.{◌≡◌, ℕ, ◌≤◌, ◌^◌, List, [], ◌∷◌, ◌++◌, IfOk};
ghost use Rattle.hsm_auth.specs.declared.entry.Entry.{Entry};
ghost use Rattle.hsm_auth.specs.History.{entry, outcome, CanAsk, IsLegal, StandsFor, IsKnown};

use crate::entry::{Ask, Granted};
use crate::state::State;
use std::alloc::{AllocError, Global};
use std::marker::Model;

/// What a history of entries comes to: its latest moment, the live grants, the place of the next random word,
/// the number of entries and the last notes. Clauses say for which history it stands.
#[derive(Drop)]
pub struct Ledger {
    state: State,
}

impl Model for Ledger {
    ghost use Rattle.hsm_auth.specs.Ledgers.{LedgerView};

    ghost Value = { LedgerView };

    ghost use Rattle.hsm_auth.specs.History.{IsKnown};
    ghost use Rattle.hsm_auth.specs.Steps.{view_of};

    ghost view = { λ l. view_of l.state };

    ghost invariant = { λ l. IsKnown (view_of l.state) };
}

impl Ledger {
    /// The ledger of the empty history: moment 0, no grants, random place 0, number 0, no notes.
    /// Want of memory is the one refusal.
    pub fn new(alloc: Global) -> Result<Ledger, AllocError>
        ensures { IfOk result (λ l. StandsFor l []) }
    {
        let state = State::new(alloc)?;
        Ok(Ledger { state })
    }

    /// Tells that the ledger stands for some history. It does nothing.
    pub fn facts(&self)
        ensures known { IsKnown self.now }
    {
        let _ = &self.state;
    }

    /// Makes one entry: takes the moment, in seconds, drops the grants whose end is come, answers the ask and notes it.
    /// It takes no memory. `Refused` comes exactly where the ask is `Use` and a need is covered by no live grant,
    /// `Full` exactly where it is `Authorise` and `MAX_GRANTS` grants of other activities live.
    /// After a refusal the moment is taken and the note made all the same.
    pub fn step(&mut self, moment: u64, ask: &Ask) -> Granted
        requires moment { moment ≤ 2 ^ 40 }
        requires ask { CanAsk ask.now }
        ensures answer { (h : List Entry) → StandsFor self.old h → result ≡ outcome h moment ask.now }
        ensures stands { (h : List Entry) (pass : ℕ) → StandsFor self.old h → StandsFor self.new (h ++ entry pass moment ask.now result ∷ []) }
        ensures legal { (h : List Entry) (pass : ℕ) → StandsFor self.old h → IsLegal h → IsLegal (h ++ entry pass moment ask.now result ∷ []) }
    {
        let mut granted = Granted::Refused;
        self.step_into(moment, ask, &mut granted);
        granted
    }

    /// [`Ledger::step`] with the answer put in the place of `granted`: an answer has 544 bytes, which are then moved nowhere.
    pub fn step_into(&mut self, moment: u64, ask: &Ask, granted: &mut Granted)
        requires moment { moment ≤ 2 ^ 40 }
        requires ask { CanAsk ask.now }
        ensures answer { (h : List Entry) → StandsFor self.old h → granted.new ≡ outcome h moment ask.now }
        ensures stands { (h : List Entry) (pass : ℕ) → StandsFor self.old h → StandsFor self.new (h ++ entry pass moment ask.now granted.new ∷ []) }
        ensures legal { (h : List Entry) (pass : ℕ) → StandsFor self.old h → IsLegal h → IsLegal (h ++ entry pass moment ask.now granted.new ∷ []) }
    {
        self.state.step(moment, ask, granted);
    }
}
