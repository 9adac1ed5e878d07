//! The desk and its passes.
//!
//! A booking draws a ticket, waits until it is served, takes the ledger, asks the clock, makes its entry, puts the ledger
//! back and passes the turn on. A lock round the bookings of a call lets the threads that wait sleep.
ghost use Rattle.std.specs.Prelude.{◌≡◌, ℕ, ◌^◌, ◌<◌, ◌≤◌, List, [], ◌∷◌, ◌++◌, length, All, IfOk};
ghost use Rattle.hsm_auth.specs.declared.entry.Entry.{Entry};
ghost use Rattle.hsm_auth.specs.declared.entry.Granted.TheVariants.{Refused};
ghost use Rattle.hsm_auth.specs.History.{entry, outcome, CanAsk, StandsFor, IsLegal};
ghost use Rattle.hsm_io.specs.Moments.{tick, after_now};
ghost use Rattle.hsm_desk.specs.declared.view.Stage.TheVariants.{Idle, Waiting, Turn};
ghost use Rattle.hsm_desk.specs.Kin.{IsCons, Owns};
ghost use Rattle.hsm_desk.specs.Rule.{knowing, viewed, Takes, Has, entry_by};
ghost use Rattle.hsm_auth.specs.Own.{own};
ghost use Rattle.hsm_desk.specs.Passes.{number, step, IsWhole, OnlyKin, Sound, Books, BooksAll, BooksOne, OwnBooked, Meets, KeepsOwn, with_clock, first_pass, kept_pass, new_pass};

#[cfg(test)]
mod tests;

use crate::plays::{Await, Draw, Enter, Kin, Learn, Turns};
use crate::view::{InSlot, View};
use atomic_table::{Seat, Table};
use hsm_auth::{Ask, Granted, Ledger};
use hsm_io::Clock;
use std::alloc::{AllocError, Global};
use std::hint::spin_loop;
use std::marker::Model;
use std::snapshot::Snapshot;
use std::sync::{Mutex, MutexGuard, Wait};
use std::thread;

// The word that counts the entries that were made, and is the ticket whose turn it is.
const SERVED: usize = 0;

// The word that counts the tickets that were drawn.
const TICKETS: usize = 1;

// How often a booking looks whether the lock of the queue is free, before it sleeps until it is.
const LOOKS: u32 = 100;

// A call that draws this ticket or a later one does not return.
const NEVER_SERVED: u64 = 1 << 62;

type Board = Table<Option<InSlot>, View, (), Turns, Global>;

type Place = Seat<Option<InSlot>, View>;

/// A ledger that threads share. Contracts see which desk it is.
#[derive(Drop)]
pub struct Desk {
    board: Board,
    // It guards nothing, and no proof rests on it. A call holds it from the drawing of its first ticket to the passing on
    // of its last turn, so that other threads sleep until the lock is free, and do not spin until their tickets are served.
    queue: Mutex<()>,
}

impl Model for Desk {
    ghost use Rattle.std.specs.Prelude.{◌≡◌};
    ghost use Rattle.atomic_table.specs.Seated.{TableId, table_id_coded};

    ghost Value = { TableId };

    ghost coded = { table_id_coded };

    ghost view = { λ d. d.board.shared.table_id };

    ghost invariant = { λ d. (d.board.shared.table_id.words ≡ 2) × (d.board.shared.table_id.slots ≡ 1) };
}

/// A seat at a desk, with which one thread books. Contracts see the history that it has seen, and its kin:
/// pairs of a number and a step, the first of which is its own. A pair spans the numbers that leave its number
/// when divided by its step.
#[derive(Drop)]
pub struct Pass {
    seat: Place,
}

impl Model for Pass {
    ghost use Rattle.std.specs.Prelude.{◌≡◌, []};
    ghost use Rattle.hsm_desk.specs.declared.view.Stage.TheVariants.{Idle};
    ghost use Rattle.hsm_desk.specs.Kin.{IsSound};
    ghost use Rattle.hsm_desk.specs.Passes.{PassView};

    ghost Value = { PassView };

    ghost view = { λ p. record { desk = p.seat.table_id; seen = p.seat.me.0.known.seen; kin = p.seat.me.0.known.kin } };

    ghost invariant = { λ p. (p.seat.me.1 ≡ []) × (p.seat.me.0.stage ≡ Idle) × IsSound p.seat.me.0.known.seen p.seat.me.0.known.kin };
}

/// What a booking answers: the place of its entry in the history, counted from 0, and the ledger's answer.
#[derive(Drop)]
pub struct Booked {
    pub place: u64,
    pub granted: Granted,
}

impl Booked {
    /// What is kept before anything was booked: place 0, and a refusal. [`Desk::book_all`] takes its place.
    pub fn nothing() -> Booked
        ensures { result ≡ record { place = 0; granted = Refused } }
    {
        Booked {
            place: 0,
            granted: Granted::Refused,
        }
    }
}

impl InSlot {
    // Asks the clock, steps the ledger, and keeps of what the entry is made. The answer is put in the place of `granted`. Who has
    // what lies in the slot has the turn: nothing else of a booking is given the clock.
    fn step<C: Clock>(&mut self, clock: &mut C, ask: &Ask, granted: &mut Granted)
        requires ask { CanAsk ask.now }
        ensures kept { (self.new.moment ≡ C.last clock.new) × (self.new.ask.value ≡ ask.now) × (self.new.granted.value ≡ granted.new) }
        ensures answer { (h : List Entry) → StandsFor self.old.ledger.value h → granted.new ≡ outcome h (C.last clock.new) ask.now }
        ensures stands { (h : List Entry) (pass : ℕ) → StandsFor self.old.ledger.value h → StandsFor self.new.ledger.value (h ++ entry pass (C.last clock.new) ask.now granted.new ∷ []) }
        ensures legal { (h : List Entry) (pass : ℕ) → StandsFor self.old.ledger.value h → IsLegal h → IsLegal (h ++ entry pass (C.last clock.new) ask.now granted.new ∷ []) }
        ensures moment { (c : List ℕ) → C.to_come clock.old ≡ Some c → (C.last clock.new ≡ tick c 0) × (C.to_come clock.new ≡ Some (after_now c)) }
    {
        let moment = clock.now();
        self.ledger.step_into(moment, ask, granted);
        self.moment = moment;
        self.ask = Snapshot::of(ask);
        self.granted = Snapshot::of(granted);
    }
}

impl Pass {
    /// Tells what holds of every pass, and that a whole one has seen only entries whose numbers are those of its kin.
    /// It does nothing.
    pub fn facts(&self)
        ensures sound { Sound self.now }
        ensures numbers { IsWhole self.now → OnlyKin self.now }
    {
        let _ = &self.seat;
    }
}

impl Desk {
    /// A desk over the ledger of the empty history, with its first pass, of number 0 and step 1.
    /// Want of memory is the one refusal, and drops the ledger.
    pub fn new(alloc: Global, ledger: Ledger) -> Result<(Desk, Pass), AllocError>
        requires { StandsFor ledger [] }
        ensures first { IfOk result (λ d. d.1 ≡ first_pass d.0) }
        ensures sound { IfOk result (λ d. Sound d.1) }
    {
        let ledger = Box::new(alloc, ledger)?;
        let held = InSlot {
            ledger,
            moment: 0,
            ask: Snapshot::of(&Ask::Look),
            granted: Snapshot::of(&Granted::Refused),
        };
        let mut slots = Vec::new(alloc);
        slots.push(Some(held))?;
        let Ok((board, seat)) = Table::new(alloc, &[0, 0], slots, &()) else {
            return Err(AllocError);
        };
        Ok((
            Desk {
                board,
                queue: Mutex::new(()),
            },
            Pass { seat },
        ))
    }

    /// A new pass, which has seen what the given one has and has no entry of its own. The given pass keeps its
    /// number n, and its step s is doubled; the number of the new one is n + s, and its step is the doubled one too.
    pub fn split(&self, pass: &mut Pass) -> Pass
        requires desk { pass.old.desk ≡ self.now }
        requires room { step pass.old ≤ 2 ^ 61 }
        ensures given { pass.new ≡ kept_pass pass.old }
        ensures new { result ≡ new_pass pass.old }
        ensures unused { own (number result) result.seen ≡ [] }
        ensures sound { Sound pass.new × Sound result }
    {
        let seat = self.board.shared.split_seat::<Kin>(&mut pass.seat);
        Pass { seat }
    }

    /// Joins the other pass into mine, whose history then begins with what each of the two had seen,
    /// and whose kin is that of both.
    pub fn meet(&self, mine: &mut Pass, other: Pass)
        requires mine { mine.old.desk ≡ self.now }
        requires other { other.desk ≡ self.now }
        ensures meets { Meets mine.old other mine.new }
        ensures own { KeepsOwn mine.old mine.new × KeepsOwn other mine.new }
        ensures sound { Sound mine.new }
    {
        let Pass { seat } = other;
        self.board.shared.join_seat::<Kin>(&mut mine.seat, seat);
        self.board.shared.load::<Learn>(&mut mine.seat, SERVED);
    }

    // Draws a ticket. It comes back only with one below `NEVER_SERVED`.
    fn draw<R: Wait>(&self, rt: &R, seat: &mut Place) -> u64
        requires desk { seat.old.table_id ≡ self.now }
        requires idle { (seat.old.me.0.stage ≡ Idle) × (seat.old.me.1 ≡ []) × IsCons seat.old.me.0.known.kin }
        ensures desk { seat.new.table_id ≡ seat.old.table_id }
        ensures drawn { (seat.new.me ≡ (viewed seat.old.me.0.known (Waiting result), [])) × (result < 2 ^ 62) }
    {
        let ticket = self.board.shared.fetch_add::<Draw>(seat, TICKETS, 1);
        if ticket >= NEVER_SERVED {
            for _ in rt.forever() {
                self.board.shared.peek(SERVED);
            }
            unreachable!()
        }
        ticket
    }

    // Waits until the ticket is served.
    fn wait<R: Wait>(&self, rt: &R, seat: &mut Place, ticket: u64)
        requires desk { seat.old.table_id ≡ self.now }
        requires waiting { (seat.old.me.0.stage ≡ Waiting ticket) × (seat.old.me.1 ≡ []) }
        ensures desk { seat.new.table_id ≡ seat.old.table_id }
        ensures turn { Takes seat.old.me seat.new.me }
    {
        for _ in rt.forever() {
            if self.board.shared.load::<Await>(seat, SERVED) == ticket {
                return;
            }
            thread::yield_now();
        }
        unreachable!()
    }

    // Takes what lies in the slot, once the ticket is served.
    fn take<R: Wait>(&self, rt: &R, seat: &mut Place, ticket: u64) -> InSlot
        requires desk { seat.old.table_id ≡ self.now }
        requires waiting { (seat.old.me.0.stage ≡ Waiting ticket) × (seat.old.me.1 ≡ []) }
        ensures desk { seat.new.table_id ≡ seat.old.table_id }
        ensures turn { Has ticket seat.old.me seat.new.me result }
    {
        self.wait(rt, seat, ticket);
        let Some(held) = self.board.shared.exchange(seat, 0, None) else {
            unreachable!()
        };
        held
    }

    // Puts it back, and passes the turn on.
    fn enter(&self, seat: &mut Place, held: InSlot, ticket: u64) -> u64
        requires desk { seat.old.table_id ≡ self.now }
        requires turn { (seat.old.me.0.stage ≡ Turn ticket) × (seat.old.me.1 ≡ (0, None) ∷ []) × (ticket < 2 ^ 62) }
        requires entry { IsLegal (seat.old.me.0.known.seen ++ entry_by seat.old.me.0.known.kin held ∷ []) × StandsFor held.ledger.value (seat.old.me.0.known.seen ++ entry_by seat.old.me.0.known.kin held ∷ []) }
        ensures desk { seat.new.table_id ≡ seat.old.table_id }
        ensures place { result ≡ length seat.old.me.0.known.seen }
        ensures made { seat.new.me ≡ (viewed (knowing (seat.old.me.0.known.seen ++ entry_by seat.old.me.0.known.kin held ∷ []) seat.old.me.0.known.kin) Idle, []) }
        ensures own { Owns (seat.old.me.0.known.seen ++ entry_by seat.old.me.0.known.kin held ∷ []) seat.old.me.0.known.kin }
    {
        match self.board.shared.exchange(seat, 0, Some(held)) {
            None => {}
            Some(_) => unreachable!(),
        }
        self.board.shared.fetch_add::<Enter>(seat, SERVED, 1)
    }

    // Takes the lock of the queue. A thread holds it for some microseconds at most, if the system does not stop it meanwhile:
    // looking again for so long costs less than sleeping and being woken.
    fn head_of_queue<R: Wait>(&self, rt: &R) -> MutexGuard<'_, ()> {
        for _ in 0..LOOKS {
            if let Some(head) = self.queue.try_lock() {
                return head;
            }
            spin_loop();
        }
        self.queue.lock(rt)
    }

    // Makes one entry at the head of the queue. It waits for its turn, and asks the clock once while it has it. What it answers is
    // put in the place of `booked`.
    fn book_next<C: Clock, R: Wait>(
        &self,
        rt: &R,
        pass: &mut Pass,
        clock: &mut C,
        ask: &Ask,
        booked: &mut Booked,
    )
        requires desk { pass.old.desk ≡ self.now }
        requires ask { CanAsk ask.now }
        ensures one { BooksOne (with_clock pass.old (C.last clock.old) (C.to_come clock.old)) (with_clock pass.new (C.last clock.new) (C.to_come clock.new)) ask.now booked.new }
    {
        let ticket = self.draw(rt, &mut pass.seat);
        let mut held = self.take(rt, &mut pass.seat, ticket);
        held.step(clock, ask, &mut booked.granted);
        booked.place = self.enter(&mut pass.seat, held, ticket);
    }

    /// Makes one entry. It queues up and waits for its turn, asks the clock once while it has it, and takes no memory.
    /// It has no refusal of its own.
    pub fn book<C: Clock, R: Wait>(
        &self,
        rt: &R,
        pass: &mut Pass,
        clock: &mut C,
        ask: &Ask,
    ) -> Booked
        requires desk { pass.old.desk ≡ self.now }
        requires ask { CanAsk ask.now }
        ensures entry { Books pass.old pass.new (C.last clock.new) ask.now result.granted result.place }
        ensures own { OwnBooked pass.old pass.new (C.last clock.new) ask.now result.granted result.place }
        ensures sound { Sound pass.new }
        ensures moment { (c : List ℕ) → C.to_come clock.old ≡ Some c → (C.last clock.new ≡ tick c 0) × (C.to_come clock.new ≡ Some (after_now c)) }
    {
        let mut booked = Booked::nothing();
        let head = self.head_of_queue(rt);
        self.book_next(rt, pass, clock, ask, &mut booked);
        drop(head);
        booked
    }

    /// Makes one entry for each ask, in their order, each as [`Desk::book`] makes it, and puts what it answers in the ask's
    /// place of `booked`: an answer has 544 bytes, which are then moved nowhere. It queues up once for all of them, and has left
    /// the queue when it comes back. It takes no memory, and has no refusal of its own.
    pub fn book_all<C: Clock, R: Wait>(
        &self,
        rt: &R,
        pass: &mut Pass,
        clock: &mut C,
        asks: &[Ask],
        booked: &mut [Booked],
    )
        requires desk { pass.old.desk ≡ self.now }
        requires asks { All CanAsk asks.now }
        requires places { length booked.old ≡ length asks.now }
        ensures entries { BooksAll (with_clock pass.old (C.last clock.old) (C.to_come clock.old)) (with_clock pass.new (C.last clock.new) (C.to_come clock.new)) asks.now booked.new }
        ensures desk { pass.new.desk ≡ pass.old.desk }
        ensures sound { Sound pass.new }
    {
        pass.facts();
        if asks.is_empty() {
            return;
        }
        let head = self.head_of_queue(rt);
        'asks: for (at, ask) in asks.iter().enumerate() {
            self.book_next(rt, pass, clock, ask, &mut booked[at]);
        }
        drop(head);
    }

    /// Ends the desk. The answer is the number of all entries: at least as many as the pass has seen,
    /// and just so many where it is whole.
    pub fn close(self, pass: Pass) -> u64
        requires { pass.desk ≡ self }
        ensures seen { length pass.seen ≤ result }
        ensures whole { IsWhole pass → result ≡ length pass.seen }
    {
        let Desk { board, .. } = self;
        let Pass { seat } = pass;
        let mut closed = board.close_with(seat);
        let served = closed.word(SERVED);
        drop(closed.take(0));
        closed.free();
        served
    }
}
