//! Bookings of one thread, of two threads beside one another, and that no entry comes between the asking of the clock and the entry.
ghost use Rattle.std.specs.Prelude.{◌≡◌, ◌≤◌, ◌^◌};
ghost use Rattle.hsm_auth.specs.History.{CanAsk};

use arrayvec::ArrayVec;
use hsm_auth::{Ask, Granted, Ledger, Needs};
use hsm_desk::{Booked, Desk, Pass};
use hsm_io::{Clock, MemClock};
use std::alloc::{AllocError, Global};
use std::sync::Wait;
use std::sync::atomic::{AtomicBool, Ordering};
use std::test::Fail;
use std::thread;
use std::thread::Threads;

// How often a thread looks whether another has come so far.
const TURNS: u32 = 50_000_000;

// How often the clock looks whether another pass got through.
const LOOKS: u32 = 200_000;

fn clock_at(moment: u64) -> MemClock
    requires { moment ≤ 2 ^ 40 }
{
    let mut moments = ArrayVec::new();
    moments.push(moment);
    MemClock::new(moments)
}

fn empty_ask() -> Ask
    ensures { CanAsk result }
{
    Ask::Use {
        needs: Needs::default(),
        words: 0,
    }
}

#[test]
fn places_in_turn(rt: HostRuntime) -> Result<(), Fail> {
    let (desk, mut given) = Desk::new(rt.alloc(), Ledger::new(rt.alloc())?)?;
    let mut clock = clock_at(7);
    let ask = empty_ask();
    let Booked {
        place: first,
        granted,
    } = desk.book(&rt, &mut given, &mut clock, &ask);
    assert_eq!(rt; granted, Granted::Use { first: 0 });
    let mut new = desk.split(&mut given);
    let second = desk.book(&rt, &mut new, &mut clock, &ask).place;
    let third = desk.book(&rt, &mut given, &mut clock, &ask).place;
    desk.meet(&mut given, new);
    assert_eq!(rt; (first, second, third), (0, 1, 2));
    assert_eq!(rt; desk.close(given), 3);
    Ok(())
}

fn drawing_ask(words: u16) -> Ask
    requires { words ≤ 12 }
    ensures { CanAsk result }
{
    Ask::Use {
        needs: Needs::default(),
        words,
    }
}

#[test]
fn answers_in_the_places_of_their_asks(rt: HostRuntime) -> Result<(), Fail> {
    let (desk, mut pass) = Desk::new(rt.alloc(), Ledger::new(rt.alloc())?)?;
    let mut moments = ArrayVec::new();
    moments.push(7);
    moments.push(9);
    moments.push(8);
    let mut clock = MemClock::new(moments);
    let asks = [drawing_ask(4), drawing_ask(2), Ask::Look];
    let mut booked = [Booked::nothing(), Booked::nothing(), Booked::nothing()];
    desk.book_all(&rt, &mut pass, &mut clock, &asks, &mut booked);
    assert_eq!(rt; booked[0].granted, Granted::Use { first: 0 });
    assert_eq!(rt; booked[1].granted, Granted::Use { first: 4 });
    let Granted::Seen { moment, place, .. } = &booked[2].granted else {
        return Err("a look is answered by what is seen")?;
    };
    assert_eq!(rt; (*moment, *place), (9, 6));
    assert_eq!(rt;
        (booked[0].place, booked[1].place, booked[2].place),
        (0, 1, 2)
    );
    assert_eq!(rt; clock.now(), 8);
    assert_eq!(rt; desk.close(pass), 3);
    Ok(())
}

// Whether the flag is seen within so many looks.
fn is_seen(flag: &AtomicBool, looks: u32) -> bool {
    for _ in 0..looks {
        if flag.load(Ordering::SeqCst) {
            return true;
        }
        thread::yield_now();
    }
    false
}

fn book_times<R: Wait>(rt: &R, desk: &Desk, pass: &mut Pass, clock: &mut MemClock, times: u32)
    requires { pass.old.desk ≡ desk.now }
    ensures { pass.new.desk ≡ pass.old.desk }
{
    let ask = empty_ask();
    for _ in 0..times {
        desk.book(rt, pass, clock, &ask);
    }
}

// Books 100 times. After its first place it waits for that of the other thread.
fn lane<R: Wait>(
    rt: &R,
    desk: &Desk,
    mut pass: Pass,
    mine: &AtomicBool,
    other: &AtomicBool,
) -> (Pass, bool)
    requires { pass.desk ≡ desk.now }
    ensures { result.0.desk ≡ desk.now }
{
    let mut clock = clock_at(7);
    book_times(rt, desk, &mut pass, &mut clock, 1);
    mine.store(true, Ordering::SeqCst);
    let met = is_seen(other, TURNS);
    book_times(rt, desk, &mut pass, &mut clock, 99);
    (pass, met)
}

// Whether each of two threads saw the other's first place, and how many entries they made.
fn two_lanes<R: Threads + Wait + Sync>(
    rt: &R,
    alloc: Global,
) -> Result<(bool, bool, u64), AllocError> {
    let (desk, mut one) = Desk::new(alloc, Ledger::new(alloc)?)?;
    let two = desk.split(&mut one);
    let flags = (AtomicBool::new(false), AtomicBool::new(false));
    let (shared, first, second) = (&desk, &flags.0, &flags.1);
    let (left, right) = thread::join(
        rt,
        move || -> (Pass, bool)
            requires { one.desk ≡ shared.now }
            ensures { result.0.desk ≡ shared.entry.now }
        { lane(rt, shared, one, first, second) },
        move || -> (Pass, bool)
            requires { two.desk ≡ shared.now }
            ensures { result.0.desk ≡ shared.entry.now }
        { lane(rt, shared, two, second, first) },
    );
    let (mut one, first_met) = left;
    let (two, second_met) = right;
    desk.meet(&mut one, two);
    Ok((first_met, second_met, desk.close(one)))
}

#[test]
fn two_threads_book_beside_each_other(rt: HostRuntime) -> Result<(), Fail> {
    assert_eq!(rt; two_lanes(&rt, rt.alloc())?, (true, true, 200));
    Ok(())
}

// A clock that says when it is asked, waits until another thread is about to book, and looks whether that one gets
// its entry.
#[derive(Drop)]
struct WatchingClock<'a> {
    asked: &'a AtomicBool,
    tries: &'a AtomicBool,
    booked: &'a AtomicBool,
    tried: bool,
    overtaken: bool,
}

impl<'a> Clock for WatchingClock<'a> {
    ghost use Rattle.std.specs.Prelude.{None};

    ghost last = { λ _. 7 };

    ghost to_come = { λ _. None };

    fn now(&mut self) -> u64 {
        self.asked.store(true, Ordering::SeqCst);
        self.tried = is_seen(self.tries, TURNS);
        self.overtaken = is_seen(self.booked, LOOKS);
        7
    }
}

// Books under the watching clock. Whether the other thread was about to book meanwhile, whether it got its entry then,
// and whether it got it afterwards.
fn watch<R: Wait>(
    rt: &R,
    desk: &Desk,
    mut pass: Pass,
    asked: &AtomicBool,
    tries: &AtomicBool,
    booked: &AtomicBool,
) -> (Pass, (bool, bool, bool))
    requires { pass.desk ≡ desk.now }
    ensures { result.0.desk ≡ desk.now }
{
    let mut clock = WatchingClock {
        asked,
        tries,
        booked,
        tried: false,
        overtaken: false,
    };
    desk.book(rt, &mut pass, &mut clock, &empty_ask());
    let (tried, overtaken) = (clock.tried, clock.overtaken);
    (pass, (tried, overtaken, is_seen(booked, TURNS)))
}

// Books once the other thread's clock is asked.
fn follow<R: Wait>(
    rt: &R,
    desk: &Desk,
    mut pass: Pass,
    asked: &AtomicBool,
    tries: &AtomicBool,
    booked: &AtomicBool,
) -> (Pass, bool)
    requires { pass.desk ≡ desk.now }
    ensures { result.0.desk ≡ desk.now }
{
    let seen = is_seen(asked, TURNS);
    tries.store(true, Ordering::SeqCst);
    book_times(rt, desk, &mut pass, &mut clock_at(7), 1);
    booked.store(true, Ordering::SeqCst);
    (pass, seen)
}

// What the watching thread saw, whether the other saw the clock asked, and how many entries there are.
fn watched<R: Threads + Wait + Sync>(
    rt: &R,
    alloc: Global,
) -> Result<((bool, bool, bool), bool, u64), AllocError> {
    let (desk, mut one) = Desk::new(alloc, Ledger::new(alloc)?)?;
    let two = desk.split(&mut one);
    let flags = (
        AtomicBool::new(false),
        AtomicBool::new(false),
        AtomicBool::new(false),
    );
    let (shared, asked, tries, booked) = (&desk, &flags.0, &flags.1, &flags.2);
    let (left, right) = thread::join(
        rt,
        move || -> (Pass, (bool, bool, bool))
            requires { one.desk ≡ shared.now }
            ensures { result.0.desk ≡ shared.entry.now }
        { watch(rt, shared, one, asked, tries, booked) },
        move || -> (Pass, bool)
            requires { two.desk ≡ shared.now }
            ensures { result.0.desk ≡ shared.entry.now }
        { follow(rt, shared, two, asked, tries, booked) },
    );
    let (mut one, saw) = left;
    let (two, seen) = right;
    desk.meet(&mut one, two);
    Ok((saw, seen, desk.close(one)))
}

#[test]
fn no_entry_comes_between_the_clock_and_the_entry(rt: HostRuntime) -> Result<(), Fail> {
    assert_eq!(rt; watched(&rt, rt.alloc())?, ((true, false, true), true, 2));
    Ok(())
}
