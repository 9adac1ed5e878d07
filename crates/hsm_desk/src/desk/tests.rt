//! That the clock is asked while the booking has the turn.
use super::{Desk, SERVED, TICKETS};
use hsm_auth::{Ask, Ledger};
use hsm_io::Clock;
use std::test::Fail;

impl Desk {
    // How many tickets were drawn, and how many entries were made.
    fn counts(&self) -> (u64, u64) {
        (
            self.board.shared.peek(TICKETS),
            self.board.shared.peek(SERVED),
        )
    }
}

// A clock that looks, when it is asked, how many tickets were drawn and how many entries were made.
#[derive(Drop)]
struct LookingClock<'a> {
    desk: &'a Desk,
    counts: (u64, u64),
}

impl<'a> Clock for LookingClock<'a> {
    ghost use Rattle.std.specs.Prelude.{None};

    ghost last = { λ _. 7 };

    ghost to_come = { λ _. None };

    fn now(&mut self) -> u64 {
        self.counts = self.desk.counts();
        7
    }
}

#[test]
fn the_clock_is_asked_while_the_turn_is_held(rt: HostRuntime) -> Result<(), Fail> {
    let (desk, mut pass) = Desk::new(rt.alloc(), Ledger::new(rt.alloc())?)?;
    let mut clock = LookingClock {
        desk: &desk,
        counts: (0, 0),
    };
    desk.book(&rt, &mut pass, &mut clock, &Ask::Look);
    assert_eq!(rt; clock.counts, (1, 0));
    desk.book(&rt, &mut pass, &mut clock, &Ask::Look);
    assert_eq!(rt; clock.counts, (2, 1));
    Ok(())
}
