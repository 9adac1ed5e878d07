//! The lanes beside one another.
ghost use Rattle.std.specs.Prelude.{◌≡◌, All};
ghost use Rattle.std.specs.Thread.{IsSend, IsSync};
ghost use Rattle.atomic_table.specs.Seated.{TableId};
ghost use Rattle.hsm_rows.specs.declared.settings.Module.{Module};
ghost use Rattle.hsm_server.specs.Lanes.{IsReady, Ran, EachLane, place_of};

use crate::lane::Lane;
use crate::state::HasState;
use hsm_auth::Place;
use hsm_desk::Desk;
use hsm_io::{Came, Clock, Door, Gate};
use hsm_rows::Module;
use hsm_session::serve_link;
use std::sync::Wait;
use std::thread::{Threads, join_mut};

// What is done beside others over a module and a desk, and what it leaves.
trait Work {
    ghost ready: { Module → TableId → Self → Type 0 };

    ghost done: { Module → Self → Self → Type 0 };

    fn work<R: Wait>(&mut self, rt: &R, module: &Module, desk: &Desk)
        requires { ready «module».now desk.now self.old }
        ensures { done «module».now self.old self.new };
}

/// The side of the lane of this number: 0 is the console's, every other a host's.
pub fn kind_for(number: u32) -> Place
    ensures { result ≡ place_of number }
{
    if number == 0 {
        Place::Console
    } else {
        Place::Host
    }
}

impl<D: Door + Send, C: Clock + Send, G: Gate + Send> Work for Lane<D, C, G> {
    ghost ready = { λ m desk lane. IsReady m desk (⟦<Lane<D, C, G> as HasState>⟧.state lane) };

    ghost done = { λ m before after. Ran m
        (⟦<Lane<D, C, G> as HasState>⟧.state before)
        (⟦<Lane<D, C, G> as HasState>⟧.state after) };

    fn work<R: Wait>(&mut self, rt: &R, module: &Module, desk: &Desk) {
        self.tools.pass.facts();
        let kind = kind_for(self.tools.lane);
        'connections: for _ in 0..self.accept {
            match self.door.next() {
                Came::Link(mut link) => {
                    let report = serve_link(rt, module, desk, kind, &mut self.tools, &mut link);
                    self.door.done(link);
                    match self.reports.push(report) {
                        Ok(()) => {}
                        Err(_) => unreachable!(),
                    }
                }
                Came::End => return,
                Came::Failed => {
                    self.door_fault = true;
                    return;
                }
            }
        }
    }
}

// Does each piece of work, in threads of their own where these can be made.
fn run_by_halves<R, T>(rt: &R, module: &Module, desk: &Desk, works: &mut [T])
where
    R: Threads + Wait + Sync,
    T: Work + Send,
    requires { All (T.ready «module».now desk.now) works.old }
    ensures { EachLane (T.done «module».now) works.old works.new }
{
    if works.is_empty() {
        return;
    }
    if works.len() == 1 {
        works[0].work(rt, module, desk);
        return;
    }
    let (left, right) = works.split_at_mut(works.len() / 2);
    join_mut(
        rt,
        &mut ||
            requires { IsSync R.row × IsSend T.row × All (T.ready «module».now desk.now) left.now }
            ensures { EachLane (T.done «module».entry.now) left.entry.now left.exit.now }
        { run_by_halves(rt, module, desk, left) },
        &mut ||
            requires { IsSync R.row × IsSend T.row × All (T.ready «module».now desk.now) right.now }
            ensures { EachLane (T.done «module».entry.now) right.entry.now right.exit.now }
        { run_by_halves(rt, module, desk, right) },
    );
}

/// Serves each lane until its door ends or fails, or as many connections as it accepts were served. The lane of number 0
/// is the console's, every other is a host's. It takes no memory. The lanes run beside one another in threads of their own;
/// where no thread can be made, one after another, with the same promise.
pub fn run_lanes<R, D, C, G>(rt: &R, module: &Module, desk: &Desk, lanes: &mut [Lane<D, C, G>])
where
    R: Threads + Wait + Sync,
    D: Door + Send,
    C: Clock + Send,
    G: Gate + Send,
    requires ready { All (λ lane. IsReady «module».now desk.now (⟦<Lane<D, C, G> as HasState>⟧.state lane)) lanes.old }
    ensures ran { EachLane (λ before after. Ran «module».now
        (⟦<Lane<D, C, G> as HasState>⟧.state before)
        (⟦<Lane<D, C, G> as HasState>⟧.state after)) lanes.old lanes.new }
    ensures desk { All (λ lane. lane.tools.pass.desk ≡ desk.now) lanes.new }
{
    run_by_halves(rt, module, desk, lanes)
}
