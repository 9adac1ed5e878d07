//! The command `serve`.

ghost use Rattle.std.specs.Prelude.{◌≡◌, ◌≤◌, ◌<◌, ◌^◌, ℕ, List, [], All, Some, None, false, true, IfErr, IfOk, IfSome, IsSome, IsTrue, length};
ghost use Rattle.hsm_io.specs.Outside.{Rose};
ghost use Rattle.hsm_io.specs.Files.{kept_name};
ghost use Rattle.hsm_config.specs.Rules.{all_different, are_odd};
ghost use Rattle.hsm_program.specs.Files.{FilesStay};
ghost use Rattle.hsm_program.specs.Lanes.{AreRefused, AskGates};
ghost use Rattle.hsm_program.specs.Runs.{AnswersConfig, WritesNothing};
ghost use Rattle.hsm_program.specs.Serving.{AnswersServe, AsksGates, AsksGatesOf, AsksSeedFirst, HasServed, IsListenFault, IsServeStatus, IsThere, ServedBy, has_lanes, lane_views};
ghost use Rattle.hsm_config.specs.Configs.{ports_of};
ghost use Rattle.hsm_rows.specs.declared.settings.Module.{Module};
ghost use Rattle.hsm_server.specs.Lanes.{EachLane, IsReady, Ran, message_count};

use crate::ends::{end_lanes, print_lanes, status_of};
use crate::lanes::{LanesFault, open_lanes};
use crate::local::read_config;
use crate::outcome::Outcome;
use crate::run::{Ended, without_lanes};
use hsm_answers::{clear_where_granted, words_authorise};
use hsm_auth::{Ledger, own_entries};
use hsm_config::Config;
use hsm_desk::{Desk, Pass};
use hsm_io::{Bench, Clock, Door, Gate, Sink};
use hsm_rows::Module;
use hsm_server::{HasState, Lane, LaneEnd, run_lanes};
use std::alloc::Global;
use std::sync::Wait;
use std::thread::Threads;

// What serving left: the pass into which all lanes' passes were joined, and what became of each lane.
struct Over<D> {
    pass: Option<Pass>,
    ends: Vec<LaneEnd<D>>,
}

// Serves all lanes to their ends.
fn run_all<Rt, D, C, G>(rt: &Rt, module: &Module, desk: &Desk, lanes: &mut Vec<Lane<D, C, G>>)
where
    Rt: Threads + Wait + Sync,
    D: Door + Send,
    C: Clock + Send,
    G: Gate + Send,
    requires ready { All (λ lane. IsReady «module».now desk.now
        (⟦<Lane<D, C, G> as HasState>⟧.state lane)) lanes.old.items }
    ensures ran { EachLane (λ before after. Ran «module».now
        (⟦<Lane<D, C, G> as HasState>⟧.state before)
        (⟦<Lane<D, C, G> as HasState>⟧.state after)) lanes.old.items lanes.new.items }
    ensures desk { All (λ lane. lane.tools.pass.desk ≡ desk.now) lanes.new.items }
    ensures count { length lanes.new.items ≡ length lanes.old.items }
{
    run_lanes(rt, module, desk, lanes.as_mut_slice());
}

// Opens the lanes of a configuration, and serves them to their ends.
fn serve_lanes<Rt, B>(
    rt: &Rt,
    alloc: Global,
    config: &Config,
    seed: [u8; 32],
    bench: &mut B,
) -> Result<Over<B::Door>, LanesFault>
where
    Rt: Threads + Wait + Sync,
    B: Bench,
    requires odd { IsTrue (are_odd config.now.pairs) }
    requires some_host { 1 ≤ length config.now.host_ports.items }
    requires different { all_different (ports_of config.now) ≡ true }
    requires seed { (B.seeds bench.old).last_seed ≡ seed }
    requires none_asked { (B.doors bench.old).asked ≡ [] }
    ensures some { IfOk result (λ over. IsSome over.pass) }
    ensures served { IfOk result (λ over. IfSome over.pass (λ pass. ServedBy (B.doors bench.old) (B.moments bench.old) (B.seeds bench.new) (B.doors bench.new)
        (lane_views B.Door.doorway B.Door.faults B.Door.broken over.ends.items) pass config.now)) }
    ensures few { IfOk result (λ over. All (λ end. message_count end.reports.items < 2 ^ 64) over.ends.items) }
    ensures gates { IfOk result (λ over. AsksGatesOf (length (lane_views B.Door.doorway B.Door.faults B.Door.broken over.ends.items)) (B.gates bench.old) (B.gates bench.new)) }
    ensures refused { IfErr result (λ fault. AreRefused (ports_of config.now) (B.doors bench.old) (B.doors bench.new) fault) }
    ensures refused_gates { IfErr result (λ fault. AskGates (B.gates bench.old) (B.gates bench.new) fault) }
    ensures files { B.files bench.new ≡ B.files bench.old }
    ensures seeds { B.seeds bench.new ≡ B.seeds bench.old }
{
    let module = config.module(seed);
    let Ok(ledger) = Ledger::new(alloc) else {
        return Err(LanesFault::Memory);
    };
    let Ok((desk, first)) = Desk::new(alloc, ledger) else {
        return Err(LanesFault::Memory);
    };
    let mut lanes = open_lanes(alloc, &module, config, &desk, first, bench)?;
    let Ok(mut ends) = Vec::with_capacity(alloc, lanes.len()) else {
        return Err(LanesFault::Memory);
    };
    run_all(rt, &module, &desk, &mut lanes);
    let pass = end_lanes(&desk, lanes, &mut ends);
    own_entries();
    words_authorise();
    clear_where_granted();
    Ok(Over { pass, ends })
}

// Writes the lines of the lanes.
fn print_over<D: Door, S: Sink>(over: Over<D>, out: &mut S) -> Ended<D>
    requires { All (λ end. message_count end.reports.items < 2 ^ 64) over.ends.items }
    ensures kept { (result.pass ≡ over.pass) × (result.lanes ≡ over.ends) }
    ensures ended { has_lanes result.outcome ≡ true }
    ensures serve { AnswersServe (lane_views D.doorway D.faults D.broken over.ends.items) (S.stands_for out.old) (S.stands_for out.new) result.outcome }
    ensures status { IsServeStatus (lane_views D.doorway D.faults D.broken over.ends.items) result.status result.outcome }
    ensures out_cause { result.outcome ≡ Outcome.OutFault → Rose (S.faults out.old) (S.faults out.new) }
{
    let (status, outcome) = match print_lanes(&over.ends, out) {
        Ok(()) => (status_of(&over.ends), Outcome::Served),
        Err(_) => (3, Outcome::OutFault),
    };
    let Over { pass, ends } = over;
    Ended {
        status,
        outcome,
        lanes: ends,
        pass,
    }
}

/// Serves the lanes of the configuration in the file of this name.
pub(crate) fn serve<Rt, B, S>(
    rt: &Rt,
    alloc: Global,
    name: &str,
    bench: &mut B,
    out: &mut S,
) -> Ended<B::Door>
where
    Rt: Threads + Wait + Sync,
    B: Bench,
    S: Sink,
    requires none_out { (B.files bench.old).is_out ≡ false }
    requires none_asked { (B.doors bench.old).asked ≡ [] }
    ensures words { (place : ℕ) → result.outcome ≡ Outcome.Usage place → ⊥ }
    ensures config { (bytes : List ℕ) → (B.files bench.old).bytes_of name.now ≡ Some bytes →
        AnswersConfig false name.now bytes (B.files bench.new).bad_name result.outcome }
    ensures headline { IfSome result.pass (λ pass.
        HasServed (B.files bench.old) (B.doors bench.old) (B.moments bench.old) name.now (B.seeds bench.new) (B.doors bench.new)
        (lane_views B.Door.doorway B.Door.faults B.Door.broken result.lanes.items) pass) }
    ensures lanes { IsThere (has_lanes result.outcome) result.pass (lane_views B.Door.doorway B.Door.faults B.Door.broken result.lanes.items) }
    ensures serve { AnswersServe (lane_views B.Door.doorway B.Door.faults B.Door.broken result.lanes.items) (S.stands_for out.old) (S.stands_for out.new) result.outcome }
    ensures status { IsServeStatus (lane_views B.Door.doorway B.Door.faults B.Door.broken result.lanes.items) result.status result.outcome }
    ensures nothing { WritesNothing (S.stands_for out.old) (S.stands_for out.new) result.outcome }
    ensures file_cause { result.outcome ≡ Outcome.FileFault → (Rose (B.files bench.old).faults (B.files bench.new).faults) × ((B.files bench.new).bad_name ≡ kept_name name.now) }
    ensures seed_cause { result.outcome ≡ Outcome.SeedFault → Rose (B.seeds bench.old).faults (B.seeds bench.new).faults }
    ensures listen_cause { (lane : ℕ) → result.outcome ≡ Outcome.ListenFault lane →
        IsListenFault (B.files bench.old) (B.doors bench.old) name.now lane (B.doors bench.new) }
    ensures seed_first { AsksSeedFirst (B.seeds bench.old) (B.seeds bench.new) (B.doors bench.old) (B.doors bench.new) result.outcome }
    ensures gates { AsksGates (lane_views B.Door.doorway B.Door.faults B.Door.broken result.lanes.items) (B.gates bench.old) (B.gates bench.new) result.outcome }
    ensures out_cause { result.outcome ≡ Outcome.OutFault → Rose (S.faults out.old) (S.faults out.new) }
    ensures files { FilesStay (B.files bench.old).bytes_of (B.files bench.new).bytes_of }
    ensures given_back { (B.files bench.new).is_out ≡ false }
{
    let config = match read_config(alloc, name, bench) {
        Ok(config) => config,
        Err((status, outcome)) => return without_lanes(alloc, status, outcome),
    };
    let Some(seed) = bench.seed() else {
        return without_lanes(alloc, 3, Outcome::SeedFault);
    };
    match serve_lanes(rt, alloc, &config, seed, bench) {
        Ok(over) => print_over(over, out),
        Err(LanesFault::Memory) => without_lanes(alloc, 5, Outcome::Memory),
        Err(LanesFault::Door(lane)) => without_lanes(alloc, 3, Outcome::ListenFault(lane)),
    }
}
