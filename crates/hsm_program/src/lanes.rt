//! The lanes before they are served.

ghost use Rattle.std.specs.Prelude.{◌≡◌, ◌<◌, ◌≤◌, ◌^◌, ◌++◌, ◌∷◌, [], true, IfOk, IfErr, length, map};
ghost use Rattle.hsm_config.specs.Rules.{all_different};
ghost use Rattle.hsm_desk.specs.Passes.{first_pass, new_pass, step};
ghost use Rattle.hsm_io.specs.Sides.{IsNotAmong};
ghost use Rattle.hsm_rows.specs.declared.settings.Module.{Module};
ghost use Rattle.hsm_program.specs.Lanes.{AreLanes, AreRefused, AskGates, AsksGate, IsNewLane, IsRefused, OthersStay, keeps, next_span};
ghost use Rattle.hsm_program.specs.Serving.{AsksGatesOf};
ghost use Rattle.hsm_config.specs.Configs.{ports_of};

use arrayvec::ArrayVec;
use hsm_config::Config;
use hsm_desk::{Desk, Pass};
use hsm_io::{Bench, Clock, Door, Gate};
use hsm_rows::Module;
use hsm_server::{HasState, Lane, kind_for};
use hsm_session::least_message;
use std::alloc::Global;

/// Why there are no lanes.
pub(crate) enum LanesFault {
    /// Want of memory.
    Memory,
    /// The door of this lane could not be opened.
    Door(u64),
}

// The ports of the lanes: the console's, and then those of the hosts.
fn ports_of(config: &Config) -> ArrayVec<u16, 65>
    ensures { result.items ≡ ports_of config.now }
{
    let mut ports = ArrayVec::new();
    ports.push(config.console_port);
    'ports: for port in config.host_ports.as_slice() {
        ports.push(*port);
    }
    ports
}

// The greatest power of two that is at most the number of the next lane, where the given one was that for the lane before it.
fn next_span(span: usize, number: usize) -> usize
    requires { span ≤ 65 }
    ensures { result ≡ next_span span number }
{
    if number == 2 * span { number } else { span }
}

// A pass split from the one of a lane.
fn split_lane<D: Door, C: Clock, G: Gate>(desk: &Desk, lane: &mut Lane<D, C, G>) -> Pass
    requires desk { lane.old.tools.pass.desk ≡ desk.now }
    requires room { step lane.old.tools.pass ≤ 2 ^ 61 }
    ensures given { ⟦<Lane<D, C, G> as HasState>⟧.state lane.new
        ≡ keeps (⟦<Lane<D, C, G> as HasState>⟧.state lane.old) }
    ensures new { result ≡ new_pass lane.old.tools.pass }
{
    desk.split(&mut lane.tools.pass)
}

// The lane of this number over the door of its port, with a clock and a gate of the bench.
fn open_lane<B: Bench>(
    alloc: Global,
    module: &Module,
    accept: u16,
    number: usize,
    port: u16,
    pass: Pass,
    bench: &mut B,
) -> Result<Lane<B::Door, B::Clock, B::Gate>, LanesFault>
    requires number { number < 65 }
    requires new { IsNotAmong port (B.doors bench.old).asked }
    requires few { length (B.doors bench.old).asked < 65 }
    ensures opened { IfOk result (λ lane. IsNewLane «module».now accept (B.moments bench.old) ((B.doors bench.old).connections port) number pass
        (⟦<Lane<B::Door, B::Clock, B::Gate> as HasState>⟧.state lane)) }
    ensures others { IfOk result (λ lane. OthersStay port (B.doors bench.old) (B.doors bench.new)) }
    ensures asked { (B.doors bench.new).asked ≡ (B.doors bench.old).asked ++ port ∷ [] }
    ensures gate { IfOk result (λ lane. B.gates bench.new ≡ B.gates bench.old ++ number ∷ []) }
    ensures refused { IfErr result (λ fault. IsRefused number port (B.doors bench.old) (B.doors bench.new) fault) }
    ensures refused_gate { IfErr result (λ fault. AsksGate number (B.gates bench.old) (B.gates bench.new) fault) }
    ensures files { B.files bench.new ≡ B.files bench.old }
    ensures seeds { B.seeds bench.new ≡ B.seeds bench.old }
    ensures moments { B.moments bench.new ≡ B.moments bench.old }
{
    let Some(door) = bench.door(port) else {
        return Err(LanesFault::Door(number as u64));
    };
    let number = number as u32;
    let least = least_message(module, kind_for(number));
    let clock = bench.clock();
    let gate = bench.gate(number);
    match Lane::new(alloc, number, least, accept, pass, door, clock, gate) {
        Ok(lane) => Ok(lane),
        Err(_) => Err(LanesFault::Memory),
    }
}

/// The lanes of a configuration, the console's first. The first pass of the desk is the one of lane 0. For k from 1 on the pass of
/// lane k is split from the one of lane k - s, where s is the greatest power of two that is at most k.
pub(crate) fn open_lanes<B: Bench>(
    alloc: Global,
    module: &Module,
    config: &Config,
    desk: &Desk,
    first: Pass,
    bench: &mut B,
) -> Result<Vec<Lane<B::Door, B::Clock, B::Gate>>, LanesFault>
    requires first { first ≡ first_pass desk.now }
    requires asked { (B.doors bench.old).asked ≡ [] }
    requires different { all_different (ports_of config.now) ≡ true }
    ensures made { IfOk result (λ lanes. AreLanes «module».now config.now.accept (B.moments bench.old) (B.doors bench.old).connections (ports_of config.now) desk.now
        (map (⟦<Lane<B::Door, B::Clock, B::Gate> as HasState>⟧.state) lanes.items)) }
    ensures asked { IfOk result (λ lanes. (B.doors bench.new).asked ≡ ports_of config.now) }
    ensures gates { IfOk result (λ lanes. AsksGatesOf (length (ports_of config.now)) (B.gates bench.old) (B.gates bench.new)) }
    ensures refused { IfErr result (λ fault. AreRefused (ports_of config.now) (B.doors bench.old) (B.doors bench.new) fault) }
    ensures refused_gates { IfErr result (λ fault. AskGates (B.gates bench.old) (B.gates bench.new) fault) }
    ensures files { B.files bench.new ≡ B.files bench.old }
    ensures seeds { B.seeds bench.new ≡ B.seeds bench.old }
{
    let ports = ports_of(config);
    let mut lanes = Vec::new(alloc);
    let lane = open_lane(alloc, module, config.accept, 0, ports[0], first, bench)?;
    match lanes.push(lane) {
        Ok(()) => {}
        Err(_) => return Err(LanesFault::Memory),
    }
    let mut span = 1;
    'lanes: for number in 1..ports.len() {
        span = next_span(span, number);
        let pass = split_lane(desk, &mut lanes[number - span]);
        let lane = open_lane(
            alloc,
            module,
            config.accept,
            number,
            ports[number],
            pass,
            bench,
        )?;
        match lanes.push(lane) {
            Ok(()) => {}
            Err(_) => return Err(LanesFault::Memory),
        }
    }
    Ok(lanes)
}
