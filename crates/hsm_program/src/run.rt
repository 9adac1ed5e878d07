//! The top call.

ghost use Rattle.std.specs.Prelude.{◌≡◌, ℕ, List, [], Some, None, false, IfSome};
ghost use Rattle.hsm_io.specs.Outside.{Rose};
ghost use Rattle.hsm_config.specs.declared.configuration.Config.{Config};
ghost use Rattle.hsm_server.specs.Lanes.{lane_view};
ghost use Rattle.hsm_program.specs.Files.{FilesStay};
ghost use Rattle.hsm_program.specs.Settings.{HoldsConfig, run_module};
ghost use Rattle.hsm_program.specs.Words.{asked, names};
ghost use Rattle.hsm_program.specs.Runs.{AnswersCheck, AnswersConfig, AnswersMade, AnswersRow, AnswersScript, AnswersWords, FileCause};
ghost use Rattle.hsm_program.specs.Runs.{OfCheck, OfConfig, OfMade, OfRow, OfScript, WithoutFile, WritesNothing};
ghost use Rattle.hsm_program.specs.Serving.{AnswersServe, AsksGates, AsksSeedFirst, HasLanes, HasServed, IsListenFault, IsStatus, OfServe, OtherThanServe, lane_views};

use crate::command::{Command, WordsFault, read_words};
use crate::local::{hsm_local, word_at};
use crate::outcome::Outcome;
use crate::serve::serve;
use hsm_desk::Pass;
use hsm_io::{Bench, Sink};
use hsm_server::LaneEnd;
use std::alloc::Global;
use std::sync::Wait;
use std::thread::Threads;

/// How a command ended, with the doors of its lanes `D`.
#[derive(Drop)]
pub struct Ended<D> {
    /// The exit status of the program: that of the outcome, as each of them says.
    pub status: u8,
    /// What the command came to.
    pub outcome: Outcome,
    /// After lanes were served what became of each, lane 0 first; else none.
    pub lanes: Vec<LaneEnd<D>>,
    /// After lanes were served the pass into which the passes of all lanes were joined; else none.
    pub pass: Option<Pass>,
}

// The end of a command that served no lanes.
pub(crate) fn without_lanes<D>(alloc: Global, status: u8, outcome: Outcome) -> Ended<D>
    ensures { (result.status ≡ status) × (result.outcome ≡ outcome) × (result.lanes.items ≡ []) × (result.pass ≡ None) }
{
    Ended {
        status,
        outcome,
        lanes: Vec::new(alloc),
        pass: None,
    }
}

/// Does what the words ask for, with what the bench gives, and writes the command's own output to `out`.
///
/// The causes are looked at in this order: the words; the configuration's file and what it says; for `script` the script's file and
/// its lines; for `serve` the seed, then the doors from lane 0 upwards; then the output. Want of memory may come before any but the
/// words, and never in printing a row; in serving it hands back no lanes and no pass.
pub fn hsm_run<Rt, B, S>(
    rt: &Rt,
    alloc: Global,
    words: &[String],
    bench: &mut B,
    out: &mut S,
) -> Ended<B::Door>
where
    Rt: Threads + Wait + Sync,
    B: Bench,
    S: Sink,
    // No file of the bench is out, and no port was asked of it.
    requires none_out { (B.files bench.old).is_out ≡ false }
    requires none_asked { (B.doors bench.old).asked ≡ [] }
    // `Usage` comes exactly where the words are no command.
    ensures words { AnswersWords (asked (names words.now)) result.outcome }
    // Where the bench tells the bytes of the configuration's file, they decide whether it is refused and how, before anything else is opened.
    ensures config { OfConfig (asked (names words.now)) (λ name has_script. (bytes : List ℕ) → (B.files bench.old).bytes_of name ≡ Some bytes →
        AnswersConfig has_script name bytes (B.files bench.new).bad_name result.outcome) }
    // The theorem on serving: where lanes were served, each connection was written the framed answers to its messages, each at its own
    // single entry in one legal history, and a clear key or PIN only under a grant that was live at that entry.
    ensures headline { OfServe (asked (names words.now)) (λ name. IfSome result.pass (λ pass.
        HasServed (B.files bench.old) (B.doors bench.old) (B.moments bench.old) name (B.seeds bench.new) (B.doors bench.new)
        (lane_views B.Door.doorway B.Door.faults B.Door.broken result.lanes.items) pass)) }
    // A pass is handed back exactly with `Served` and `OutFault` of `serve`, and with every other answer no lanes either.
    ensures lanes { HasLanes (asked (names words.now)) result.outcome result.pass (lane_views B.Door.doorway B.Door.faults B.Door.broken result.lanes.items) }
    // Of lanes that were served a line each is written, but for a failed write.
    ensures serve { OfServe (asked (names words.now)) (λ name.
        AnswersServe (lane_views B.Door.doorway B.Door.faults B.Door.broken result.lanes.items) (S.stands_for out.old) (S.stands_for out.new) result.outcome) }
    // Where the bench tells the bytes of a configuration and of the script's file, they decide the outcome, the status and the output, but for faults and want of memory.
    // Each authorisation of the run is by a console text of the script with both officers' words, and what is shown in the clear is shown under a grant so given.
    ensures script { OfScript (asked (names words.now)) (λ name file. (settings bytes : List ℕ) (config : Config) →
        (B.files bench.old).bytes_of name ≡ Some settings → (B.files bench.old).bytes_of file ≡ Some bytes → HoldsConfig settings config →
        AnswersScript (run_module config) bytes (S.stands_for out.old) (S.stands_for out.new) result.status result.outcome) }
    // Of a configuration to check the line is written, but for faults and want of memory.
    ensures check { OfCheck (asked (names words.now)) (λ name. (bytes : List ℕ) (config : Config) →
        (B.files bench.old).bytes_of name ≡ Some bytes → HoldsConfig bytes config →
        AnswersCheck config (S.stands_for out.old) (S.stands_for out.new) result.status result.outcome) }
    // Of a row its lines are written. Only a write can fail, and want of memory never comes.
    ensures row { OfRow (asked (names words.now)) (λ row. AnswersRow row (S.stands_for out.old) (S.stands_for out.new) result.status result.outcome) }
    // Of a script that is made of a count and a seed, the line that sums up its run is written, but for a failed write and want of memory.
    ensures made { OfMade (asked (names words.now)) (λ count seed. AnswersMade count seed (S.stands_for out.old) (S.stands_for out.new) result.status result.outcome) }
    ensures status { IsStatus (asked (names words.now)) (lane_views B.Door.doorway B.Door.faults B.Door.broken result.lanes.items) result.status result.outcome }
    // With each other answer than `Served` and `OutFault` nothing was written.
    ensures nothing { WritesNothing (S.stands_for out.old) (S.stands_for out.new) result.outcome }
    // `FileFault` only where the count for files rose in this call, and the bad name is that of a file of the command.
    ensures file_cause { FileCause (asked (names words.now)) (B.files bench.old).faults (B.files bench.new).faults (B.files bench.new).bad_name result.outcome }
    // `SeedFault` only where the count for the seed rose in this call.
    ensures seed_cause { result.outcome ≡ Outcome.SeedFault → Rose (B.seeds bench.old).faults (B.seeds bench.new).faults }
    // `ListenFault` of a lane only where the count for doors rose in this call, as the port of that lane was asked, after those of the lanes before it.
    ensures listen_cause { OfServe (asked (names words.now)) (λ name. (lane : ℕ) → result.outcome ≡ Outcome.ListenFault lane →
        IsListenFault (B.files bench.old) (B.doors bench.old) name lane (B.doors bench.new)) }
    // Of `serve` the seed is asked for after the configuration and before the doors. A door is asked for only where a seed was given in this call.
    ensures seed_first { OfServe (asked (names words.now)) (λ name.
        AsksSeedFirst (B.seeds bench.old) (B.seeds bench.new) (B.doors bench.old) (B.doors bench.new) result.outcome) }
    // A gate was asked for each lane, with its number, from lane 0 upwards.
    ensures gates { OfServe (asked (names words.now)) (λ name.
        AsksGates (lane_views B.Door.doorway B.Door.faults B.Door.broken result.lanes.items) (B.gates bench.old) (B.gates bench.new) result.outcome) }
    // `OutFault` only where the sink's count rose in this call.
    ensures out_cause { result.outcome ≡ Outcome.OutFault → Rose (S.faults out.old) (S.faults out.new) }
    // Where the words name no file the bench is as it was.
    ensures no_file { WithoutFile (asked (names words.now)) (bench.new ≡ bench.old) }
    // Each file is as it was, and none is out. With no command but `serve` a seed, a door or a gate was asked for.
    ensures files { FilesStay (B.files bench.old).bytes_of (B.files bench.new).bytes_of }
    ensures given_back { (B.files bench.new).is_out ≡ false }
    ensures others { OtherThanServe (asked (names words.now))
        ((B.seeds bench.new ≡ B.seeds bench.old) × (B.doors bench.new ≡ B.doors bench.old) × (B.gates bench.new ≡ B.gates bench.old)) }
{
    match read_words(words) {
        Err(WordsFault::Usage(place)) => { without_lanes(alloc, 2, Outcome::Usage(place as u64)) }
        Ok(Command::Serve { config }) => serve(rt, alloc, word_at(words, config), bench, out),
        Ok(command) => {
            let (status, outcome) = hsm_local(alloc, words, &command, bench, out);
            without_lanes(alloc, status, outcome)
        }
    }
}
