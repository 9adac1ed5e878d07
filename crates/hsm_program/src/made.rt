//! The command `make`.

ghost use Rattle.std.specs.Prelude.{◌≡◌, ℕ, List, IfSome};
ghost use Rattle.hsm_io.specs.Outside.{Rose};
ghost use Rattle.hsm_tally.specs.Tallies.{StandsFor};
ghost use Rattle.hsm_program.specs.Runs.{AnswersMade, HasStatus, IsMadeRun, WritesNothing};

use crate::local::end_with;
use crate::outcome::Outcome;
use hsm_auth::Ledger;
use hsm_io::{Sink, write_all};
use hsm_make::{made_module, made_script, put_summary};
use hsm_session::{ScriptFault, clear_in_runs, legal_runs, script_run};
use hsm_tally::Tally;
use hsm_text::Reply;
use law_made_scripts::made_scripts_read;
use std::alloc::Global;

// Runs the script that is made of a count and a seed. The tally stands for what the run prints.
fn run_made(alloc: Global, count: u32, seed: u32) -> Option<Tally>
    ensures { IfSome result (λ tally. (text : List ℕ) × IsMadeRun count seed text × StandsFor tally text) }
{
    made_scripts_read();
    clear_in_runs();
    legal_runs();
    let module = made_module();
    let Ok(script) = made_script(alloc, count, seed) else {
        return None;
    };
    let Ok(mut ledger) = Ledger::new(alloc) else {
        return None;
    };
    let mut tally = Tally::new();
    match script_run(alloc, &module, &mut ledger, &script, &mut tally) {
        Ok(_) => Some(tally),
        Err(ScriptFault::Memory) => None,
        Err(ScriptFault::Line(_)) => unreachable!(),
        Err(ScriptFault::Out) => unreachable!(),
    }
}

/// Runs the script that is made of a count and a seed, and prints the line that sums up the run.
pub(crate) fn print_made<S: Sink>(
    alloc: Global,
    count: u32,
    seed: u32,
    out: &mut S,
) -> (u8, Outcome)
    ensures made { AnswersMade count seed (S.stands_for out.old) (S.stands_for out.new) result.0 result.1 }
    ensures nothing { WritesNothing (S.stands_for out.old) (S.stands_for out.new) result.1 }
    ensures out_cause { result.1 ≡ Outcome.OutFault → Rose (S.faults out.old) (S.faults out.new) }
    ensures status { HasStatus result.0 result.1 }
{
    let Some(tally) = run_made(alloc, count, seed) else {
        return end_with(5, Outcome::Memory);
    };
    let mut line = Reply::new();
    put_summary(count, tally, &mut line);
    match write_all(out, line.bytes()) {
        Ok(()) => end_with(0, Outcome::Served),
        Err(_) => end_with(3, Outcome::OutFault),
    }
}
