//! Runs of scripts.

ghost use Rattle.hsm_io.specs.Outside.{Rose};
ghost use Rattle.hsm_session.specs.Runs.{OutRose, RunAnswers};
ghost use Rattle.hsm_session.specs.Scripts.{script_of};

use crate::lane::Buffers;
use crate::lines::read_script;
use crate::run::Run;
use hsm_auth::Ledger;
use hsm_frame::laws::has_one_reading;
use hsm_io::Sink;
use hsm_rows::Module;
use std::alloc::Global;
use thiserror::Error;

/// How a script ended.
#[derive(Clone, Copy, Debug, PartialEq, Eq)]
pub struct ScriptEnd {
    /// The number of entries: messages and console texts that were answered.
    pub entries: u64,
    /// The number of lanes that held a part of a frame at the end.
    pub cut: u32,
    /// The number of lanes that a frame below the least length closed.
    pub short: u32,
}

/// Why a script did not run to its end.
#[derive(Clone, Copy, Debug, Error, PartialEq, Eq)]
pub enum ScriptFault {
    /// The first line that does not read, counted from 1.
    #[error("line {0}")]
    Line(u64),
    /// Want of memory, before anything was booked or written.
    #[error("no memory")]
    Memory,
    /// A write of the output failed.
    #[error("output fault")]
    Out,
}

/// Runs a script, books its messages on the ledger, each at the moment that was set last, and writes what it prints.
pub fn script_run<S: Sink>(
    alloc: Global,
    module: &Module,
    ledger: &mut Ledger,
    script: &[u8],
    out: &mut S,
) -> Result<ScriptEnd, ScriptFault>
    // For each history that the ledger stood for, the text of the run after that history is written, and the ledger stands for that history with the entries of the run.
    ensures answers { RunAnswers «module».now (script_of «module».now.hosts script.now) ledger.old ledger.new (S.stands_for out.old) (S.stands_for out.new) result }
    ensures cause { OutRose (S.faults out.old) (S.faults out.new) result }
{
    // What follows a failed write has a reading too.
    has_one_reading();
    ledger.facts();
    let lines = read_script(alloc, module.hosts, script)?;
    let Ok(mut run) = Run::open(alloc, module) else {
        return Err(ScriptFault::Memory);
    };
    let Ok(mut buffers) = Buffers::new(alloc, module) else {
        return Err(ScriptFault::Memory);
    };
    'lines: for line in &lines {
        match run.take_line(module, ledger, line, &mut buffers, out) {
            Ok(()) => {}
            Err(_) => return Err(ScriptFault::Out),
        }
    }
    match run.end(&mut buffers, out) {
        Ok(over) => Ok(over),
        Err(_) => Err(ScriptFault::Out),
    }
}
