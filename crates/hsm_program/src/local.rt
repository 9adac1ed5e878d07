//! The commands that one thread does: a script, a check of a configuration, a row of the table, and a script that is made.

ghost use Rattle.std.specs.Prelude.{◌≡◌, ◌<◌, ◌≤◌, ◌⊎◌, ℕ, List, Some, false, true, IfErr, IfOk, IsErrOf, IsTrue, length, Ok};
ghost use Rattle.hsm_io.specs.Outside.{Rose};
ghost use Rattle.hsm_io.specs.Files.{kept_name};
ghost use Rattle.hsm_rows.specs.Table.{IsHostRow, shape_of};
ghost use Rattle.hsm_config.specs.Rules.{all_different, are_odd};
ghost use Rattle.hsm_config.specs.declared.configuration.Config.{Config};
ghost use Rattle.hsm_program.specs.Files.{FilesStay, ReadsFile};
ghost use Rattle.hsm_config.specs.Configs.{ports_of};
ghost use Rattle.hsm_program.specs.Settings.{HoldsConfig, run_module};
ghost use Rattle.hsm_program.specs.Words.{ReadsWords, IsLocal, asked, names, word_at};
ghost use Rattle.hsm_program.specs.Runs.{AnswersCheck, AnswersConfig, AnswersMade, AnswersRow, AnswersScript, FileCause, HasStatus};
ghost use Rattle.hsm_program.specs.Runs.{OfCheck, OfConfig, OfMade, OfRow, OfScript, WithoutFile, WritesNothing, status_of};
ghost use Rattle.hsm_program.specs.Parts.{IsAfterConfig, IsPrinted, IsRefusal, ReadsConfig};

use crate::command::Command;
use crate::made::print_made;
use crate::outcome::Outcome;
use crate::reading::{ReadingFault, read_all};
use hsm_auth::Ledger;
use hsm_config::{Config, ConfigFault};
use hsm_io::{Bench, Sink, write_all};
use hsm_rows::{Module, Row, explain};
use hsm_session::{ScriptEnd, ScriptFault, clear_in_runs, legal_runs, script_run};
use hsm_text::Reply;
use itoa::Buffer;
use std::alloc::Global;

pub(crate) fn end_with(status: u8, outcome: Outcome) -> (u8, Outcome)
    ensures { result ≡ (status, outcome) }
{
    (status, outcome)
}

fn status_of(over: ScriptEnd) -> u8
    ensures { result ≡ status_of over }
{
    if over.cut == 0 && over.short == 0 {
        0
    } else {
        6
    }
}

pub(crate) fn word_at(words: &[String], place: usize) -> &str
    requires { place < length words.now }
    ensures { result.now ≡ word_at (names words.now) place }
{
    words[place].as_str()
}

// Reads a file of the bench whole, and gives it back.
fn read_file<B: Bench>(alloc: Global, name: &str, bench: &mut B) -> Result<Vec<u8>, ReadingFault>
    requires { (B.files bench.old).is_out ≡ false }
    ensures told { (bytes : List ℕ) → (B.files bench.old).bytes_of name.now ≡ Some bytes → ReadsFile bytes result }
    ensures cause { IsErrOf result ReadingFault.Failed →
        (Rose (B.files bench.old).faults (B.files bench.new).faults) × ((B.files bench.new).bad_name ≡ kept_name name.now) }
    ensures later { (B.files bench.old).faults ≤ (B.files bench.new).faults }
    ensures files { FilesStay (B.files bench.old).bytes_of (B.files bench.new).bytes_of }
    ensures given_back { (B.files bench.new).is_out ≡ false }
    ensures seeds { B.seeds bench.new ≡ B.seeds bench.old }
    ensures doors { B.doors bench.new ≡ B.doors bench.old }
    ensures moments { B.moments bench.new ≡ B.moments bench.old }
    ensures gates { B.gates bench.new ≡ B.gates bench.old }
{
    let Some(mut file) = bench.open_file(name) else {
        return Err(ReadingFault::Failed);
    };
    let bytes = read_all(alloc, &mut file);
    bench.close_file(file);
    bytes
}

// Reads the configuration of a file, or says how the command ends.
pub(crate) fn read_config<B: Bench>(
    alloc: Global,
    name: &str,
    bench: &mut B,
) -> Result<Config, (u8, Outcome)>
    requires { (B.files bench.old).is_out ≡ false }
    ensures told { (bytes : List ℕ) → (B.files bench.old).bytes_of name.now ≡ Some bytes → ReadsConfig bytes result }
    ensures refused { IfErr result (λ ended. IsRefusal ended.0 ended.1) }
    ensures cause { IfErr result (λ ended. ended.1 ≡ Outcome.FileFault →
        (Rose (B.files bench.old).faults (B.files bench.new).faults) × ((B.files bench.new).bad_name ≡ kept_name name.now)) }
    ensures odd { IfOk result (λ config. IsTrue (are_odd config.pairs)) }
    ensures some_host { IfOk result (λ config. 1 ≤ length config.host_ports.items) }
    ensures different { IfOk result (λ config. all_different (ports_of config) ≡ true) }
    ensures later { (B.files bench.old).faults ≤ (B.files bench.new).faults }
    ensures files { FilesStay (B.files bench.old).bytes_of (B.files bench.new).bytes_of }
    ensures given_back { (B.files bench.new).is_out ≡ false }
    ensures seeds { B.seeds bench.new ≡ B.seeds bench.old }
    ensures doors { B.doors bench.new ≡ B.doors bench.old }
    ensures moments { B.moments bench.new ≡ B.moments bench.old }
    ensures gates { B.gates bench.new ≡ B.gates bench.old }
{
    let bytes = match read_file(alloc, name, bench) {
        Ok(bytes) => bytes,
        Err(ReadingFault::Memory) => return Err(end_with(5, Outcome::Memory)),
        Err(ReadingFault::Failed) => return Err(end_with(3, Outcome::FileFault)),
        Err(ReadingFault::Long) => return Err(end_with(4, Outcome::FileLong)),
    };
    match Config::read(alloc, &bytes) {
        Ok(config) => Ok(config),
        Err(ConfigFault::Memory) => Err(end_with(5, Outcome::Memory)),
        Err(ConfigFault::NotToml) => {
            Err(end_with(4, Outcome::ConfigRefused(ConfigFault::NotToml)))
        }
        Err(ConfigFault::Rule(rule)) => {
            Err(end_with(4, Outcome::ConfigRefused(ConfigFault::Rule(rule))))
        }
    }
}

// The module of a script's run.
fn run_module(config: &Config) -> Module
    requires odd { IsTrue (are_odd config.now.pairs) }
    requires some_host { 1 ≤ length config.now.host_ports.items }
    ensures { result ≡ run_module config.now }
{
    config.module([0; 32])
}

// Answers the script of a file.
fn run_file<B: Bench, S: Sink>(
    alloc: Global,
    module: &Module,
    file: &str,
    bench: &mut B,
    out: &mut S,
) -> (u8, Outcome)
    requires { (B.files bench.old).is_out ≡ false }
    ensures after { IsAfterConfig result.1 }
    ensures script { (bytes : List ℕ) → (B.files bench.old).bytes_of file.now ≡ Some bytes →
        AnswersScript «module».now bytes (S.stands_for out.old) (S.stands_for out.new) result.0 result.1 }
    ensures status { HasStatus result.0 result.1 }
    ensures nothing { WritesNothing (S.stands_for out.old) (S.stands_for out.new) result.1 }
    ensures file_cause { result.1 ≡ Outcome.FileFault →
        (Rose (B.files bench.old).faults (B.files bench.new).faults) × ((B.files bench.new).bad_name ≡ kept_name file.now) }
    ensures out_cause { result.1 ≡ Outcome.OutFault → Rose (S.faults out.old) (S.faults out.new) }
    ensures files { FilesStay (B.files bench.old).bytes_of (B.files bench.new).bytes_of }
    ensures given_back { (B.files bench.new).is_out ≡ false }
    ensures seeds { B.seeds bench.new ≡ B.seeds bench.old }
    ensures doors { B.doors bench.new ≡ B.doors bench.old }
    ensures moments { B.moments bench.new ≡ B.moments bench.old }
    ensures gates { B.gates bench.new ≡ B.gates bench.old }
{
    clear_in_runs();
    legal_runs();
    let bytes = match read_file(alloc, file, bench) {
        Ok(bytes) => bytes,
        Err(ReadingFault::Memory) => return end_with(5, Outcome::Memory),
        Err(ReadingFault::Failed) => return end_with(3, Outcome::FileFault),
        Err(ReadingFault::Long) => return end_with(4, Outcome::FileLong),
    };
    let Ok(mut ledger) = Ledger::new(alloc) else {
        return end_with(5, Outcome::Memory);
    };
    match script_run(alloc, module, &mut ledger, &bytes, out) {
        Ok(over) => end_with(status_of(over), Outcome::Served),
        Err(ScriptFault::Line(line)) => end_with(4, Outcome::ScriptRefused(line)),
        Err(ScriptFault::Memory) => end_with(5, Outcome::Memory),
        Err(ScriptFault::Out) => end_with(3, Outcome::OutFault),
    }
}

// Answers the script of a file under the configuration of another.
fn run_script<B: Bench, S: Sink>(
    alloc: Global,
    settings: &str,
    file: &str,
    bench: &mut B,
    out: &mut S,
) -> (u8, Outcome)
    requires { (B.files bench.old).is_out ≡ false }
    ensures words { (place : ℕ) → result.1 ≡ Outcome.Usage place → ⊥ }
    ensures config { (bytes : List ℕ) → (B.files bench.old).bytes_of settings.now ≡ Some bytes →
        AnswersConfig true settings.now bytes (B.files bench.new).bad_name result.1 }
    ensures script { (said bytes : List ℕ) (config : Config) →
        (B.files bench.old).bytes_of settings.now ≡ Some said → (B.files bench.old).bytes_of file.now ≡ Some bytes → HoldsConfig said config →
        AnswersScript (run_module config) bytes (S.stands_for out.old) (S.stands_for out.new) result.0 result.1 }
    ensures status { HasStatus result.0 result.1 }
    ensures nothing { WritesNothing (S.stands_for out.old) (S.stands_for out.new) result.1 }
    ensures file_cause { result.1 ≡ Outcome.FileFault → (Rose (B.files bench.old).faults (B.files bench.new).faults)
        × (((B.files bench.new).bad_name ≡ kept_name settings.now) ⊎ ((B.files bench.new).bad_name ≡ kept_name file.now)) }
    ensures out_cause { result.1 ≡ Outcome.OutFault → Rose (S.faults out.old) (S.faults out.new) }
    ensures files { FilesStay (B.files bench.old).bytes_of (B.files bench.new).bytes_of }
    ensures given_back { (B.files bench.new).is_out ≡ false }
    ensures seeds { B.seeds bench.new ≡ B.seeds bench.old }
    ensures doors { B.doors bench.new ≡ B.doors bench.old }
    ensures moments { B.moments bench.new ≡ B.moments bench.old }
    ensures gates { B.gates bench.new ≡ B.gates bench.old }
{
    match read_config(alloc, settings, bench) {
        Ok(config) => run_file(alloc, &run_module(&config), file, bench, out),
        Err(ended) => ended,
    }
}

// Prints the number of a configuration's host ports.
fn print_hosts<S: Sink>(config: &Config, out: &mut S) -> (u8, Outcome)
    ensures after { IsPrinted result.1 }
    ensures check { AnswersCheck config.now (S.stands_for out.old) (S.stands_for out.new) result.0 result.1 }
    ensures out_cause { result.1 ≡ Outcome.OutFault → Rose (S.faults out.old) (S.faults out.new) }
    ensures status { HasStatus result.0 result.1 }
{
    let mut digits = Buffer::new();
    let mut text = Reply::new();
    text.put(b"OK ");
    text.put(digits.format(config.host_ports.len()).as_bytes());
    text.put(b"\n");
    match write_all(out, text.bytes()) {
        Ok(()) => end_with(0, Outcome::Served),
        Err(_) => end_with(3, Outcome::OutFault),
    }
}

// Checks the configuration of a file.
fn check_config<B: Bench, S: Sink>(
    alloc: Global,
    name: &str,
    bench: &mut B,
    out: &mut S,
) -> (u8, Outcome)
    requires { (B.files bench.old).is_out ≡ false }
    ensures words { (place : ℕ) → result.1 ≡ Outcome.Usage place → ⊥ }
    ensures config { (bytes : List ℕ) → (B.files bench.old).bytes_of name.now ≡ Some bytes →
        AnswersConfig false name.now bytes (B.files bench.new).bad_name result.1 }
    ensures check { (bytes : List ℕ) (config : Config) → (B.files bench.old).bytes_of name.now ≡ Some bytes → HoldsConfig bytes config
        → AnswersCheck config (S.stands_for out.old) (S.stands_for out.new) result.0 result.1 }
    ensures status { HasStatus result.0 result.1 }
    ensures nothing { WritesNothing (S.stands_for out.old) (S.stands_for out.new) result.1 }
    ensures file_cause { result.1 ≡ Outcome.FileFault →
        (Rose (B.files bench.old).faults (B.files bench.new).faults) × ((B.files bench.new).bad_name ≡ kept_name name.now) }
    ensures out_cause { result.1 ≡ Outcome.OutFault → Rose (S.faults out.old) (S.faults out.new) }
    ensures files { FilesStay (B.files bench.old).bytes_of (B.files bench.new).bytes_of }
    ensures given_back { (B.files bench.new).is_out ≡ false }
    ensures seeds { B.seeds bench.new ≡ B.seeds bench.old }
    ensures doors { B.doors bench.new ≡ B.doors bench.old }
    ensures moments { B.moments bench.new ≡ B.moments bench.old }
    ensures gates { B.gates bench.new ≡ B.gates bench.old }
{
    match read_config(alloc, name, bench) {
        Ok(config) => print_hosts(&config, out),
        Err(ended) => ended,
    }
}

// Prints a host row.
fn print_row<S: Sink>(row: &Row, out: &mut S) -> (u8, Outcome)
    requires { IsHostRow (shape_of row.now) }
    ensures row { AnswersRow (shape_of row.now) (S.stands_for out.old) (S.stands_for out.new) result.0 result.1 }
    ensures out_cause { result.1 ≡ Outcome.OutFault → Rose (S.faults out.old) (S.faults out.new) }
    ensures status { HasStatus result.0 result.1 }
{
    let mut text = Reply::new();
    explain(row, &mut text);
    match write_all(out, text.bytes()) {
        Ok(()) => end_with(0, Outcome::Served),
        Err(_) => end_with(3, Outcome::OutFault),
    }
}

/// Does what a command other than `serve` asks for, with the files of the bench, and writes the command's output to `out`. Gives the
/// status and the outcome. It waits for nobody.
///
/// The causes are looked at in this order: the configuration's file, what it says, the script's file, the lines of the script, the
/// output. Want of memory may come before any, and never in printing a row.
pub fn hsm_local<B: Bench, S: Sink>(
    alloc: Global,
    words: &[String],
    command: &Command,
    bench: &mut B,
    out: &mut S,
) -> (u8, Outcome)
    requires command { ReadsWords (names words.now) (Ok command.now) }
    requires not_serve { IsLocal command.now }
    // No file of the bench is out.
    requires none_out { (B.files bench.old).is_out ≡ false }
    // The words are a command.
    ensures words { (place : ℕ) → result.1 ≡ Outcome.Usage place → ⊥ }
    // Where the bench tells the bytes of the configuration's file, they decide whether it is refused and how, before the script's file is opened.
    ensures config { OfConfig (asked (names words.now)) (λ name has_script. (bytes : List ℕ) → (B.files bench.old).bytes_of name ≡ Some bytes →
        AnswersConfig has_script name bytes (B.files bench.new).bad_name result.1) }
    // Where it tells those of a configuration and of the script's file, they decide the outcome, the status and the output, but for faults and want of memory.
    // Each authorisation of the run is by a console text of the script with both officers' words, and what is shown in the clear is shown under a grant so given.
    ensures script { OfScript (asked (names words.now)) (λ name file. (settings bytes : List ℕ) (config : Config) →
        (B.files bench.old).bytes_of name ≡ Some settings → (B.files bench.old).bytes_of file ≡ Some bytes → HoldsConfig settings config →
        AnswersScript (run_module config) bytes (S.stands_for out.old) (S.stands_for out.new) result.0 result.1) }
    // Of a configuration to check the line is written, but for faults and want of memory.
    ensures check { OfCheck (asked (names words.now)) (λ name. (bytes : List ℕ) (config : Config) →
        (B.files bench.old).bytes_of name ≡ Some bytes → HoldsConfig bytes config →
        AnswersCheck config (S.stands_for out.old) (S.stands_for out.new) result.0 result.1) }
    // Of a row its lines are written. Only a write can fail, and want of memory never comes.
    ensures row { OfRow (asked (names words.now)) (λ row. AnswersRow row (S.stands_for out.old) (S.stands_for out.new) result.0 result.1) }
    // Of a script that is made the line that sums up its run is written, but for a failed write and want of memory.
    ensures made { OfMade (asked (names words.now)) (λ count seed. AnswersMade count seed (S.stands_for out.old) (S.stands_for out.new) result.0 result.1) }
    ensures status { HasStatus result.0 result.1 }
    // With each other answer than `Served` and `OutFault` nothing was written.
    ensures nothing { WritesNothing (S.stands_for out.old) (S.stands_for out.new) result.1 }
    // `FileFault` only where the count for files rose in this call, and the bad name is that of a file of the command.
    ensures file_cause { FileCause (asked (names words.now)) (B.files bench.old).faults (B.files bench.new).faults (B.files bench.new).bad_name result.1 }
    // `OutFault` only where the sink's count rose in this call.
    ensures out_cause { result.1 ≡ Outcome.OutFault → Rose (S.faults out.old) (S.faults out.new) }
    // Where the words name no file the bench is as it was.
    ensures no_file { WithoutFile (asked (names words.now)) (bench.new ≡ bench.old) }
    // Each file is as it was, and none is out.
    ensures files { FilesStay (B.files bench.old).bytes_of (B.files bench.new).bytes_of }
    ensures given_back { (B.files bench.new).is_out ≡ false }
    // No seed, no door and no gate was asked for.
    ensures seeds { B.seeds bench.new ≡ B.seeds bench.old }
    ensures doors { B.doors bench.new ≡ B.doors bench.old }
    ensures gates { B.gates bench.new ≡ B.gates bench.old }
{
    match *command {
        Command::Serve { .. } => unreachable!(),
        Command::Script { config, file } => run_script(
            alloc,
            word_at(words, config),
            word_at(words, file),
            bench,
            out,
        ),
        Command::Check { config } => check_config(alloc, word_at(words, config), bench, out),
        Command::Explain { row } => print_row(row, out),
        Command::Make { count, seed } => print_made(alloc, count, seed, out),
    }
}
