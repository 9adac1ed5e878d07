//! The program: `hsm_tool serve CONFIG` serves host sockets and a console, `hsm_tool script CONFIG FILE` answers the messages of a script,
//! `hsm_tool check CONFIG` checks a configuration, `hsm_tool explain CODE` prints a command, and `hsm_tool make COUNT SEED` runs a script
//! that it makes.
#![tactic(auto)]

use hsm_program::{Outcome, hsm_run};
use hsm_system::{Output, SystemBench};
use std::process::ExitCode;
use std::{env, io};

fn main(rt: HostRuntime) -> ExitCode {
    let (status, outcome) = match words_of(&rt) {
        Ok(words) => {
            let mut bench = SystemBench::new(&rt);
            let mut out = Output::new(io::writer(&rt));
            let ended = hsm_run(&rt, rt.alloc(), &words, &mut bench, &mut out);
            (ended.status, ended.outcome)
        }
        Err(refused) => refused,
    };
    if matches!(status, 2..=5) {
        // Where standard error can't be written, the status alone tells.
        let _ = eprintln!(rt; "{outcome}");
    }
    ExitCode::from(status)
}

// The program's own words, or the status and the outcome where they can't be had.
fn words_of(rt: &HostRuntime) -> Result<Vec<String>, (u8, Outcome)> {
    let mut words = Vec::new(rt.alloc());
    match env::args(rt) {
        Ok(args) => {
            for word in args.skip(1) {
                if words.push(word).is_err() {
                    return Err((5, Outcome::Memory));
                }
            }
            Ok(words)
        }
        Err(error) if error.kind() == io::ErrorKind::OutOfMemory => Err((5, Outcome::Memory)),
        // A word that is no text: then no word can be had.
        Err(_) => Err((2, Outcome::Usage(0))),
    }
}
