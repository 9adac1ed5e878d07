//! The program's commands over the outside as traits: a script, a check of a configuration, a row of the table, a script that
//! is made, and lanes served on threads.
#![tactic(auto)]

mod command;
mod ends;
mod lanes;
mod local;
mod made;
mod outcome;
mod reading;
mod run;
mod serve;

pub use command::{Command, WordsFault, read_words, words_of_make};
pub use local::hsm_local;
pub use outcome::Outcome;
pub use reading::{FILE_LIMIT, ReadingFault, read_all};
pub use run::{Ended, hsm_run};
