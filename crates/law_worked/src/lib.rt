//! Worked messages of the command table, computed from the definitions of what each command asks and answers.
#![tactic(auto)]

pub mod keys;
pub mod messages;
