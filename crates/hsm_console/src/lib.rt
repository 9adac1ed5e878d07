//! Plans of the console's texts A, C, VA, Q, LOG, GC and FK: those of `hsm_commands`, which follows the rules of each row.
#![tactic(auto)]

pub use hsm_commands::{Plan as ConsolePlan, console_rows_followed, finish, prepare};
