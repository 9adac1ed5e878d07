//! What the module asks of the ledger and answers to messages, and runs of scripts.
#![tactic(auto)]

mod batch;
mod clear;
mod lane;
mod laws;
mod lines;
mod plans;
mod replies;
mod run;
mod script;
mod serving;
mod text;
mod whole;

pub use batch::BATCH;
pub use clear::clear_in_runs;
pub use laws::{cut_pieces_join, legal_runs, one_run};
pub use lines::{Line, number_within, read_script};
pub use plans::{Plan, finish, finish_cached, prepare, prepare_cached};
pub use script::{ScriptEnd, ScriptFault, script_run};
pub use serving::{ConnEnd, Report, Tools, least_message, serve_link};
pub use whole::answer;
