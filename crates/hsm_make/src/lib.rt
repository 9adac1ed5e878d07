//! Scripts that are made of a count of messages and a seed, the module that runs them, and the line that sums up a run.
#![tactic(auto)]

mod messages;
mod module;
mod script;
mod summary;

pub use module::made_module;
pub use script::made_script;
pub use summary::put_summary;
