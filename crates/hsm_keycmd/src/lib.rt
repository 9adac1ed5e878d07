//! Plans of the key commands A0, A6, A8 and BU: those of `hsm_commands`, which follows the rules of each row.
#![tactic(auto)]

pub use hsm_commands::{
    Plan as KeyPlan, finish, finish_cached, host_rows_followed, prepare, prepare_cached,
};
