//! Plans of the data commands CW, CY, M6, M8, B2, NC, NO and RA: those of `hsm_commands`, which follows the rules of each
//! row.
#![tactic(auto)]

pub use hsm_commands::{
    Plan as DataPlan, finish, finish_cached, host_rows_followed, prepare, prepare_cached,
};
