//! Plans of the PIN commands CA, CC, DE, DG, DA, DC, EA, EC, BA, NG and JA: those of `hsm_commands`, which follows the
//! rules of each row.
#![tactic(auto)]

pub use hsm_commands::{
    Plan as PinPlan, finish, finish_cached, host_rows_followed, prepare, prepare_cached,
};
