//! Tests over the calls of hsm_make.
#![tactic(auto)]

#[cfg(test)]
mod scripts;
