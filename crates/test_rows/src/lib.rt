//! Tests of the command table. Their expected values come from outside.
#![tactic(auto)]

#[cfg(test)]
mod rows;
