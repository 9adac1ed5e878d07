//! Tests of lanes that the program serves over benches in memory. Their expected values come from outside.
#![tactic(auto)]

#[cfg(test)]
mod serving;
