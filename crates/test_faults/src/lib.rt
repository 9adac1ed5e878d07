//! Tests of a small serving, in which each call of the outside fails in turn.
#![tactic(auto)]

#[cfg(test)]
mod faults;
