//! Tests over the calls of the desk's crate.
#![tactic(auto)]

#[cfg(test)]
mod desks;
