//! Tests of the outside in memory and of the tally.
#![tactic(auto)]

#[cfg(test)]
mod benches;
#[cfg(test)]
mod streams;
