//! Tests over the calls of the ledger's crate.
#![tactic(auto)]

#[cfg(test)]
mod full;
#[cfg(test)]
mod ledgers;
