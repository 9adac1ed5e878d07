//! Tests of the outside of the system: each adapter, and lanes over sockets.
#![tactic(auto)]

#[cfg(test)]
mod acquirer;
#[cfg(test)]
mod adapters;
#[cfg(test)]
mod connections;
#[cfg(test)]
mod told;
