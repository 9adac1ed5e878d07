//! Tests of connections and lanes over links and doors in memory, with their answers from outside.
#![tactic(auto)]

#[cfg(test)]
mod connections;
#[cfg(test)]
mod holding;
#[cfg(test)]
mod kept;
#[cfg(test)]
mod lanes;
#[cfg(test)]
mod rooms;
#[cfg(test)]
mod unread;
