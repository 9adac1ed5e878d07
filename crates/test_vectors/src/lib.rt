//! Tests of the lower crates: published vectors and worked rows, with their values from outside.
#![tactic(auto)]

#[cfg(test)]
mod cache;
#[cfg(test)]
mod ciphers;
#[cfg(test)]
mod debug;
#[cfg(test)]
mod faults;
#[cfg(test)]
mod frames;
#[cfg(test)]
mod macs;
#[cfg(test)]
mod modes;
#[cfg(test)]
mod pins;
#[cfg(test)]
mod seals;
