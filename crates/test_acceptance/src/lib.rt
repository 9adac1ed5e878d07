//! Tests that cross crates: worked messages and scripts, with their answers from outside.
#![tactic(auto)]

#[cfg(test)]
mod cards;
#[cfg(test)]
mod consoles;
#[cfg(test)]
mod diagnostics;
#[cfg(test)]
mod keys;
#[cfg(test)]
mod laboratory;
#[cfg(test)]
mod macs;
#[cfg(test)]
mod pins;
#[cfg(test)]
mod scripts;
#[cfg(test)]
mod sets;
