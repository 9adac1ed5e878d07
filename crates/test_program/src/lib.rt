//! Tests of words, files, scripts and refusals of the program's commands. Their expected values come from outside.
#![tactic(auto)]

#[cfg(test)]
mod cases;
#[cfg(test)]
mod files;
#[cfg(test)]
mod local;
#[cfg(test)]
mod refusals;
