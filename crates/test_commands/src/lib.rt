//! A row that is no part of the product, made of existing forms and rules: all that such a command takes is the row.
#![tactic(auto)]

mod zw;

pub use zw::{finish, fits, prepare, row};

#[cfg(test)]
mod tests;
