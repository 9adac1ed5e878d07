//! The configuration of the module, read from a TOML document.
#![tactic(auto)]

mod configuration;
mod keys;
mod pairs;
mod ports;
mod values;

pub use configuration::{Config, ConfigFault};
pub use pairs::test_pairs;
