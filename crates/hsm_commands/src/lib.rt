//! One plan for the messages of all rows: the rules of a row's table are followed as they stand there.
#![tactic(auto)]

mod clear_pins;
mod components;
mod data_checks;
mod early_checks;
mod fields;
mod fit;
mod key_checks;
mod keys;
mod late_checks;
mod mac;
mod message_checks;
mod needs;
mod officers;
mod pins;
mod plan;
mod reply_console;
mod reply_fields;
mod reply_pins;
mod request;
mod value;
mod value_card;
mod value_mac;
mod value_pin;

pub use fit::{asks_within_limits, console_rows_followed, fits_followed, host_rows_followed};
pub use plan::{Plan, finish, finish_cached, prepare, prepare_cached};
