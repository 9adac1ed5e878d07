//! The command table: its rows, the forms of their fields, how a message is read by them, and the settings of the module.
#![tactic(auto)]

mod error_codes;
pub mod fields;
mod forms;
mod laws;
mod listing;
mod read;
mod row;
mod row_rules;
mod rules;
mod settings;
mod table;
mod texts;

pub use error_codes::codes;
pub use laws::{
    clear_marks, console_texts_stand, few_fields_and_needs, forms_are, one_reading, sizes_fit,
    texts_stand,
};
pub use listing::explain;
pub use read::{Fields, is_console, read_fields};
pub use row::{Code, Field, Form, Public, Row, Secret};
pub use rules::{
    ActUse, AskKind, DataCheck, FixedNeed, KeyCheck, LengthRule, MacFields, Made, PinSource,
    RuleSet, Rules, TypeSource, Under, ValueSource, Words,
};
pub use settings::Module;
pub use table::{ROWS, console_row, row_of, rows};
pub use texts::{decimal_value, digit, same_text, text_at, token_run, two_digit_value};
