//! The one test of a row that stands for what each step of its rules demands of its forms.
ghost use Rattle.std.specs.Prelude.{◌≡◌, ℕ, List, true};
ghost use Rattle.hsm_auth.specs.History.{CanAsk};
ghost use Rattle.hsm_rows.specs.declared.settings.Module.{Module};
ghost use Rattle.hsm_rows.specs.Table.{RowShape, IsConsoleRow, IsHostRow};
ghost use Rattle.hsm_answers.specs.Asks.{ask_of};
ghost use Rattle.hsm_commands.specs.Fit.{rules_fit};
ghost use Rattle.hsm_commands.specs.Plans.{IsFollowed};

use hsm_rows::texts_stand;

/// A row whose rules fit its forms can be followed, whatever texts it reads.
pub fn fits_followed()
    ensures { (row : RowShape) → rules_fit row ≡ true → IsFollowed row }
{}

/// Every host row of the table can be followed.
pub fn host_rows_followed()
    ensures { (row : RowShape) → IsHostRow row → IsFollowed row }
{}

/// Every console row of the table can be followed.
pub fn console_rows_followed()
    ensures { (row : RowShape) → IsConsoleRow row → IsFollowed row }
{}

/// What a message of a row of the table asks is within the limits of a ledger: at most 12 words, or minutes that a grant may
/// last.
pub fn asks_within_limits()
    ensures host { (m : Module) (row : RowShape) (text : List ℕ) → IsHostRow row → CanAsk (ask_of m row text) }
    ensures console { (m : Module) (row : RowShape) (text : List ℕ) → IsConsoleRow row → CanAsk (ask_of m row text) }
{
    texts_stand();
}
