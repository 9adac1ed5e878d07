//! The error codes that the answers of each host row bear.
#![tactic(auto)]

ghost use Rattle.std.specs.Prelude.{◌≡◌, ◌∷◌, [], ℕ, List, Some};
ghost use Rattle.hsm_auth.specs.declared.entry.Granted.{Granted};
ghost use Rattle.hsm_auth.specs.History.{Fits};
ghost use Rattle.hsm_rows.specs.declared.settings.Module.{Module};
ghost use Rattle.hsm_rows.specs.Table.{RowShape, row_B2, row_GC, row_M8, row_NG};
ghost use Rattle.hsm_auth.specs.declared.activity.Place.TheVariants.{Host};
ghost use Rattle.hsm_answers.specs.Messages.{command_of, enabled_row, message_ask};
ghost use Rattle.hsm_rows.specs.Codes.{codes_of};
ghost use Rattle.law_codes.specs.Codes.{BearsCode};

/// The answer to a host's message whose command is in a row that the module doesn't disable bears one of the row's codes, at
/// each entry whose answer fits what the message asks.
pub fn answers_bear_codes()
    ensures { (m : Module) (message : List ℕ) (g : Granted) (row : RowShape) → enabled_row m Host (command_of m Host message) ≡ Some row
        → Fits (message_ask m Host message) g → BearsCode m row message g }
{}

/// The codes of some rows; a console row has none.
pub fn codes_of_some_rows()
    ensures ng { codes_of row_NG ≡ 0 ∷ 13 ∷ 14 ∷ 15 ∷ 17 ∷ [] }
    ensures b2 { codes_of row_B2 ≡ 0 ∷ 13 ∷ 15 ∷ [] }
    ensures m8 { codes_of row_M8 ≡ 0 ∷ 1 ∷ 4 ∷ 10 ∷ 13 ∷ 15 ∷ 26 ∷ 27 ∷ 80 ∷ [] }
    ensures gc { codes_of row_GC ≡ [] }
{}
