//! A law of plans and their answers.
ghost use Rattle.std.specs.Prelude.{◌≡◌, ◌++◌, ℕ, List, [], false, is_none, if◌then◌else◌};
ghost use Rattle.hsm_auth.specs.declared.entry.Ask.{Ask};
ghost use Rattle.hsm_auth.specs.declared.entry.Granted.{Granted};
ghost use Rattle.hsm_rows.specs.declared.settings.Module.{Module};
ghost use Rattle.hsm_rows.specs.Table.{RowShape};
ghost use Rattle.hsm_rows.specs.Reading.{is_console};
ghost use Rattle.hsm_answers.specs.Answers.{answer};
ghost use Rattle.hsm_answers.specs.Plans.{IsPlanned, fault_at, code_text};
ghost use Rattle.hsm_answers.specs.declared.plans.Checked.{Checked};

/// The reply code and the error code, with 00 the reply fields, and the trailer, each appended to what stands before it,
/// are the answer of a host message.
pub fn planned_answer()
    ensures { (m : Module) (row : RowShape) (text : List ℕ) (ask : Ask) (checked : Checked) (trailer : List ℕ) (fields : Granted → List ℕ)
        (g : Granted) (old coded filled whole : List ℕ)
        → is_console row ≡ false → IsPlanned m row text ask checked trailer fields
        → coded ≡ old ++ (row.reply ++ code_text (fault_at checked g))
        → filled ≡ coded ++ (if is_none (fault_at checked g) then fields g else [])
        → whole ≡ filled ++ trailer
        → whole ≡ old ++ answer m row text g }
{}
