//! What the scripts that hsm_make makes say to a module.
#![tactic(auto)]

ghost use Rattle.std.specs.Prelude.{◌≡◌, ℕ};
ghost use Rattle.hsm_session.specs.Scripts.{script_of};
ghost use Rattle.hsm_make.specs.Messages.{made_text};
ghost use Rattle.law_made_scripts.specs.Said.{made_said};

/// Every line of a made script reads, and the lines say the messages of the script's numbers.
pub fn made_scripts_read()
    ensures { (count seed : ℕ) → script_of 1 (made_text count seed) ≡ Ok (made_said count seed) }
{}
