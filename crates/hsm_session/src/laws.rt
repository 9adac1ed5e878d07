//! Laws of the runs of scripts.

ghost use Rattle.std.specs.Prelude.{◌≡◌, ◌∷◌, ◌++◌, ℕ, List, [], Ok};
ghost use Rattle.hsm_auth.specs.declared.entry.Entry.{Entry};
ghost use Rattle.hsm_auth.specs.History.{IsLegal};
ghost use Rattle.hsm_rows.specs.declared.settings.Module.{Module};
ghost use Rattle.hsm_session.specs.declared.script.ScriptEnd.{ScriptEnd};
ghost use Rattle.hsm_session.specs.Cuts.{IsOpen};
ghost use Rattle.hsm_session.specs.Runs.{IsRunOf};
ghost use Rattle.hsm_session.specs.Scripts.{Piece, Said, script_of};

use hsm_commands::asks_within_limits;
use hsm_frame::laws::has_one_reading;

/// The lines of each script that reads have one run after a history: every run of it books the
/// same and prints the same. It does nothing.
pub fn one_run()
    ensures some { (m : Module) (h : List Entry) (script : List ℕ) (lines : List Said) → script_of m.hosts script ≡ Ok lines
        → (last : List Entry) × (text : List ℕ) × (over : ScriptEnd) × IsRunOf m h lines last text over }
    ensures only { (m : Module) (h : List Entry) (lines : List Said) (last other : List Entry) (text output : List ℕ) (over end : ScriptEnd)
        → IsRunOf m h lines last text over → IsRunOf m h lines other output end → (last ≡ other) × (text ≡ output) × (over ≡ end) }
{
    has_one_reading();
}

/// A piece may be cut in two wherever one likes: the run books the same entries and ends with the same counts. It prints the
/// same, too, unless the first part closed the lane, after which the second has a line of its own. It does
/// nothing.
pub fn cut_pieces_join()
    ensures books { (m : Module) (h : List Entry) (earlier later : List Said) (lane : ℕ) (first second : List ℕ)
        (last other : List Entry) (text output : List ℕ) (over end : ScriptEnd)
        → IsRunOf m h (earlier ++ Piece lane (first ++ second) ∷ later) last text over
        → IsRunOf m h (earlier ++ Piece lane first ∷ Piece lane second ∷ later) other output end
        → (last ≡ other) × (over ≡ end) }
    ensures prints { (m : Module) (h : List Entry) (earlier later : List Said) (lane : ℕ) (first second : List ℕ)
        (last other : List Entry) (text output : List ℕ) (over end : ScriptEnd)
        → IsOpen m (earlier ++ Piece lane first ∷ []) lane
        → IsRunOf m h (earlier ++ Piece lane (first ++ second) ∷ later) last text over
        → IsRunOf m h (earlier ++ Piece lane first ∷ Piece lane second ∷ later) other output end
        → text ≡ output }
{
    has_one_reading();
}

/// A run of a script that reads goes on in a legal history: each entry is answered as the entries before it decide, within the
/// ledger's limits. It does nothing.
pub fn legal_runs()
    ensures { (m : Module) (h : List Entry) (script : List ℕ) (lines : List Said) (last : List Entry) (text : List ℕ) (over : ScriptEnd)
        → script_of m.hosts script ≡ Ok lines → IsRunOf m h lines last text over → IsLegal h → IsLegal last }
{
    asks_within_limits();
}
