//! What is shown in the clear, and who granted it.

ghost use Rattle.std.specs.Prelude.{◌≡◌, ◌<◌, ◌≤◌, ℕ, List, Some, length, slice_get};
ghost use Rattle.hsm_auth.specs.declared.activity.Activity.{Activity};
ghost use Rattle.hsm_auth.specs.declared.entry.Ask.TheVariants.{Authorise};
ghost use Rattle.hsm_auth.specs.declared.entry.Entry.{Entry};
ghost use Rattle.hsm_rows.specs.declared.settings.Module.{Module};
ghost use Rattle.hsm_answers.specs.Clear.{ShowsClear};
ghost use Rattle.hsm_auth.specs.declared.activity.Place.{Place};
ghost use Rattle.hsm_session.specs.declared.script.ScriptEnd.{ScriptEnd};
ghost use Rattle.hsm_session.specs.Clear.{HasMessage, IsByOfficers, IsEntryOf, IsGranted};
ghost use Rattle.hsm_session.specs.Runs.{IsRunOf};
ghost use Rattle.hsm_session.specs.Scripts.{Said};

use hsm_answers::{clear_where_granted, words_authorise};

/// Each entry of a run is that of a message that a line of the script brings, at the moment of that line. One that authorises is
/// that of a console text of the script, an `A` with both officers' words. An answer shows a clear key or PIN only at an entry that
/// needs the activity of the row's mark and is answered `Use`. A grant that is live just before it covers that activity; an earlier
/// entry gave that grant, no entry between the two ends it, and where it is an entry of the run, it is that of such a text. It does
/// nothing.
pub fn clear_in_runs()
    ensures messages { (m : Module) (h : List Entry) (lines : List Said) (last : List Entry) (text : List ℕ) (over : ScriptEnd)
        → IsRunOf m h lines last text over → (i : ℕ) → length h ≤ i → i < length last → HasMessage m lines last i }
    ensures officers { (m : Module) (h : List Entry) (lines : List Said) (last : List Entry) (text : List ℕ) (over : ScriptEnd)
        → IsRunOf m h lines last text over → (i : ℕ) (e : Entry) (activity : Activity) (minutes : ℕ) → length h ≤ i
        → slice_get last i ≡ Some e → e.ask ≡ Authorise activity minutes → IsByOfficers m lines last i activity minutes }
    ensures clear { (m : Module) (h : List Entry) (lines : List Said) (last : List Entry) (text : List ℕ) (over : ScriptEnd)
        → IsRunOf m h lines last text over → (i : ℕ) (e : Entry) (side : Place) (moment : ℕ) (message : List ℕ)
        → slice_get last i ≡ Some e → IsEntryOf m last i side moment message → (s : ShowsClear m side message e.granted)
        → IsGranted m lines (length h) last i e s.row s.read }
{
    clear_where_granted();
    words_authorise();
}
