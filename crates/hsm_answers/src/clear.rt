//! Answers that show a clear key or PIN, and texts that authorise.
ghost use Rattle.std.specs.Prelude.{◌≡◌, ◌⊎◌, ℕ, List, Some, slice_get, take};
ghost use Rattle.hsm_auth.specs.declared.activity.Activity.{Activity};
ghost use Rattle.hsm_auth.specs.declared.entry.Ask.TheVariants.{Authorise};
ghost use Rattle.hsm_auth.specs.declared.entry.Entry.{Entry};
ghost use Rattle.hsm_auth.specs.declared.entry.Granted.{Granted};
ghost use Rattle.hsm_auth.specs.History.{IsLegal, outcome};
ghost use Rattle.hsm_rows.specs.declared.settings.Module.{Module};
ghost use Rattle.hsm_rows.specs.Table.{row_GC, row_NG};
ghost use Rattle.hsm_answers.specs.Clear.{Authorises, IsGrantedAt, ShowsClear};
ghost use Rattle.hsm_answers.specs.Messages.{message_ask};
ghost use Rattle.hsm_auth.specs.declared.activity.Place.{Place};

use hsm_auth::live_grants;

/// An answer that shows a clear key or PIN is one of NG or GC. Where its message has an entry in a legal history, of any pass, and the
/// answer is the one at this entry, the entry is answered `Use` and needs the activity of the row's mark; a grant that is live just
/// before it covers that activity, an earlier entry gave that grant, and no entry between the two ends it. So it is in any history
/// where the entry is answered what the entries before it say. It does nothing.
pub fn clear_where_granted()
    ensures rows { (m : Module) (side : Place) (message : List ℕ) (g : Granted) → (s : ShowsClear m side message g) → (s.row ≡ row_NG) ⊎ (s.row ≡ row_GC) }
    ensures legal { (m : Module) (side : Place) (message : List ℕ) (h : List Entry) (i : ℕ) (e : Entry)
        → IsLegal h → slice_get h i ≡ Some e → e.ask ≡ message_ask m side message
        → (s : ShowsClear m side message e.granted) → IsGrantedAt s.row s.read h i e }
    ensures answered { (m : Module) (side : Place) (message : List ℕ) (h : List Entry) (i : ℕ) (e : Entry)
        → slice_get h i ≡ Some e → e.ask ≡ message_ask m side message → e.granted ≡ outcome (take i h) e.moment e.ask
        → (s : ShowsClear m side message e.granted) → IsGrantedAt s.row s.read h i e }
{
    live_grants();
}

/// Only a console text that bears both officers' words asks for an authorisation.
pub fn words_authorise()
    ensures { (m : Module) (side : Place) (message : List ℕ) (activity : Activity) (minutes : ℕ)
        → message_ask m side message ≡ Authorise activity minutes → Authorises m side message activity minutes }
{}
