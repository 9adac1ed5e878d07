//! What the early and the late checks of a message come to.
ghost use Rattle.std.specs.Prelude.{◌≡◌, ◌≤◌, true, None, Ok, is_some};
ghost use Rattle.hsm_auth.specs.History.{CanAsk};
ghost use Rattle.hsm_answers.specs.declared.plans.Checked.TheVariants.{Passed};
ghost use Rattle.hsm_answers.specs.Asks.{ask_read, asked_words, empty_ask, row_ask};
ghost use Rattle.hsm_answers.specs.Checks.{early_fault, late_fault};
ghost use Rattle.hsm_answers.specs.Kept.{IsCacheOf, Opens, read_entries};
ghost use Rattle.hsm_commands.specs.Demands.{word_demands};
ghost use Rattle.hsm_commands.specs.Opened.{KeysHold};
ghost use Rattle.hsm_commands.specs.Plans.{AreChecked, AskStands, IsHeld, RowStands};
ghost use Rattle.hsm_commands.specs.Request.{Leaves, Meets, module_of, row_rules, texts_of, message_of, message_with};

use crate::early_checks::check_early;
use crate::keys::OpenedKeys;
use crate::late_checks::check_late;
use crate::needs::{needs_of, word_count};
use crate::officers::{authorised, cancelled};
use crate::reply_fields::HeldParts;
use crate::request::Request;
use crate::value::Written;
use hsm_answers::{Checked, empty_ask};
use hsm_auth::Ask;
use hsm_lmk::KeyCache;
use hsm_rows::{AskKind, Code, Fields, Module, Rules};

// What the checks came to: what is asked, and what is held where none fails.
#[derive(Clone, Copy)]
pub(crate) struct Found {
    pub(crate) ask: Ask,
    pub(crate) checked: Checked,
    pub(crate) held: HeldParts,
}

// Nothing is held.
fn nothing() -> HeldParts {
    HeldParts {
        keys: OpenedKeys {
            first: None,
            second: None,
        },
        pin: None,
        value: Written::Nothing,
        chain: Written::Nothing,
    }
}

// A message that is refused before its entry.
pub(crate) fn refused(checked: Checked) -> Found
    ensures ask { result.ask ≡ empty_ask }
    ensures checked { result.checked ≡ checked }
{
    Found {
        ask: empty_ask(),
        checked,
        held: nothing(),
    }
}

// The row's ask, of so many words.
#[tactic(auto, unfolding(hsm_answers::specs::Asks::row_ask, hsm_answers::specs::Checks::needs_of))]
fn ask_with(request: &Request<'_, '_>, words: u16) -> Ask
    requires stands { AskStands (texts_of request.now) (row_rules request.now).ask }
    requires words { words ≡ asked_words (message_of request.now) }
    requires few { words ≤ 12 }
    ensures ask { result ≡ row_ask (message_of request.now) (row_rules request.now).ask }
    ensures may { CanAsk result }
{
    let rules = request.rules;
    match rules.ask {
        AskKind::UseAsk => Ask::Use {
            needs: needs_of(request, rules.acts, rules.needs),
            words,
        },
        AskKind::LookAsk => Ask::Look,
        AskKind::RecentAsk => Ask::Recent,
        AskKind::CancelAllAsk => Ask::CancelAll,
        AskKind::AuthoriseAsk => authorised(request),
        AskKind::CancelAsk => cancelled(request),
    }
}

// The ask of a message of which no late check fails.
#[tactic(auto, unfolding(hsm_answers::specs::Asks::asked_words))]
fn ask_of(request: &Request<'_, '_>, held: &HeldParts) -> Ask
    requires stands { AskStands (texts_of request.now) (row_rules request.now).ask }
    requires words { Meets request.now held.now.keys (word_demands (row_rules request.now) (row_rules request.now).words) }
    requires left { Leaves request.now held.now.pin }
    requires good { late_fault (message_of request.now) ≡ None }
    ensures ask { result ≡ row_ask (message_of request.now) (row_rules request.now).ask }
    ensures may { CanAsk result }
{
    ask_with(request, word_count(request, held))
}

// The same where one fails: it draws no words.
#[tactic(auto, unfolding(hsm_answers::specs::Asks::asked_words))]
fn late_ask(request: &Request<'_, '_>) -> Ask
    requires stands { AskStands (texts_of request.now) (row_rules request.now).ask }
    requires bad { is_some (late_fault (message_of request.now)) ≡ true }
    ensures ask { result ≡ row_ask (message_of request.now) (row_rules request.now).ask }
    ensures may { CanAsk result }
{
    ask_with(request, 0)
}

// Finds what the checks of a message come to whose keys hold, and are there.
fn find_late(request: &Request<'_, '_>, cache: &KeyCache, found: &mut Found)
    requires stands { RowStands (message_of request.now) }
    requires keys { KeysHold (message_of request.now) (row_rules request.now).keys found.old.held.keys }
    requires good { early_fault (message_of request.now) ≡ None }
    ensures ask { found.new.ask ≡ row_ask (message_of request.now) (row_rules request.now).ask }
    ensures may { CanAsk found.new.ask }
    ensures checks { AreChecked (message_of request.now) found.new.checked }
    ensures held { found.new.checked ≡ Passed None → IsHeld (message_of request.now) found.new.held }
{
    match check_late(request, cache, &mut found.held) {
        Err(code) => {
            *found = Found {
                ask: late_ask(request),
                checked: Checked::Passed(Some(code)),
                held: nothing(),
            };
        }
        Ok(()) => {
            found.ask = ask_of(request, &found.held);
            found.checked = Checked::Passed(None);
        }
    }
}

// Finds what the checks of a message come to whose LMK set is loaded.
#[tactic(auto, using(crate::proofs::SetSteps::loaded_entries), unfolding(hsm_answers::specs::Asks::ask_read))]
fn check_loaded(request: &Request<'_, '_>, cache: &mut KeyCache, found: &mut Found)
    requires cache { IsCacheOf (module_of request.now) cache.old }
    requires stands { RowStands (message_of request.now) }
    ensures ask { found.new.ask ≡ ask_read (Ok (message_of request.now)) }
    ensures may { CanAsk found.new.ask }
    ensures checks { AreChecked (message_of request.now) found.new.checked }
    ensures held { found.new.checked ≡ Passed None → IsHeld (message_of request.now) found.new.held }
    ensures cache { Opens (module_of request.now) cache.old cache.new (read_entries (Ok (message_of request.now))) }
{
    match check_early(request, cache, &mut found.held.keys) {
        Err(code) => *found = refused(Checked::Failed(code)),
        Ok(()) => find_late(request, cache, found),
    }
}

// Finds what the checks of a message come to, of which the first looks whether its LMK set is loaded: nothing of what was
// found before is kept. It is put in its place, since a key that is handed on by value is copied at each call. It is not
// inlined, as what makes a plan of it is.
#[inline(never)]
#[tactic(auto, using(crate::proofs::SetSteps::unloaded_before, crate::proofs::SetSteps::unloaded_entries), unfolding(hsm_answers::specs::Asks::ask_read))]
pub(crate) fn check_message(
    module: &Module,
    rules: &'static Rules,
    fields: &Fields<'_>,
    cache: &mut KeyCache,
    found: &mut Found,
)
    requires cache { IsCacheOf «module».now cache.old }
    requires stands { RowStands (message_with «module».now rules.now fields.now) }
    ensures ask { found.new.ask ≡ ask_read (Ok (message_with «module».now rules.now fields.now)) }
    ensures may { CanAsk found.new.ask }
    ensures checks { AreChecked (message_with «module».now rules.now fields.now) found.new.checked }
    ensures held { found.new.checked ≡ Passed None → IsHeld (message_with «module».now rules.now fields.now) found.new.held }
    ensures cache { Opens «module».now cache.old cache.new (read_entries (Ok (message_with «module».now rules.now fields.now))) }
{
    if usize::from(fields.set) >= module.lmks.len() {
        *found = refused(Checked::Failed(Code(13)));
        return;
    }
    let request = Request {
        module,
        rules,
        fields,
    };
    check_loaded(&request, cache, found);
}
