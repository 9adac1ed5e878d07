//! The officers' words, and what an authorisation and a cancellation ask.
ghost use Rattle.std.specs.Prelude.{◌≡◌, true};
ghost use Rattle.std.specs.Str.{bytes_eq};
ghost use Rattle.sha2.specs.Sha256.{sha256};
ghost use Rattle.hsm_auth.specs.History.{CanAsk};
ghost use Rattle.hsm_rows.specs.Forms.{is_minutes};
ghost use Rattle.hsm_rows.specs.Reading.{read_text_of};
ghost use Rattle.hsm_rows.specs.declared.rules.AskKind.TheVariants.{AuthoriseAsk, CancelAsk};
ghost use Rattle.hsm_answers.specs.Keys.{field_text};
ghost use Rattle.hsm_answers.specs.Answers.{is_authorise};
ghost use Rattle.hsm_answers.specs.Asks.{are_digests, row_ask};
ghost use Rattle.hsm_commands.specs.Plans.{refuses_words};
ghost use Rattle.hsm_commands.specs.Request.{texts_of, message_of, message_with};

use crate::fields::text_of;
use crate::request::Request;
use hsm_answers::empty_ask;
use hsm_auth::{Activity, Ask};
use hsm_rows::{AskKind, Fields, Module, Rules, decimal_value, same_text, text_at};
use sha2::{Digest, Sha256};

// Whether the digest is the word's.
fn has_digest(word: &[u8], digest: &[u8; 32]) -> bool
    ensures { result ≡ bytes_eq (sha256 word.now) digest.now }
{
    Sha256::digest(word) == *digest
}

// Whether the words have these digests, in this order.
fn have_digests(digests: [[u8; 32]; 2], first: &[u8], second: &[u8]) -> bool
    ensures { result ≡ are_digests digests first.now second.now }
{
    has_digest(first, &digests[0]) && has_digest(second, &digests[1])
}

// Whether the words of an authorisation, its last two fields, are the officers'. It is not inlined, and neither are the
// asks of the console below: a host's message should not make their room.
#[inline(never)]
fn words_hold(module: &Module, fields: &Fields<'_>) -> bool
    ensures { result ≡ are_digests «module».now.officers (field_text (read_text_of fields.now) 2) (field_text (read_text_of fields.now) 3) }
{
    let texts = fields.texts.as_slice();
    have_digests(module.officers, text_at(texts, 2), text_at(texts, 3))
}

// Whether the row authorises.
fn is_authorise(ask: AskKind) -> bool
    ensures { result ≡ is_authorise ask }
{
    matches!(ask, AskKind::AuthoriseAsk)
}

// Whether the row authorises, and the words aren't the officers': also where the message's LMK set isn't loaded.
#[tactic(auto, unfolding(hsm_answers::specs::Asks::words_hold))]
pub(crate) fn refuses_words(module: &Module, rules: &Rules, fields: &Fields<'_>) -> bool
    ensures { result ≡ refuses_words (message_with «module».now rules.now fields.now) }
{
    is_authorise(rules.ask) && !words_hold(module, fields)
}

// What an authorisation asks: nothing where the words aren't the officers'.
#[inline(never)]
#[tactic(auto, unfolding(hsm_answers::specs::Asks::row_ask, hsm_answers::specs::Asks::words_hold))]
pub(crate) fn authorised(request: &Request<'_, '_>) -> Ask
    requires { is_minutes (field_text (texts_of request.now) 1) ≡ true }
    ensures ask { result ≡ row_ask (message_of request.now) AuthoriseAsk }
    ensures may { CanAsk result }
{
    if !words_hold(request.module, request.fields) {
        return empty_ask();
    }
    match Activity::read(text_of(request, 0)) {
        Some(activity) => Ask::Authorise {
            activity,
            minutes: decimal_value(text_of(request, 1)) as u16,
        },
        None => empty_ask(),
    }
}

// What a cancellation asks.
#[inline(never)]
#[tactic(auto, unfolding(hsm_answers::specs::Asks::row_ask))]
pub(crate) fn cancelled(request: &Request<'_, '_>) -> Ask
    ensures ask { result ≡ row_ask (message_of request.now) CancelAsk }
    ensures may { CanAsk result }
{
    let text = text_of(request, 0);
    if same_text(text, b"*") {
        return Ask::CancelAll;
    }
    match Activity::read(text) {
        Some(activity) => Ask::Cancel { activity },
        None => empty_ask(),
    }
}
