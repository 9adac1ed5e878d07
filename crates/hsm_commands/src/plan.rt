//! Plans of messages.
ghost use Rattle.std.specs.Prelude.{◌≡◌, ◌+◌, ◌^◌, ◌<◌, ◌≤◌, ◌++◌, [], true, false, length};
ghost use Rattle.hsm_auth.specs.History.{CanAsk, Fits};
ghost use Rattle.hsm_rows.specs.Reading.{is_console, read_text_of};
ghost use Rattle.hsm_rows.specs.Table.{shape_of};
ghost use Rattle.hsm_answers.specs.Answers.{answer, is_full};
ghost use Rattle.hsm_answers.specs.Asks.{ask_of};
ghost use Rattle.hsm_answers.specs.Kept.{IsCacheOf, Opens, opened_by};
ghost use Rattle.hsm_answers.specs.Values.{first_of, values};
ghost use Rattle.hsm_commands.specs.Demands.{terms_room};
ghost use Rattle.hsm_commands.specs.Plans.{FitsEcho, plan_row, plan_text, plan_ask, plan_read, written_fields, IsPlanOf, IsFollowed, IsReady, plan_message};

use crate::message_checks::{Found, check_message, refused};
use crate::officers::refuses_words;
use crate::reply_fields::{Entry, key_at_entry, pin_at_entry, put_spaced, put_terms};
use crate::request::Request;
use arrayvec::ArrayVec;
use hsm_answers::laws::planned_answer;
use hsm_answers::{Checked, first_of, put_code};
use hsm_auth::{Ask, Granted};
use hsm_lmk::KeyCache;
use hsm_rows::{Fields, Module, Row, is_console, read_fields, texts_stand};
use hsm_text::Reply;

/// What a message comes to before its entry. Where a check fails it holds no key, PIN or value.
#[derive(Drop)]
pub struct Plan<'m> {
    row: &'static Row,
    text: &'m [u8],
    // The texts and the trailer that were read: none where the fields don't read.
    fields: Fields<'m>,
    found: Found,
    // The text reads, and would authorise, but its words aren't the officers'.
    wrong_words: bool,
}

impl<'m> Plan<'m> {
    /// The message's ask.
    pub fn ask(&self) -> Ask
        ensures { result ≡ plan_ask self.now }
    {
        self.found.ask
    }
}

// Appends the reply fields: the console's that are there each after one space.
fn put_fields(
    module: &Module,
    cache: &KeyCache,
    plan: &Plan<'_>,
    granted: &Granted,
    reply: &mut Reply,
)
    requires ready { IsReady (plan_message «module».now plan.now) (plan_row plan.now).terms plan.now.found.held }
    requires place { first_of granted.now < 2 ^ 63 }
    requires room { length reply.old + terms_room (plan_read plan.now) (plan_row plan.now).terms ≤ 65535 }
    ensures text { reply.new ≡ reply.old ++ written_fields (is_console (plan_row plan.now))
        (values (plan_message «module».now plan.now) granted.now (plan_row plan.now).terms) }
    ensures grown { length reply.new ≤ length reply.old + terms_room (plan_read plan.now) (plan_row plan.now).terms }
{
    let request = Request {
        module,
        rules: plan.row.rules.rules(),
        fields: &plan.fields,
    };
    let held = &plan.found.held;
    let place = first_of(granted);
    let entry = Entry {
        request: &request,
        cache,
        held,
        granted,
        key: key_at_entry(&request, place),
        pin: pin_at_entry(&request, held, place),
    };
    if is_console(plan.row) {
        put_spaced(&entry, plan.row.terms, reply);
    } else {
        put_terms(&entry, plan.row.terms, reply);
    }
}

// No field was read.
fn no_fields<'m>() -> Fields<'m>
    ensures { read_text_of result ≡ record { texts = []; set = 0; trailer = [] } }
{
    Fields {
        texts: ArrayVec::new(),
        set: 0,
        trailer: b"",
    }
}

/// The plan of a message. The text is what follows the command code, or the word. Its keys under the LMK are those that
/// the cache keeps, or are opened, and kept up to the first key with a fault.
// Inlined, so that a plan, of 400 bytes, is made where it is kept: else each call on the way copies it.
#[inline(always)]
#[tactic(auto, unfolding(hsm_answers::specs::Kept::opened_by))]
pub fn prepare_cached<'m>(
    module: &Module,
    cache: &mut KeyCache,
    row: &'static Row,
    text: &'m [u8],
) -> Plan<'m>
    requires cache { IsCacheOf «module».now cache.old }
    requires row { IsFollowed (shape_of row.now) }
    ensures row { plan_row result ≡ shape_of row.now }
    ensures text { plan_text result ≡ text.now }
    ensures ask { plan_ask result ≡ ask_of «module».now (shape_of row.now) text.now }
    ensures may { CanAsk (plan_ask result) }
    ensures plan { IsPlanOf «module».now result }
    ensures cache { Opens «module».now cache.old cache.new (opened_by «module».now (shape_of row.now) text.now) }
{
    texts_stand();
    match read_fields(row, text) {
        Err(code) => Plan {
            row,
            text,
            fields: no_fields(),
            found: refused(Checked::Unread(code)),
            wrong_words: false,
        },
        Ok(fields) => {
            let rules = row.rules.rules();
            let wrong_words = refuses_words(module, rules, &fields);
            let mut found = refused(Checked::Passed(None));
            check_message(module, rules, &fields, cache, &mut found);
            Plan {
                row,
                text,
                fields,
                found,
                wrong_words,
            }
        }
    }
}

/// The same without a cache: each key is opened anew.
pub fn prepare<'m>(module: &Module, row: &'static Row, text: &'m [u8]) -> Plan<'m>
    requires { IsFollowed (shape_of row.now) }
    ensures row { plan_row result ≡ shape_of row.now }
    ensures text { plan_text result ≡ text.now }
    ensures ask { plan_ask result ≡ ask_of «module».now (shape_of row.now) text.now }
    ensures may { CanAsk (plan_ask result) }
    ensures plan { IsPlanOf «module».now result }
{
    prepare_cached(module, &mut KeyCache::none(), row, text)
}

// Appends the answer of a host's message: the reply code, the error code, with 00 the reply fields, and the trailer.
fn put_host(
    module: &Module,
    cache: &KeyCache,
    plan: &Plan<'_>,
    granted: &Granted,
    reply: &mut Reply,
)
    requires host { is_console (plan_row plan.now) ≡ false }
    requires plan { IsPlanOf «module».now plan.now }
    requires place { first_of granted.now < 2 ^ 63 }
    requires room { length reply.old ≤ 255 }
    requires whole { FitsEcho (plan_row plan.now) reply.old (plan_text plan.now) }
    ensures { reply.new ≡ reply.old ++ answer «module».now (plan_row plan.now) (plan_text plan.now) granted.now }
{
    planned_answer();
    if put_code(plan.row, &plan.found.checked, granted, reply) {
        put_fields(module, cache, plan, granted, reply);
    }
    reply.put(plan.fields.trailer);
}

// Whether no more grants fit.
fn is_full(granted: &Granted) -> bool
    ensures { result ≡ is_full granted.now }
{
    matches!(granted, Granted::Full)
}

// Appends the answer of a console's text: `OK` with the reply fields, or `NO` and a code, `WORDS` or `FULL`.
fn put_console(
    module: &Module,
    cache: &KeyCache,
    plan: &Plan<'_>,
    granted: &Granted,
    reply: &mut Reply,
)
    requires console { is_console (plan_row plan.now) ≡ true }
    requires plan { IsPlanOf «module».now plan.now }
    requires place { first_of granted.now < 2 ^ 63 }
    requires room { length reply.old ≤ 255 }
    requires whole { FitsEcho (plan_row plan.now) reply.old (plan_text plan.now) }
    ensures { reply.new ≡ reply.old ++ answer «module».now (plan_row plan.now) (plan_text plan.now) granted.now }
{
    if plan.wrong_words {
        reply.put(b"NO WORDS");
        return;
    }
    match plan.found.checked.fault(granted) {
        Some(code) => {
            reply.put(b"NO ");
            reply.put(&code.digits());
        }
        None => {
            if is_full(granted) {
                reply.put(b"NO FULL");
                return;
            }
            reply.put(b"OK");
            put_fields(module, cache, plan, granted, reply);
        }
    }
}

/// Appends the answer of the plan's message at its entry. The words of its ask are drawn from the entry's first place on.
/// A PIN's block is enciphered with the schedules that the cache, which may be any, keeps of its key.
///
/// A host's is the reply code, the error code, with 00 the reply fields, and the trailer. The console's is `OK` with its
/// fields each after one space, or `NO` and a two-digit code, `WORDS` or `FULL`. `WORDS` comes where the text reads and
/// its words aren't the officers', `FULL` where no more grants fit.
/// A row that repeats its text (B2) asks that the reply before it and the text fit.
pub fn finish_cached(
    module: &Module,
    cache: &KeyCache,
    plan: &Plan<'_>,
    granted: &Granted,
    reply: &mut Reply,
)
    requires plan { IsPlanOf «module».now plan.now }
    requires fits { Fits (plan_ask plan.now) granted.now }
    requires room { length reply.old ≤ 255 }
    requires whole { FitsEcho (plan_row plan.now) reply.old (plan_text plan.now) }
    ensures { reply.new ≡ reply.old ++ answer «module».now (plan_row plan.now) (plan_text plan.now) granted.now }
{
    if is_console(plan.row) {
        put_console(module, cache, plan, granted, reply);
    } else {
        put_host(module, cache, plan, granted, reply);
    }
}

/// The same without a cache.
pub fn finish(module: &Module, plan: &Plan<'_>, granted: &Granted, reply: &mut Reply)
    requires plan { IsPlanOf «module».now plan.now }
    requires fits { Fits (plan_ask plan.now) granted.now }
    requires room { length reply.old ≤ 255 }
    requires whole { FitsEcho (plan_row plan.now) reply.old (plan_text plan.now) }
    ensures { reply.new ≡ reply.old ++ answer «module».now (plan_row plan.now) (plan_text plan.now) granted.now }
{
    finish_cached(module, &KeyCache::none(), plan, granted, reply);
}
