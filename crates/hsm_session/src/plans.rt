//! What a message comes to before its entry, and its answer at the entry.

ghost use Rattle.std.specs.Prelude.{◌≡◌, ◌≤◌, ◌++◌, length, bytes_eq, IfSome};
ghost use Rattle.std.specs.List.{list_any};
ghost use Rattle.std.specs.Option.{option_map};
ghost use Rattle.hsm_auth.specs.History.{CanAsk, Fits};
ghost use Rattle.hsm_rows.specs.Table.{shape_of, shown_shape};
ghost use Rattle.hsm_answers.specs.Kept.{IsCacheOf, Opens, opened_of};
ghost use Rattle.hsm_answers.specs.Messages.{command_of, enabled_row, header_of, least_for, message_answer, message_ask, text_after, unknown_answer};
ghost use Rattle.hsm_auth.specs.declared.activity.Place.TheVariants.{Host};
ghost use Rattle.hsm_commands.specs.Plans.{IsFollowed};
ghost use Rattle.hsm_session.specs.Plans.{IsPlanOf, plan_ask, plan_kind, plan_message};

use hsm_answers::empty_ask;
use hsm_auth::{Ask, Granted, Place};
use hsm_commands::{Plan as CommandPlan, console_rows_followed, host_rows_followed};
use hsm_lmk::KeyCache;
use hsm_rows::{Module, Row, console_row, row_of, same_text, token_run};
use hsm_text::Reply;

/// What a message comes to before its entry: its ask, and what is left to answer.
#[derive(Drop)]
pub struct Plan<'m> {
    kind: Place,
    message: &'m [u8],
    // None where its code is in no row, or the module disables it.
    command: Option<CommandPlan<'m>>,
}

impl<'m> Default for Plan<'m> {
    fn default() -> Plan<'m> {
        Plan {
            kind: Place::Host,
            message: &[],
            command: None,
        }
    }
}

impl<'m> Plan<'m> {
    /// The message's ask.
    pub fn ask(&self) -> Ask
        ensures { result ≡ plan_ask self.now }
    {
        match &self.command {
            None => empty_ask(),
            Some(plan) => plan.ask(),
        }
    }
}

// A message that is cut: its header, which only a host's has, its command code or word, and the text after it.
#[derive(Clone, Copy)]
struct CutMessage<'m> {
    header: &'m [u8],
    code: &'m [u8],
    text: &'m [u8],
}

#[inline(always)]
fn cut<'m>(module: &Module, kind: Place, message: &'m [u8]) -> CutMessage<'m>
    requires { least_for «module».now kind ≤ length message.now }
    ensures header { result.header.now ≡ header_of «module».now kind message.now }
    ensures short { length result.header.now ≤ 255 }
    ensures code { result.code.now ≡ command_of «module».now kind message.now }
    ensures long { kind ≡ Host → length result.code.now ≡ 2 }
    ensures text { result.text.now ≡ text_after «module».now kind message.now }
{
    match kind {
        Place::Host => {
            let (header, command) = message.split_at(usize::from(module.header));
            let (code, text) = command.split_at(2);
            CutMessage { header, code, text }
        }
        Place::Console => {
            let (code, text) = message.split_at(token_run(message));
            CutMessage {
                header: b"",
                code,
                text,
            }
        }
    }
}

fn is_disabled(module: &Module, code: &[u8]) -> bool
    ensures { result ≡ list_any (bytes_eq code.now) «module».now.disabled.items }
{
    module
        .disabled
        .iter()
        .any(|disabled| same_text(code, disabled))
}

// The row of a code or word, where the module doesn't disable it.
#[tactic(auto, unfolding(hsm_answers::specs::Messages::enabled_row))]
fn enabled_row(module: &Module, kind: Place, code: &[u8]) -> Option<&'static Row>
    requires { kind ≡ Host → length code.now ≡ 2 }
    ensures row { option_map shown_shape result ≡ enabled_row «module».now kind code.now }
    ensures followed { IfSome result (λ r. IsFollowed (shape_of r.now)) }
{
    if is_disabled(module, code) {
        return None;
    }
    match kind {
        Place::Host => {
            host_rows_followed();
            row_of(&[code[0], code[1]])
        }
        Place::Console => {
            console_rows_followed();
            console_row(code)
        }
    }
}

/// The plan of a message. The keys of a host's message that the cache keeps are not opened anew; other ones under the LMK are
/// opened, and kept up to the first key with a fault.
// Inlined as its parts are, so that the plan is made where it is handed out and copied nowhere.
#[inline(always)]
pub fn prepare_cached<'m>(
    module: &Module,
    cache: &mut KeyCache,
    kind: Place,
    message: &'m [u8],
) -> Plan<'m>
    requires cache { IsCacheOf «module».now cache.old }
    requires least { least_for «module».now kind ≤ length message.now }
    requires most { length message.now ≤ 65535 }
    ensures kind { plan_kind result ≡ kind }
    ensures message { plan_message result ≡ message.now }
    ensures ask { plan_ask result ≡ message_ask «module».now kind message.now }
    ensures may { CanAsk (plan_ask result) }
    ensures plan { IsPlanOf «module».now result }
    ensures cache { Opens «module».now cache.old cache.new (opened_of «module».now kind message.now) }
{
    let parts = cut(module, kind, message);
    match enabled_row(module, kind, parts.code) {
        Some(row) => Plan {
            kind,
            message,
            command: Some(hsm_commands::prepare_cached(module, cache, row, parts.text)),
        },
        None => Plan {
            kind,
            message,
            command: None,
        },
    }
}

/// The same without a cache: each key is opened anew.
pub fn prepare<'m>(module: &Module, kind: Place, message: &'m [u8]) -> Plan<'m>
    requires least { least_for «module».now kind ≤ length message.now }
    requires most { length message.now ≤ 65535 }
    ensures kind { plan_kind result ≡ kind }
    ensures message { plan_message result ≡ message.now }
    ensures ask { plan_ask result ≡ message_ask «module».now kind message.now }
    ensures may { CanAsk (plan_ask result) }
    ensures plan { IsPlanOf «module».now result }
{
    prepare_cached(module, &mut KeyCache::none(), kind, message)
}

// Appends the answer to a command that is in no row.
fn put_unknown(kind: Place, code: &[u8], reply: &mut Reply)
    requires code { kind ≡ Host → length code.now ≡ 2 }
    requires room { length reply.old ≤ 255 }
    ensures { reply.new ≡ reply.old ++ unknown_answer kind code.now }
{
    match kind {
        Place::Host => {
            reply.put(&[code[0], code[1].wrapping_add(1)]);
            reply.put(b"68");
        }
        Place::Console => reply.put(b"NO 68"),
    }
}

/// Replaces the reply by the whole answer of the plan's message at its entry: the header, and what its row answers. A PIN's
/// block is enciphered with the schedules that the cache, which may be any, keeps of its key.
pub fn finish_cached(
    module: &Module,
    cache: &KeyCache,
    plan: &Plan<'_>,
    granted: &Granted,
    reply: &mut Reply,
)
    requires plan { IsPlanOf «module».now plan.now }
    requires fits { Fits (plan_ask plan.now) granted.now }
    ensures { reply.new ≡ message_answer «module».now (plan_kind plan.now) (plan_message plan.now) granted.now }
{
    let parts = cut(module, plan.kind, plan.message);
    reply.clear();
    reply.put(parts.header);
    match &plan.command {
        None => put_unknown(plan.kind, parts.code, reply),
        Some(command) => hsm_commands::finish_cached(module, cache, command, granted, reply),
    }
}

/// The same without a cache.
pub fn finish(module: &Module, plan: &Plan<'_>, granted: &Granted, reply: &mut Reply)
    requires plan { IsPlanOf «module».now plan.now }
    requires fits { Fits (plan_ask plan.now) granted.now }
    ensures { reply.new ≡ message_answer «module».now (plan_kind plan.now) (plan_message plan.now) granted.now }
{
    finish_cached(module, &KeyCache::none(), plan, granted, reply);
}
