//! The answer of a message in one call.

ghost use Rattle.std.specs.Prelude.{◌≡◌, ◌≤◌, length};
ghost use Rattle.hsm_auth.specs.History.{Fits};
ghost use Rattle.hsm_answers.specs.Messages.{message_answer, message_ask, least_for};

use crate::plans::{finish, prepare};
use hsm_auth::{Granted, Place};
use hsm_rows::Module;
use hsm_text::Reply;

/// Replaces the reply by the whole answer of a message at an entry that gives this answer to its ask.
pub fn answer(module: &Module, kind: Place, message: &[u8], granted: &Granted, reply: &mut Reply)
    requires least { least_for «module».now kind ≤ length message.now }
    requires most { length message.now ≤ 65535 }
    requires fits { Fits (message_ask «module».now kind message.now) granted.now }
    ensures { reply.new ≡ message_answer «module».now kind message.now granted.now }
{
    answer_by::<0>(module, kind, message, granted, reply);
}

// A constant parameter that nothing reads: the toolchain has no plan for a value that holds a type with a lifetime in a function without parameters.
fn answer_by<const N: usize>(
    module: &Module,
    kind: Place,
    message: &[u8],
    granted: &Granted,
    reply: &mut Reply,
)
    requires least { least_for «module».now kind ≤ length message.now }
    requires most { length message.now ≤ 65535 }
    requires fits { Fits (message_ask «module».now kind message.now) granted.now }
    ensures { reply.new ≡ message_answer «module».now kind message.now granted.now }
{
    let plan = prepare(module, kind, message);
    finish(module, &plan, granted, reply);
}
