//! What a message's checks came to before its entry, and what follows from it at the entry.
ghost use Rattle.std.specs.Prelude.{◌≡◌, ◌+◌, ◌≤◌, ◌++◌, length, is_none};
ghost use Rattle.std.specs.Option.{option_map};
ghost use Rattle.hsm_rows.specs.Table.{shape_of};
ghost use Rattle.hsm_answers.specs.Values.{first_of};
ghost use Rattle.hsm_answers.specs.Checks.{is_refused};
ghost use Rattle.hsm_answers.specs.Asks.{empty_ask};
ghost use Rattle.hsm_answers.specs.Plans.{code_number, fault_at, code_text};

use hsm_auth::{Ask, Granted, Needs};
use hsm_rows::{Code, Row};
use hsm_text::Reply;

/// How far the checks of a host message came before its entry.
#[derive(Clone, Copy, Debug, PartialEq, Eq)]
pub enum Checked {
    /// The fields don't read: the code.
    Unread(Code),
    /// An early check fails: its code.
    Failed(Code),
    /// The early checks hold: the code of the first late check that fails.
    Passed(Option<Code>),
}

// Whether a need wasn't covered at the entry.
fn is_refused(granted: &Granted) -> bool
    ensures { result ≡ is_refused granted.now }
{
    matches!(granted, Granted::Refused)
}

/// The ask of a message that is refused before its entry: a use without needs and words.
pub fn empty_ask() -> Ask
    ensures { result ≡ empty_ask }
{
    Ask::Use {
        needs: Needs {
            first: None,
            second: None,
        },
        words: 0,
    }
}

/// The place of the first random word of a granted use, else 0.
pub fn first_of(granted: &Granted) -> u64
    ensures { result ≡ first_of granted.now }
{
    match granted {
        Granted::Use { first } => *first,
        _ => 0,
    }
}

impl Checked {
    /// The code of the refusal at the entry, if there is one.
    pub fn fault(&self, granted: &Granted) -> Option<Code>
        ensures { option_map code_number result ≡ fault_at self.now granted.now }
    {
        match self {
            Checked::Unread(code) | Checked::Failed(code) => Some(*code),
            Checked::Passed(late) => {
                if is_refused(granted) {
                    Some(Code(17))
                } else {
                    *late
                }
            }
        }
    }
}

/// Appends the reply code of a row and the error code. Whether that is 00, and reply fields follow, is told.
pub fn put_code(row: &Row, checked: &Checked, granted: &Granted, reply: &mut Reply) -> bool
    requires { length reply.old + length row.now.reply.now ≤ 65000 }
    ensures text { reply.new ≡ reply.old ++ ((shape_of row.now).reply ++ code_text (fault_at checked.now granted.now)) }
    ensures grown { length reply.new ≡ length reply.old + length row.now.reply.now + 2 }
    ensures good { result ≡ is_none (fault_at checked.now granted.now) }
{
    reply.put(row.reply);
    match checked.fault(granted) {
        Some(code) => {
            reply.put(&code.digits());
            false
        }
        None => {
            reply.put(&Code(0).digits());
            true
        }
    }
}
