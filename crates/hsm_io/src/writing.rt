// Writes a text whole.
ghost use Rattle.std.specs.Prelude.{◌≡◌, ◌≤◌, OnOk, OnErr};
ghost use Rattle.hsm_io.specs.Outside.{Rose};
ghost use Rattle.hsm_io.specs.Texts.{Appends, AppendsFront};

use crate::{Put, Sink};

/// A write failed.
#[derive(Clone, Copy, Debug, PartialEq, Eq)]
pub struct OutFailed;

/// Writes a text, in as many writes as that takes. Where one fails, no more is written, and a part from the front of
/// the text was.
pub fn write_all<S: Sink>(out: &mut S, text: &[u8]) -> Result<(), OutFailed>
    ensures ok { OnOk result (Appends (S.stands_for out.old) (S.stands_for out.new) text.now) }
    ensures clean { OnOk result (S.faults out.new ≡ S.faults out.old) }
    ensures front { OnErr result (AppendsFront (S.stands_for out.old) (S.stands_for out.new) text.now) }
    ensures failed { OnErr result (Rose (S.faults out.old) (S.faults out.new)) }
    ensures later { S.faults out.old ≤ S.faults out.new }
{
    let mut at = 0;
    'writes: while at < text.len() {
        match out.write(&text[at..]) {
            Put::Took(count) => at += count,
            Put::Failed => return Err(OutFailed),
        }
    }
    Ok(())
}
