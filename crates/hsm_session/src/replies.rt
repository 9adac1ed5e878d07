// Framed replies, gathered and written to a connection.

ghost use Rattle.std.specs.Prelude.{◌≡◌, ◌≤◌, ◌<◌, ◌+◌, ◌^◌, ◌++◌, [], length, false, OnOk, OnErr};
ghost use Rattle.arrayvec.specs.ArrayVec.{array_vec_len};
ghost use Rattle.hsm_frame.specs.Frames.{frame};
ghost use Rattle.hsm_io.specs.Outside.{Rose};
ghost use Rattle.hsm_session.specs.Serving.{Sends, SendsFront};

use arrayvec::ArrayVec;
use hsm_frame::frame_append;
use hsm_io::{Link, Put};

/// A write to a connection failed.
#[derive(Clone, Copy)]
pub struct LinkFailed;

// Writes a text, in as many writes as that takes. Where one fails, no more is written.
fn write_whole<K: Link>(link: &mut K, text: &[u8]) -> Result<(), LinkFailed>
    ensures ok { OnOk result (Sends (K.traffic link.old) (K.traffic link.new) text.now []) }
    ensures front { OnErr result (SendsFront (K.traffic link.old) (K.traffic link.new) text.now) }
    ensures kept { OnOk result (K.faults link.new ≡ K.faults link.old) }
    ensures failed { OnErr result (Rose (K.faults link.old) (K.faults link.new) × (K.last_was_read link.new ≡ false)) }
{
    let mut at = 0;
    'writes: while at < text.len() {
        match link.write(&text[at..]) {
            Put::Took(count) => at += count,
            Put::Failed => return Err(LinkFailed),
        }
    }
    Ok(())
}

/// Writes what is gathered, and clears it.
pub fn send<K: Link>(out: &mut ArrayVec<u8, 65537>, link: &mut K) -> Result<(), LinkFailed>
    ensures ok { OnOk result (Sends (K.traffic link.old) (K.traffic link.new) out.old.items []) }
    ensures clear { OnOk result (out.new.items ≡ []) }
    ensures front { OnErr result (SendsFront (K.traffic link.old) (K.traffic link.new) out.old.items) }
    ensures kept { OnOk result (K.faults link.new ≡ K.faults link.old) }
    ensures failed { OnErr result (Rose (K.faults link.old) (K.faults link.new) × (K.last_was_read link.new ≡ false)) }
{
    write_whole(link, out.as_slice())?;
    out.clear();
    Ok(())
}

// Makes room for so many bytes more, by a write of what is gathered where they don't fit.
fn make_room<K: Link>(
    room: usize,
    out: &mut ArrayVec<u8, 65537>,
    link: &mut K,
) -> Result<(), LinkFailed>
    requires { room ≤ 65537 }
    ensures ok { OnOk result (Sends (K.traffic link.old) (K.traffic link.new) out.old.items out.new.items) }
    ensures room { OnOk result (array_vec_len out.new + room ≤ 65537) }
    ensures front { OnErr result (SendsFront (K.traffic link.old) (K.traffic link.new) out.old.items) }
    ensures kept { OnOk result (K.faults link.new ≡ K.faults link.old) }
    ensures failed { OnErr result (Rose (K.faults link.old) (K.faults link.new) × (K.last_was_read link.new ≡ false)) }
{
    if out.len() + room <= 65_537 {
        return Ok(());
    }
    send(out, link)
}

/// Appends a reply, framed, to what is gathered, which is written before where the reply doesn't fit.
pub fn gather<K: Link>(
    reply: &[u8],
    out: &mut ArrayVec<u8, 65537>,
    link: &mut K,
) -> Result<(), LinkFailed>
    requires { length reply.now < 2 ^ 16 }
    ensures ok { OnOk result (Sends (K.traffic link.old) (K.traffic link.new) (out.old.items ++ frame reply.now) out.new.items) }
    ensures front { OnErr result (SendsFront (K.traffic link.old) (K.traffic link.new) (out.old.items ++ frame reply.now)) }
    ensures kept { OnOk result (K.faults link.new ≡ K.faults link.old) }
    ensures failed { OnErr result (Rose (K.faults link.old) (K.faults link.new) × (K.last_was_read link.new ≡ false)) }
{
    make_room(reply.len() + 2, out, link)?;
    frame_append(reply, out);
    Ok(())
}
