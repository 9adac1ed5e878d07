//! A program of one's own over `hsm_session`: each word of its command line is answered as a host's message, on one ledger.
#![tactic(auto)]

ghost use Rattle.std.specs.Prelude.{◌≡◌, ◌≤◌, ◌^◌, List, length};
ghost use Rattle.hsm_answers.specs.Messages.{least_for};
ghost use Rattle.hsm_auth.specs.History.{StandsFor};
ghost use Rattle.hsm_auth.specs.declared.activity.Place.TheVariants.{Host};
ghost use Rattle.hsm_auth.specs.declared.entry.Entry.{Entry};
ghost use Rattle.hsm_session.specs.Booking.{reply_of};

use hsm_auth::{Ledger, Place};
use hsm_make::made_module;
use hsm_rows::Module;
use hsm_session::{answer, least_message, prepare};
use hsm_text::Reply;
use std::{env, io};

/// Makes one entry for a host's message, and puts the answer at that entry in the place of the reply.
fn answered<const N: usize>(
    module: &Module,
    ledger: &mut Ledger,
    moment: u64,
    message: &[u8],
    reply: &mut Reply,
)
    requires moment { moment ≤ 2 ^ 40 }
    requires least { least_for «module».now Host ≤ length message.now }
    requires most { length message.now ≤ 65535 }
    ensures { (h : List Entry) → StandsFor ledger.old h → reply.new ≡ reply_of «module».now Host moment h message.now }
{
    ledger.facts();
    let granted = ledger.step(moment, &prepare(module, Place::Host, message).ask());
    answer(module, Place::Host, message, &granted, reply);
}

fn main(rt: HostRuntime) -> io::Result<()> {
    let module = made_module();
    let mut ledger = Ledger::new(rt.alloc())?;
    let mut reply = Reply::new();
    for (moment, word) in env::args(&rt)?.skip(1).enumerate() {
        let message = word.as_bytes();
        let least = usize::from(least_message(&module, Place::Host));
        if moment < 1000 && least <= message.len() && message.len() <= 65535 {
            answered::<0>(&module, &mut ledger, moment as u64, message, &mut reply);
            println!(rt; "{}", String::from_utf8_lossy(rt.alloc(), reply.bytes())?)?;
        }
    }
    Ok(())
}
