//! The line that sums up what a made script printed.

ghost use Rattle.std.specs.Prelude.{◌≡◌, ◌≤◌, ◌++◌, ℕ, List, length};
ghost use Rattle.hex.specs.Hex.{encode_lower};
ghost use Rattle.hsm_tally.specs.Tallies.{StandsFor};
ghost use Rattle.hsm_make.specs.Summary.{summary_line, summary_of};

use hsm_tally::{Tally, Totals};
use hsm_text::Reply;
use itoa::Buffer;

/// Appends the summary of a run of so many messages, whose output was written to the tally: `MADE`, the number of messages, of
/// replies without an error and of other replies, and the output's SHA-256.
pub fn put_summary(count: u32, tally: Tally, out: &mut Reply)
    requires { length out.old ≤ 1000 }
    ensures { (output : List ℕ) → StandsFor tally output → out.new ≡ out.old ++ summary_of count output }
{
    put_totals(count, &tally.end(), out);
}

#[tactic(auto, unfolding(crate::specs::Summary::summary_line))]
fn put_totals(count: u32, totals: &Totals, out: &mut Reply)
    requires { length out.old ≤ 1000 }
    ensures { out.new ≡ out.old ++ summary_line count totals.now.ok totals.now.other totals.now.digest }
{
    let mut digits = Buffer::new();
    out.put(b"MADE ");
    out.put(digits.format(count).as_bytes());
    out.put(b" ");
    out.put(digits.format(totals.ok).as_bytes());
    out.put(b" ");
    out.put(digits.format(totals.other).as_bytes());
    out.put(b" ");
    out.put(&lower_hex(&totals.digest));
    out.put(b"\n");
}

// A digest in lower-case hexadecimal.
fn lower_hex(digest: &[u8; 32]) -> [u8; 64]
    ensures { result ≡ encode_lower digest.now }
{
    let mut text = [0; 64];
    let _ = hex::encode_to_slice(digest, &mut text);
    text
}
