//! Texts of replies.
ghost use Rattle.std.specs.Prelude.{◌≡◌, ◌+◌, ◌≤◌, ◌++◌, length};
ghost use Rattle.hsm_types.specs.Schemes.{scheme_parts};
ghost use Rattle.hsm_answers.specs.Keys.{key_text, tag_of};

use hsm_lmk::sealed_bytes;
use hsm_tdes::Key;
use hsm_text::Reply;
use hsm_types::Scheme;

// The tag of a scheme.
fn tag_of(scheme: Scheme) -> &'static [u8]
    ensures tag { result.now ≡ tag_of scheme }
    ensures short { length result.now ≤ 1 }
{
    match scheme {
        Scheme::Z | Scheme::P => b"",
        Scheme::U => b"U",
        Scheme::T => b"T",
        Scheme::X => b"X",
        Scheme::Y => b"Y",
    }
}

/// Appends the text of a key sealed under a wrapping key of two or three parts, at most 49 characters.
#[tactic(auto, using(crate::proofs::Lengths::hex_length))]
pub fn put_key(reply: &mut Reply, wrapping: &Key, scheme: Scheme, key: &Key)
    requires wrapping { 2 ≤ length wrapping.now }
    requires parts { length key.now ≡ scheme_parts scheme }
    requires room { length reply.old ≤ 65000 }
    ensures text { reply.new ≡ reply.old ++ key_text wrapping.now scheme key.now }
    ensures grown { length reply.new ≤ length reply.old + 49 }
{
    let bytes = sealed_bytes(wrapping, scheme, key);
    reply.put(tag_of(scheme));
    reply.put_hex(bytes.as_slice());
}
