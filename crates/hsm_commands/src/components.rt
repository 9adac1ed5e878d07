//! Keys from components.
ghost use Rattle.std.specs.Prelude.{◌≡◌, ◌+◌, ◌*◌, ◌≤◌, length, slice_range};
ghost use Rattle.hsm_types.specs.Schemes.{scheme_parts};
ghost use Rattle.hsm_parity.specs.Parity.{adjusted};
ghost use Rattle.hsm_answers.specs.Values.{joined_bytes, joined_key, made_parts, made_scheme, parts_of_bytes, xor_bytes};
ghost use Rattle.hsm_commands.specs.Components.{AreComponents, MayBeComponents};
ghost use Rattle.hsm_commands.specs.Request.{row_rules, texts_of, message_of};

use crate::fields::text_of;
use crate::request::Request;
use arrayvec::ArrayVec;
use hsm_answers::{bytes_in, scheme_named};
use hsm_parity::adjust;
use hsm_tdes::Key;
use hsm_types::{Scheme, scheme_parts};

// Exclusive-or byte by byte. Of the longer one the rest follows.
fn exclusive_or(xs: &[u8], ys: &[u8]) -> ArrayVec<u8, 24>
    requires first { length xs.now ≤ 24 }
    requires second { length ys.now ≤ length xs.now }
    ensures bytes { result.items ≡ xor_bytes xs.now ys.now }
    ensures size { length result.items ≡ length xs.now }
{
    let mut out = ArrayVec::new();
    let mut rest = ys;
    for x in xs {
        match rest {
            [y, more @ ..] => {
                out.push(x ^ y);
                rest = more;
            }
            [] => out.push(*x),
        }
    }
    out
}

// The exclusive-or of the components of these fields.
fn joined_bytes(request: &Request<'_, '_>, components: &[u8]) -> ArrayVec<u8, 24>
    requires { MayBeComponents (made_scheme (message_of request.now)) (texts_of request.now) components.now }
    ensures bytes { result.items ≡ joined_bytes (texts_of request.now) components.now }
    ensures short { length result.items ≤ 8 * made_parts (message_of request.now) }
{
    match components {
        [] => ArrayVec::new(),
        [k, more @ ..] => {
            let rest = joined_bytes(request, more);
            let text = text_of(request, *k);
            if text.is_empty() {
                rest
            } else {
                let bytes = bytes_in(text);
                exclusive_or(bytes.as_slice(), rest.as_slice())
            }
        }
    }
}

// The 8 bytes from a place on, adjusted to odd parity.
fn part_at(bytes: &[u8], start: usize) -> [u8; 8]
    requires { start + 8 ≤ length bytes.now }
    ensures { result ≡ adjusted (slice_range bytes.now start (start + 8)) }
{
    let mut part = [0; 8];
    part.copy_from_slice(&bytes[start..start + 8]);
    adjust(part)
}

// The key of these bytes, adjusted to odd parity.
fn adjusted_key(scheme: Scheme, bytes: &[u8]) -> Key
    requires { length bytes.now ≡ 8 * scheme_parts scheme }
    ensures key { result ≡ parts_of_bytes (scheme_parts scheme) (adjusted bytes.now) }
    ensures parts { length result ≡ scheme_parts scheme }
{
    match scheme_parts(scheme) {
        1 => Key::one(&part_at(bytes, 0)),
        2 => Key::two(&part_at(bytes, 0), &part_at(bytes, 8)),
        _ => Key::three(&part_at(bytes, 0), &part_at(bytes, 8), &part_at(bytes, 16)),
    }
}

// The key that the components make: their exclusive-or, adjusted to odd parity. It is not inlined: only the messages that
// have components should make its room.
#[inline(never)]
#[tactic(auto, unfolding(hsm_answers::specs::Values::joined_key))]
pub(crate) fn joined_key(request: &Request<'_, '_>) -> Key
    requires { AreComponents (made_scheme (message_of request.now)) (texts_of request.now) (row_rules request.now).components }
    ensures key { result ≡ joined_key (message_of request.now) }
    ensures parts { length result ≡ made_parts (message_of request.now) }
{
    let scheme = scheme_named(text_of(request, request.rules.made.scheme));
    match request.rules.components {
        [first, more @ ..] => {
            let others = joined_bytes(request, more);
            let first = bytes_in(text_of(request, *first));
            let bytes = exclusive_or(first.as_slice(), others.as_slice());
            adjusted_key(scheme, bytes.as_slice())
        }
        // a row that joins a key has a component
        [] => unreachable!(),
    }
}
