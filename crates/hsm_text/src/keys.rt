//! Key texts.
ghost use Rattle.std.specs.Prelude.{◌≡◌, length, if◌then◌else◌, ◌==◌, ◌||◌, take};
ghost use Rattle.hsm_text.specs.KeyTexts.{scheme_named, scheme_of, digits_of};

use hsm_types::Scheme;

/// The forms of key texts. In each a tag Z, U, T, X or Y stands before the digits of its scheme, which are 16 a part;
/// the form says which tags may stand and what an untagged text is.
#[derive(Clone, Copy, Debug, PartialEq, Eq)]
pub enum KeyForm {
    /// Z, U or T; untagged are 16 digits.
    K,
    /// U; untagged are 32 digits.
    P,
    /// Z, U, T, X or Y; untagged are 16 digits.
    W,
    /// Z, U or T; untagged are 16 digits.
    F0,
    /// Z, U or T; untagged are 32 digits.
    F1,
    /// Z, U or T; no untagged text.
    F2,
}

/// A key text in its parts.
#[derive(Clone, Copy, Debug, PartialEq, Eq)]
pub struct KeyText<'a> {
    /// The scheme that the tag names. Untagged, 16 digits have the scheme Z and 32 digits the scheme P.
    pub scheme: Scheme,
    /// The hexadecimal digits of either case, 16 a part, without the tag.
    pub digits: &'a [u8],
}

// The scheme that a tag names, Z for any other text.
fn scheme_named(tag: &[u8]) -> Scheme
    ensures { result ≡ scheme_named tag.now }
{
    match tag {
        b"U" => Scheme::U,
        b"T" => Scheme::T,
        b"X" => Scheme::X,
        b"Y" => Scheme::Y,
        _ => Scheme::Z,
    }
}

impl<'a> KeyText<'a> {
    /// The parts of a whole key text. Any other text gives parts that mean nothing.
    #[tactic(auto, unfolding(crate::specs::KeyTexts::scheme_of, crate::specs::KeyTexts::digits_of))]
    pub fn of(text: &'a [u8]) -> KeyText<'a>
        ensures scheme { result.scheme ≡ scheme_of text.now }
        ensures digits { result.digits.now ≡ digits_of text.now }
    {
        match text.len() {
            16 => KeyText {
                scheme: Scheme::Z,
                digits: text,
            },
            32 => KeyText {
                scheme: Scheme::P,
                digits: text,
            },
            0 => KeyText {
                scheme: Scheme::Z,
                digits: text,
            },
            _ => KeyText {
                scheme: scheme_named(&text[..1]),
                digits: &text[1..],
            },
        }
    }
}
