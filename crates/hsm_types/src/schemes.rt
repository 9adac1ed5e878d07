//! Schemes of key texts.
ghost use Rattle.std.specs.Prelude.{◌≡◌, ◌≤◌, ◌↔◌, IsTrue};
ghost use Rattle.hsm_types.specs.Schemes.{same_scheme, scheme_parts};

use crate::types::Scheme;

/// The number of parts of a scheme's key, 1 to 3.
pub fn scheme_parts(scheme: Scheme) -> usize
    ensures parts { result ≡ scheme_parts scheme }
    ensures some { 1 ≤ result }
    ensures most { result ≤ 3 }
{
    match scheme {
        Scheme::Z => 1,
        Scheme::P | Scheme::U | Scheme::X => 2,
        Scheme::T | Scheme::Y => 3,
    }
}

impl Scheme {
    /// Whether the two are the same scheme.
    pub fn is(self, other: Scheme) -> bool
        ensures value { result ≡ same_scheme self other }
        ensures equal { IsTrue result ↔ (self ≡ other) }
    {
        self == other
    }
}
