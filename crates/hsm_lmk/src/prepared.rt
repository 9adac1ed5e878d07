//! Schedules of keys that are kept.
ghost use Rattle.std.specs.Prelude.{◌≡◌, ◌<◌, IfSome};

use hsm_tdes::{Key, Prepared};
use std::alloc::{AllocError, Global};

// At how many places schedules are kept.
const PLACES: usize = 64;

/// Keys with their schedules, each at the place that its first part names: a key that is added takes the place of the one
/// that was there.
#[derive(Drop)]
pub(crate) struct PreparedKeys {
    places: Vec<Prepared>,
}

// An odd number near 2^64 divided by the golden ratio: products by it spread over the upper bits.
const SPREAD: u64 = 0x9E37_79B9_7F4A_7C15;

// The place of a key: the upper six bits of a product, so that like keys lie apart.
fn place_of(key: &Key) -> usize
    ensures { result < 64 }
{
    key.parts();
    (u64::from_be_bytes(key.part(0)).wrapping_mul(SPREAD) >> 58) as usize
}

impl PreparedKeys {
    /// One key at all places.
    pub(crate) fn new(alloc: Global) -> Result<PreparedKeys, AllocError> {
        let key = Prepared::of(&Key::one(&[0; 8]));
        let mut places = Vec::with_capacity(alloc, PLACES)?;
        for _ in 0..PLACES {
            places.push(key)?;
        }
        Ok(PreparedKeys { places })
    }

    /// Adds a key.
    pub(crate) fn add(&mut self, key: &Key) {
        if let Some(place) = self.places.get_mut(place_of(key)) {
            *place = Prepared::of(key);
        }
    }

    /// The key with its schedules, if it is here.
    pub(crate) fn find(&self, key: &Key) -> Option<&Prepared>
        ensures { IfSome result (λ prepared. prepared.now ≡ key.now) }
    {
        match self.places.get(place_of(key)) {
            Some(prepared) if prepared.is_of(key) => Some(prepared),
            _ => None,
        }
    }
}
