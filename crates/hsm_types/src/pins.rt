//! PINs.
ghost use Rattle.std.specs.Prelude.{◌≡◌, if◌then◌else◌, true, Some, codes};
ghost use Rattle.std.specs.List.{list_all};
ghost use Rattle.hsm_types.specs.Pins.{is_decimal, is_pin};

use std::fmt;
use std::marker::Model;

/// A PIN of 4 to 12 digits. Contracts see the list of its digits, each 0 to 9.
#[derive(Clone, Copy, PartialEq, Eq)]
pub struct Pin {
    digits: [u8; 12],
    count: usize,
}

// `{:?}` prints nothing that the PIN holds.
impl fmt::Debug for Pin {
    ghost debug_output = { λ _. Some (codes "Pin") };

    fn fmt<W: fmt::Write>(&self, f: &mut fmt::Formatter<W>) -> fmt::Result {
        f.write_str("Pin")
    }
}

impl Model for Pin {
    ghost use Rattle.std.specs.Prelude.{List, ℕ, ◌++◌, ◌-◌, length, take, replicate};
    ghost use Rattle.hsm_types.specs.Pins.{KeepsPin};
    ghost use Rattle.hsm_types.specs.PinFields.{fields-digits};

    ghost Value = { List ℕ };

    ghost view = { λ p. take p.count p.digits };

    ghost invariant = { λ p. KeepsPin p.digits p.count };

    ghost inverse = { λ ds. record { digits = ds ++ replicate (12 - length ds) 0; count = length ds } };

    ghost inverse_ok = { λ p kept. fields-digits p kept };
}

/// Whether each of these is a decimal digit, 0 to 9.
pub fn all_decimal(digits: &[u8]) -> bool
    ensures { result ≡ list_all is_decimal digits.now }
{
    digits.iter().all(|digit| *digit < 10)
}

impl Pin {
    /// The PIN of these digits. None exactly where they are fewer than 4, more than 12, or one is above 9.
    pub fn of(digits: &[u8]) -> Option<Pin>
        ensures { result ≡ (if is_pin digits.now then Some digits.now else None) }
    {
        let count = digits.len();
        if count < 4 || count > 12 || !all_decimal(digits) {
            return None;
        }
        let mut kept = [0; 12];
        kept[..count].copy_from_slice(digits);
        Some(Pin {
            digits: kept,
            count,
        })
    }

    /// The digits, each 0 to 9.
    pub fn digits(&self) -> &[u8]
        ensures digits { result.now ≡ self.now }
        ensures pin { is_pin self.now ≡ true }
    {
        &self.digits[..self.count]
    }
}
