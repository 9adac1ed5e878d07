//! PINs in clear digits.
ghost use Rattle.std.specs.Prelude.{◌≡◌, ◌≤◌, IfOk, length};
ghost use Rattle.hsm_answers.specs.Given.{code_in};
ghost use Rattle.hsm_commands.specs.Values.{clear_fault, clear_digits};

use arrayvec::ArrayVec;
use hsm_rows::{Code, digit};
use hsm_types::Pin;

// The values of the decimal digits at the front.
fn clear_digits(text: &[u8]) -> ArrayVec<u8, 12>
    requires { length text.now ≤ 12 }
    ensures { result.items ≡ clear_digits text.now }
{
    let mut digits = ArrayVec::new();
    for character in text {
        if !character.is_ascii_digit() {
            return digits;
        }
        digits.push(digit(*character));
    }
    digits
}

// The PIN of the digits at the front: 24 where they are fewer than 4.
pub(crate) fn clear_pin(text: &[u8]) -> Result<Pin, Code>
    requires { length text.now ≤ 12 }
    ensures fault { code_in result ≡ clear_fault text.now }
    ensures pin { IfOk result (λ pin. pin ≡ clear_digits text.now) }
{
    match Pin::of(clear_digits(text).as_slice()) {
        Some(pin) => Ok(pin),
        None => Err(Code(24)),
    }
}
