//! The grammar: the size of the text of a field's form at the front of what is left.
ghost use Rattle.std.specs.Prelude.{◌≡◌, ◌≤◌, map, length, IfSome};
ghost use Rattle.hsm_rows.specs.Forms.{shown, size};

use super::row::Form;
use super::texts;
use super::texts::{last_text, same_text, text_at};
use hsm_text::{KeyForm, sizes};

// The cases of the forms, each with its one scanning text: form, what is left, the texts of the earlier fields.
macro_rules! scan_fields {
    ($form:expr, $rest:expr, $texts:expr) => {
        match $form {
            Form::Digits1 => sizes::digits($rest, 1),
            Form::Digits3 => sizes::digits($rest, 3),
            Form::Digits4 => sizes::digits($rest, 4),
            Form::Digits12 => sizes::digits($rest, 12),
            Form::Digits16 => sizes::digits($rest, 16),
            Form::Hex16 => sizes::hex($rest, 16),
            Form::Key => sizes::key($rest, KeyForm::K),
            Form::Pair => sizes::key($rest, KeyForm::P),
            Form::WrappedKey => sizes::key($rest, KeyForm::W),
            Form::KeyByFlag(flag) => texts::key_by_flag($rest, text_at($texts, flag)),
            Form::KeyType => texts::key_type($rest),
            Form::MacType => sizes::one_of($rest, &[b"003", b"008"]),
            Form::Type2 => texts::pair_code($rest),
            Form::Flag => sizes::one_of($rest, &[b"0", b"1", b"2"]),
            Form::Scheme => sizes::one_of($rest, &[b"Z", b"U", b"T"]),
            Form::WrapScheme => sizes::one_of($rest, &[b"Z", b"U", b"T", b"X", b"Y"]),
            Form::Format => sizes::one_of($rest, &[b"01", b"03", b"05", b"47"]),
            Form::Length => texts::pin_length($rest),
            Form::Wrapper => texts::wrapper($rest),
            Form::Account => texts::account($rest),
            Form::ClearPin => texts::clear_pin($rest),
            Form::Offset(check) => texts::filled($rest, texts::two_digit_value(text_at($texts, check))),
            Form::Validation => texts::validation($rest),
            Form::ZeroToOne => sizes::one_of($rest, &[b"0", b"1"]),
            Form::ZeroToTwo => sizes::one_of($rest, &[b"0", b"1", b"2"]),
            Form::ZeroToThree => sizes::one_of($rest, &[b"0", b"1", b"2", b"3"]),
            Form::OneOrThree => sizes::one_of($rest, &[b"1", b"3"]),
            Form::Count => sizes::hex($rest, 4),
            Form::Data => sizes::take($rest, texts::hex_value(last_text($texts))),
            Form::DataByInput(input) => {
                texts::data($rest, same_text(text_at($texts, input), b"1"), texts::hex_value(last_text($texts)))
            }
            Form::Mode03Mac(mac_size) => {
                if same_text(text_at($texts, 0), b"0") || same_text(text_at($texts, 0), b"3") {
                    sizes::hex($rest, texts::mac_digits(text_at($texts, mac_size)))
                } else {
                    Some(0)
                }
            }
            Form::TwoZeros => sizes::word($rest, b"00"),
            Form::FfSemicolon(ty) => {
                if same_text(text_at($texts, ty), b"FF") { sizes::word($rest, b";") } else { Some(0) }
            }
            Form::FfType(ty) => {
                if same_text(text_at($texts, ty), b"FF") { texts::key_type($rest) } else { Some(0) }
            }
            Form::Mode1Wrapper => {
                if same_text(text_at($texts, 0), b"1") { texts::wrapper($rest) } else { Some(0) }
            }
            Form::Mode1Key => {
                if same_text(text_at($texts, 0), b"1") { sizes::key($rest, KeyForm::K) } else { Some(0) }
            }
            Form::Mode1WrapScheme => {
                if same_text(text_at($texts, 0), b"1") { sizes::one_of($rest, &[b"Z", b"U", b"T", b"X", b"Y"]) } else { Some(0) }
            }
            Form::Mode23Chain => {
                if same_text(text_at($texts, 0), b"2") || same_text(text_at($texts, 0), b"3") {
                    sizes::hex($rest, 16)
                } else {
                    Some(0)
                }
            }
            Form::Component(scheme) => sizes::hex($rest, texts::component_digits(text_at($texts, scheme))),
            Form::LastComponent(scheme) => sizes::hex($rest, texts::component_digits(text_at($texts, scheme))),
            Form::SetNumber => texts::set_name($rest),
            Form::Act => texts::activity($rest),
            Form::ActOrAll => texts::activity_or_star($rest),
            Form::Minutes => texts::minutes($rest),
            Form::Word => texts::word($rest),
        }
    };
}

// The size of a text of the form at the front of what is left; none where no such text stands there.
#[tactic(auto, unfolding(crate::specs::Forms::size))]
pub(crate) fn size_of_form(form: Form, texts: &[&[u8]], rest: &[u8]) -> Option<usize>
    ensures size { result ≡ size form (map shown texts.now) rest.now }
    ensures within { IfSome result (λ size. size ≤ length rest.now) }
{
    scan_fields!(form, rest, texts)
}
