//! The late checks of a message, of its PIN, its data and its value: their code comes after that of what it needs.
ghost use Rattle.std.specs.Prelude.{◌≡◌, false, true, map, IfOk};
ghost use Rattle.std.specs.Option.{option_map};
ghost use Rattle.hsm_answers.specs.Checks.{compared_fault, late_fault};
ghost use Rattle.hsm_answers.specs.Values.{row_value, chain_value};
ghost use Rattle.hsm_answers.specs.Given.{code_in};
ghost use Rattle.hsm_answers.specs.Plans.{code_number};
ghost use Rattle.hsm_commands.specs.Demands.{check_demands, have_pin, value_demands};
ghost use Rattle.hsm_commands.specs.Written.{written_text};
ghost use Rattle.hsm_commands.specs.Request.{Meets, MeetsEach, Leaves, row_rules, message_of};

use crate::data_checks::check_data;
use crate::fields::text_of;
use crate::reply_fields::HeldParts;
use crate::request::Request;
use crate::value::{Written, value_of};
use hsm_answers::compared;
use hsm_lmk::KeyCache;
use hsm_rows::Code;

// 01 where the text of the compared field isn't the value.
#[tactic(auto, unfolding(hsm_answers::specs::Checks::compared_fault))]
fn compared_code(request: &Request<'_, '_>, field: Option<u8>, value: &Written) -> Option<Code>
    requires { written_text value.now ≡ row_value (message_of request.now) (row_rules request.now).value }
    ensures { option_map code_number result ≡ compared_fault (message_of request.now) field }
{
    match field {
        Some(k) => compared(text_of(request, k), value.text()),
        None => None,
    }
}

// Adds what the message holds beside its keys, or answers the code of the first late check that fails.
#[tactic(auto, unfolding(hsm_answers::specs::Checks::late_fault, hsm_answers::specs::Checks::checks_fault))]
pub(crate) fn check_late(
    request: &Request<'_, '_>,
    cache: &KeyCache,
    held: &mut HeldParts,
) -> Result<(), Code>
    requires checks { MeetsEach request.now held.old.keys (map (check_demands (row_rules request.now).pin) (row_rules request.now).checks) }
    requires have { have_pin false (row_rules request.now).checks ≡ true }
    requires value { Meets request.now held.old.keys (value_demands (row_rules request.now) (row_rules request.now).value) }
    ensures fault { code_in result ≡ late_fault (message_of request.now) }
    ensures keys { held.new.keys ≡ held.old.keys }
    ensures pin { IfOk result (λ _. Leaves request.now held.new.pin) }
    ensures value { IfOk result (λ _. written_text held.new.value ≡ row_value (message_of request.now) (row_rules request.now).value) }
    ensures chain { IfOk result (λ _. written_text held.new.chain ≡ chain_value (message_of request.now) (row_rules request.now).value) }
{
    held.pin = check_data(request, cache, &held.keys, None, request.rules.checks)?;
    let texts = value_of(request, &held.keys, &held.pin, request.rules.value);
    held.value = texts.value;
    held.chain = texts.chain;
    match compared_code(request, request.rules.compared, &held.value) {
        Some(code) => Err(code),
        None => Ok(()),
    }
}
