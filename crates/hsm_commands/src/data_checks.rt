//! The PIN of a message and the checks of its data.
ghost use Rattle.std.specs.Prelude.{◌≡◌, true, map, length, is_some, IfOk};
ghost use Rattle.std.specs.Option.{option_map};
ghost use Rattle.hsm_answers.specs.Keys.{first_code};
ghost use Rattle.hsm_answers.specs.Pins.{pin_fault, pin_from};
ghost use Rattle.hsm_answers.specs.Checks.{data_fault};
ghost use Rattle.hsm_answers.specs.Given.{code_in};
ghost use Rattle.hsm_answers.specs.Plans.{code_number};
ghost use Rattle.hsm_commands.specs.Demands.{IsGiven, check_demands, given_demands, has_pin, have_pin, pin_after, pin_at_end};
ghost use Rattle.hsm_commands.specs.Request.{Meets, MeetsEach, row_rules, message_of};

use crate::clear_pins::clear_pin;
use crate::fields::{block_of_field, digits_of, format_of, lmk_of, number_at, text_of};
use crate::keys::{OpenedKeys, held_key};
use crate::pins::{bad_table, longer, opened_pin, sent_pin, shorter};
use crate::request::Request;
use crate::value_mac::mac_code;
use hsm_lmk::KeyCache;
use hsm_rows::{Code, DataCheck, PinSource};
use hsm_types::Pin;

// The PIN that is given, or the code of what is wrong with it.
#[tactic(auto, unfolding(hsm_answers::specs::Pins::pin_fault, hsm_answers::specs::Pins::pin_from))]
pub(crate) fn pin_given(
    request: &Request<'_, '_>,
    cache: &KeyCache,
    keys: &OpenedKeys,
    source: PinSource,
) -> Result<Pin, Code>
    requires { Meets request.now keys.now (given_demands source) }
    ensures fault { code_in result ≡ pin_fault (message_of request.now) source }
    ensures pin { IfOk result (λ pin. pin ≡ pin_from (message_of request.now) 0 source) }
{
    match source {
        PinSource::BlockPin {
            block,
            key,
            format,
            account,
        } => {
            let account = digits_of(request, account);
            let sent = block_of_field(request, block);
            sent_pin(
                cache,
                &held_key(keys, key),
                format_of(request, format),
                sent,
                &account,
            )
        }
        PinSource::LmkPin { text, account } => {
            let account = digits_of(request, account);
            opened_pin(lmk_of(request), block_of_field(request, text), &account)
        }
        PinSource::ClearPin { text, account: _ } => clear_pin(text_of(request, text)),
        // a row that checks its PIN gives one
        PinSource::NoPin | PinSource::DrawnPin { .. } => unreachable!(),
    }
}

// The code of a check of a PIN's length.
fn code_of(code: Option<Code>, pin: Option<Pin>) -> Result<Option<Pin>, Code>
    ensures fault { code_in result ≡ option_map code_number code }
    ensures pin { IfOk result (λ p. p ≡ pin) }
{
    match code {
        Some(code) => Err(code),
        None => Ok(pin),
    }
}

// The PIN after a data check, or its code.
#[tactic(auto, unfolding(hsm_answers::specs::Checks::data_fault))]
fn check_one(
    request: &Request<'_, '_>,
    cache: &KeyCache,
    keys: &OpenedKeys,
    pin: Option<Pin>,
    check: DataCheck,
) -> Result<Option<Pin>, Code>
    requires stands { Meets request.now keys.now (check_demands (row_rules request.now).pin check) }
    requires pin { IsGiven (message_of request.now) pin }
    requires held { has_pin (is_some pin) check ≡ true }
    ensures fault { code_in result ≡ data_fault (message_of request.now) check }
    ensures pin { IfOk result (λ p. IsGiven (message_of request.now) p) }
    ensures held { IfOk result (λ p. is_some p ≡ pin_after (is_some pin) check) }
{
    match check {
        DataCheck::TableCheck(k) => code_of(bad_table(&digits_of(request, k)), pin),
        DataCheck::PinCheck => match pin_given(request, cache, keys, request.rules.pin) {
            Ok(pin) => Ok(Some(pin)),
            Err(code) => Err(code),
        },
        DataCheck::LongerThan(k) => match pin {
            Some(held) => code_of(longer(number_at(request, k), &held), pin),
            // a PIN's length is checked after the PIN
            None => unreachable!(),
        },
        DataCheck::ShorterThan(k) => match pin {
            Some(held) => code_of(shorter(number_at(request, k), &held), pin),
            // a PIN's length is checked after the PIN
            None => unreachable!(),
        },
        DataCheck::MacCheck(f) => code_of(mac_code(request, &f), pin),
    }
}

// The PIN after the data checks, or the code of the first that finds something.
pub(crate) fn check_data(
    request: &Request<'_, '_>,
    cache: &KeyCache,
    keys: &OpenedKeys,
    pin: Option<Pin>,
    checks: &[DataCheck],
) -> Result<Option<Pin>, Code>
    requires stands { MeetsEach request.now keys.now (map (check_demands (row_rules request.now).pin) checks.now) }
    requires pin { IsGiven (message_of request.now) pin }
    requires held { have_pin (is_some pin) checks.now ≡ true }
    ensures fault { code_in result ≡ first_code (map (data_fault (message_of request.now)) checks.now) }
    ensures pin { IfOk result (λ p. IsGiven (message_of request.now) p) }
    ensures held { IfOk result (λ p. is_some p ≡ pin_at_end (is_some pin) checks.now) }
{
    match checks {
        [] => Ok(pin),
        [check, more @ ..] => {
            let pin = check_one(request, cache, keys, pin, *check)?;
            check_data(request, cache, keys, pin, more)
        }
    }
}
