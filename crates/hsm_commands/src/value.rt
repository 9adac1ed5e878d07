//! The value of a message, which is written or compared.
ghost use Rattle.std.specs.Prelude.{◌≡◌, ◌≤◌, ◌<◌, IsTrue, length, true, None, Some};
ghost use Rattle.std.specs.List.{list_all};
ghost use Rattle.hsm_types.specs.Pins.{is_decimal};
ghost use Rattle.hsm_rows.specs.Standing.{AreDigits};
ghost use Rattle.hsm_answers.specs.Keys.{field_text};
ghost use Rattle.hsm_answers.specs.Pins.{given_pin, pin_account};
ghost use Rattle.hsm_answers.specs.Values.{row_value, chain_value, index_at};
ghost use Rattle.hsm_commands.specs.declared.value.Written.TheVariants.{Nothing};
ghost use Rattle.hsm_answers.specs.Checks.{checks_fault};
ghost use Rattle.hsm_commands.specs.Demands.{IsTwelveDigits, account_field, holds_pin, value_demands};
ghost use Rattle.hsm_commands.specs.Written.{written_text};
ghost use Rattle.hsm_commands.specs.Request.{Meets, Leaves, row_rules, texts_of, message_of};

use crate::fields::{digits_of, number_at, text_of};
use crate::keys::{OpenedKeys, held_key};
use crate::request::Request;
use crate::value_card::cvv_text;
use crate::value_mac::mac_texts;
use crate::value_pin::{OffsetAsked, offset_text, pvv_text};
use hsm_answers::pair_of;
use hsm_rows::{PinSource, ValueSource};
use hsm_types::Pin;

// The characters of a value.
#[derive(Clone, Copy)]
pub(crate) enum Written {
    Nothing,
    Three([u8; 3]),
    Four([u8; 4]),
    Eight([u8; 8]),
    Twelve([u8; 12]),
    Sixteen([u8; 16]),
}

impl Written {
    // The characters.
    pub(crate) fn text(&self) -> &[u8]
        ensures text { result.now ≡ written_text self.now }
        ensures short { length result.now ≤ 16 }
    {
        match self {
            Written::Nothing => b"",
            Written::Three(text) => text,
            Written::Four(text) => text,
            Written::Eight(text) => text,
            Written::Twelve(text) => text,
            Written::Sixteen(text) => text,
        }
    }
}

// The value and the chaining value of a message as they are written.
#[derive(Clone, Copy)]
pub(crate) struct Texts {
    pub(crate) value: Written,
    pub(crate) chain: Written,
}

// A value without a chaining value.
#[inline]
fn alone(value: Written) -> Texts
    ensures { result ≡ record { value = value; chain = Nothing } }
{
    Texts {
        value,
        chain: Written::Nothing,
    }
}

// The account of the row's PIN.
#[inline]
pub(crate) fn account_of(request: &Request<'_, '_>) -> [u8; 12]
    requires { IsTwelveDigits (texts_of request.now) (account_field (row_rules request.now).pin) }
    ensures account { result ≡ pin_account (texts_of request.now) (row_rules request.now).pin }
    ensures decimal { IsTrue (list_all is_decimal result) }
{
    match request.rules.pin {
        PinSource::BlockPin { account, .. }
        | PinSource::LmkPin { account, .. }
        | PinSource::ClearPin { account, .. }
        | PinSource::DrawnPin { account, .. } => digits_of(request, account),
        // a row that uses the account of its PIN has one
        PinSource::NoPin => unreachable!(),
    }
}

// The PIN that the data checks left.
#[inline]
pub(crate) fn held_pin(request: &Request<'_, '_>, pin: &Option<Pin>) -> Pin
    requires holds { holds_pin (row_rules request.now) ≡ true }
    requires left { Leaves request.now pin.now }
    ensures pin { result ≡ given_pin (message_of request.now) }
    ensures held { pin.now ≡ Some result }
{
    let _ = request;
    match pin {
        Some(pin) => *pin,
        // a row that uses the PIN has a data check that reads it
        None => unreachable!(),
    }
}

// The index of a PVK pair, the digit of field k.
fn index_of(request: &Request<'_, '_>, k: u8) -> u8
    requires { AreDigits 1 (field_text (texts_of request.now) k) }
    ensures index { result ≡ index_at (texts_of request.now) k }
    ensures digit { result < 10 }
{
    let index: [u8; 1] = digits_of(request, k);
    index[0]
}

// The value of the PIN or data.
#[tactic(auto, unfolding(hsm_answers::specs::Values::row_value, hsm_answers::specs::Values::chain_value))]
pub(crate) fn value_of(
    request: &Request<'_, '_>,
    keys: &OpenedKeys,
    pin: &Option<Pin>,
    source: ValueSource,
) -> Texts
    requires stands { Meets request.now keys.now (value_demands (row_rules request.now) source) }
    requires left { Leaves request.now pin.now }
    requires good { checks_fault (message_of request.now) ≡ None }
    ensures value { written_text result.value ≡ row_value (message_of request.now) source }
    ensures chain { written_text result.chain ≡ chain_value (message_of request.now) source }
{
    match source {
        ValueSource::NoValue => alone(Written::Nothing),
        ValueSource::PvvOf { pair, index } => {
            let pair = pair_of(&held_key(keys, pair));
            let account = account_of(request);
            alone(Written::Four(pvv_text(
                &pair,
                &account,
                index_of(request, index),
                &held_pin(request, pin),
            )))
        }
        ValueSource::OffsetOf {
            pvk,
            table,
            validation,
            check,
        } => {
            let asked = OffsetAsked {
                table: digits_of(request, table),
                validation: text_of(request, validation),
                account: account_of(request),
                check: number_at(request, check),
            };
            let pvk = held_key(keys, pvk);
            let pin = held_pin(request, pin);
            alone(Written::Twelve(offset_text(&pvk, &asked, &pin)))
        }
        ValueSource::CvvOf {
            pair,
            pan,
            expiry,
            service,
        } => {
            let pair = pair_of(&held_key(keys, pair));
            let account = text_of(request, pan);
            alone(Written::Three(cvv_text(
                &pair,
                account,
                text_of(request, expiry),
                text_of(request, service),
            )))
        }
        ValueSource::MacOf(f) => mac_texts(request, keys, &f),
    }
}
