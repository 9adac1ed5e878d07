//! The error codes of a row.
ghost use Rattle.std.specs.Prelude.{◌≡◌, ◌==◌, ◌||◌, map};
ghost use Rattle.std.specs.List.{list_any};
ghost use Rattle.hsm_rows.specs.declared.row.Code.{Code};
ghost use Rattle.hsm_rows.specs.Table.{shape_of};
ghost use Rattle.hsm_rows.specs.Rules.{rules_shape};
ghost use Rattle.hsm_rows.specs.Codes.{IsRow, is_among, key_codes, pin_codes, data_codes, check_codes, names, codes_of, where_any, where_some};

use super::read::is_console;
use super::row::{Code, Field, Row, Secret};
use super::rules::{ActUse, DataCheck, FixedNeed, KeyCheck, PinSource, Rules};
use arrayvec::ArrayVec;

// Whether a field has the code.
fn has_field(fields: &[Field], code: u8) -> bool
    ensures { result ≡ list_any (λ field. code == field.code.0) fields.now }
{
    fields.iter().any(|field| code == field.code.0)
}

// Whether the code is one of a key.
fn is_of_key(key: KeyCheck, code: u8) -> bool
    ensures { result ≡ is_among code (key_codes key) }
{
    match key {
        KeyCheck::GivenKey { parity, .. } => code == 26 || code == 27 || code == parity.0,
        KeyCheck::Target { .. } => code == 26 || code == 27,
    }
}

// Whether the code is one of these keys.
fn has_key(keys: &[KeyCheck], code: u8) -> bool
    ensures { result ≡ list_any (λ key. is_among code (key_codes key)) keys.now }
{
    keys.iter().any(|key| is_of_key(*key, code))
}

// Whether the code is one of a PIN.
fn is_of_pin(pin: PinSource, code: u8) -> bool
    ensures { result ≡ is_among code (pin_codes pin) }
{
    match pin {
        PinSource::NoPin | PinSource::DrawnPin { .. } => false,
        PinSource::BlockPin { .. } => code == 20 || code == 24,
        PinSource::LmkPin { .. } => code == 14,
        PinSource::ClearPin { .. } => code == 24,
    }
}

// Whether the code is one of a check of the data.
fn is_of_data(pin: PinSource, check: DataCheck, code: u8) -> bool
    ensures { result ≡ is_among code (data_codes pin check) }
{
    match check {
        DataCheck::TableCheck(_) => code == 25,
        DataCheck::PinCheck => is_of_pin(pin, code),
        DataCheck::LongerThan(_) | DataCheck::ShorterThan(_) => code == 24,
        DataCheck::MacCheck(_) => code == 80,
    }
}

// Whether the code is one of these checks of the data.
fn has_data(pin: PinSource, checks: &[DataCheck], code: u8) -> bool
    ensures { result ≡ list_any (λ check. is_among code (data_codes pin check)) checks.now }
{
    checks.iter().any(|check| is_of_data(pin, *check, code))
}

// Whether the code is one of what the ledger must grant, or of a permit.
fn is_of_needs(acts: &[ActUse], needs: &[FixedNeed], code: u8) -> bool
    ensures { result ≡ (is_among code (where_any acts.now 29) || (is_among code (where_any acts.now 17) || is_among code (where_any needs.now 17))) }
{
    if !acts.is_empty() {
        code == 29 || code == 17
    } else {
        code == 17 && !needs.is_empty()
    }
}

// Whether the code is 75 where parts must differ, or 01 where a value is compared.
fn is_of_value(parts: Option<Secret>, compared: Option<u8>, code: u8) -> bool
    ensures { result ≡ (is_among code (where_some parts 75) || is_among code (where_some compared 1)) }
{
    code == 75 && parts.is_some() || code == 1 && compared.is_some()
}

// Whether the code is one of the checks behind the fields.
fn has_check(rules: &Rules, code: u8) -> bool
    ensures { result ≡ is_among code (check_codes (rules_shape rules.now)) }
{
    let keys = has_key(rules.keys, code);
    let needs = is_of_needs(rules.acts, rules.needs, code);
    let values = is_of_value(rules.parts_differ, rules.compared, code);
    let data = has_data(rules.pin, rules.checks, code);
    code == 13 || keys || needs || values || data
}

// Whether the row names the code.
#[tactic(auto, unfolding(crate::specs::Codes::names))]
fn is_named(row: &Row, code: u8) -> bool
    ensures { result ≡ names (shape_of row.now) code }
{
    let fields = has_field(row.fields, code);
    let checks = has_check(row.rules.rules(), code);
    code == 0 || code == 15 || fields || checks
}

/// The error codes of a row, each once and in rising order. A host row has 00; 13; 15; the codes of its fields; where it has
/// keys, 26, 27 and their codes of even parity; 29 where it uses a permit; 75 where the parts of a key must differ; 17
/// where it can need an activity; the codes of its data checks, those of a block being 20 and 24; and 01 where it compares a
/// value. A console row has none. The row must be one of the table.
pub fn codes(row: &Row) -> ArrayVec<Code, 16>
    requires { IsRow (shape_of row.now) }
    ensures { map (λ (c : Code). c.0) result.items ≡ codes_of (shape_of row.now) }
{
    let mut codes = ArrayVec::new();
    if is_console(row) {
        return codes;
    }
    for code in 0..100 {
        if is_named(row, code) {
            codes.push(Code(code));
        }
    }
    codes
}
