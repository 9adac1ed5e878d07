//! The checks of a message's keys.
ghost use Rattle.std.specs.Prelude.{◌≡◌, ◌∷◌, [], Some, None, if◌then◌else◌, ◌&&◌, IfOk, IfErr};
ghost use Rattle.hsm_rows.specs.declared.rules.KeyCheck.TheVariants.{Target};
ghost use Rattle.hsm_rows.specs.declared.rules.Under.TheVariants.{Lmk, KeyAt};
ghost use Rattle.hsm_rows.specs.Reading.{is_end};
ghost use Rattle.hsm_answers.specs.Keys.{field_text, given_fault, key_data, key_fault, keys_fault, parts_by_rule, parts_by_scheme, lengths_differ, source_at, type_of, wrapping_key};
ghost use Rattle.hsm_answers.specs.Given.{code_in};
ghost use Rattle.hsm_answers.specs.Kept.{IsCacheOf, Opens, check_entries, checks_entries, entry_for};
ghost use Rattle.hsm_commands.specs.declared.keys.OpenedKeys.{OpenedKeys};
ghost use Rattle.hsm_commands.specs.Opened.{IsLmkKey, KeyStands, KeyHolds, KeysStand, KeysHold};
ghost use Rattle.hsm_commands.specs.Request.{module_of, row_rules, texts_of, message_of};

use crate::fields::text_of;
use crate::keys::{FieldKey, OpenedKeys, found_in};
use crate::needs::type_of;
use crate::request::Request;
use hsm_answers::{Asked, check_lmk_key, check_wrapped_key, flag_parts, scheme_named};
use hsm_lmk::KeyCache;
use hsm_rows::{Code, KeyCheck, LengthRule, TypeSource, Under, same_text};
use hsm_types::{length_allowed, scheme_parts};

// The number of parts that a scheme field asks for.
#[inline]
fn parts_by_scheme(request: &Request<'_, '_>, rule: LengthRule) -> Option<usize>
    ensures { result ≡ parts_by_scheme rule (texts_of request.now) }
{
    match rule {
        LengthRule::AsScheme(k) => Some(scheme_parts(scheme_named(text_of(request, k)))),
        _ => None,
    }
}

// The number of parts that a flag or an algorithm asks for.
#[inline]
fn parts_by_rule(request: &Request<'_, '_>, rule: LengthRule) -> Option<usize>
    ensures { result ≡ parts_by_rule rule (texts_of request.now) }
{
    match rule {
        LengthRule::FlagPlusOne(k) => Some(flag_parts(text_of(request, k))),
        LengthRule::TwoForAlgorithmThree(k) => {
            if same_text(text_of(request, k), b"3") {
                Some(2)
            } else {
                None
            }
        }
        _ => None,
    }
}

// Whether the schemes of two fields are of different lengths. The second may be absent.
fn lengths_differ(request: &Request<'_, '_>, scheme: u8, second: Option<u8>) -> bool
    ensures { result ≡ lengths_differ (texts_of request.now) scheme second }
{
    match second {
        Some(second) => {
            let letter = text_of(request, second);
            let parts = scheme_parts(scheme_named(text_of(request, scheme)));
            !letter.is_empty() && parts != scheme_parts(scheme_named(letter))
        }
        None => false,
    }
}

// No key, or the code of what is wrong with one that is to be made.
#[tactic(auto, unfolding(hsm_answers::specs::Keys::key_fault))]
fn check_target(
    request: &Request<'_, '_>,
    ty: TypeSource,
    scheme: u8,
    second: Option<u8>,
) -> Result<Option<FieldKey>, Code>
    ensures fault { code_in result ≡ key_fault (message_of request.now) (Target ty scheme second) }
    ensures key { IfOk result (λ held. KeyHolds (message_of request.now) (Target ty scheme second) held) }
{
    if lengths_differ(request, scheme, second) {
        return Err(Code(26));
    }
    let parts = scheme_parts(scheme_named(text_of(request, scheme)));
    if length_allowed(type_of(request, ty), parts) {
        Ok(None)
    } else {
        Err(Code(27))
    }
}

// Whether it is an absent wrapping key.
#[inline]
fn is_left_out(wraps: bool, text: &[u8]) -> bool
    ensures { result ≡ (wraps && is_end text.now) }
{
    wraps && text.is_empty()
}

// The key of a field under the LMK, or the code of what is wrong with it.
#[inline]
fn check_lmk(
    request: &Request<'_, '_>,
    cache: &mut KeyCache,
    field: u8,
    asked: &Asked,
) -> Result<Option<FieldKey>, Code>
    requires cache { IsCacheOf (module_of request.now) cache.old }
    requires ty { type_of (texts_of request.now) (source_at field (row_rules request.now).keys) ≡ asked.now.ty }
    ensures fault { code_in result ≡ given_fault (wrapping_key (message_of request.now) Lmk asked.now.ty) Lmk asked.now (field_text (texts_of request.now) field) }
    ensures key { IfOk result (λ held. IsLmkKey (message_of request.now) field asked.now held) }
    ensures cache { IfOk result (λ _. Opens (module_of request.now) cache.old cache.new
        (if asked.now.wraps && is_end (field_text (texts_of request.now) field) then [] else entry_for (module_of request.now).lmks.items (texts_of request.now).set asked.now.ty (key_data (texts_of request.now) field))) }
    ensures unkept { IfErr result (λ _. cache.new ≡ cache.old) }
{
    let text = text_of(request, field);
    if is_left_out(asked.wraps, text) {
        return Ok(None);
    }
    let sets = request.module.lmks.as_slice();
    match check_lmk_key(cache, sets, request.fields.set, asked, text) {
        Ok(key) => Ok(Some(FieldKey { field, key })),
        Err(code) => Err(code),
    }
}

// The key of a check, or the code of what is wrong with it.
#[tactic(auto, unfolding(hsm_answers::specs::Keys::key_fault, hsm_answers::specs::Keys::lmk_key, hsm_answers::specs::Keys::key_data_fault))]
fn check_key(
    request: &Request<'_, '_>,
    cache: &mut KeyCache,
    earlier: &Option<FieldKey>,
    check: KeyCheck,
) -> Result<Option<FieldKey>, Code>
    requires cache { IsCacheOf (module_of request.now) cache.old }
    requires stands { KeyStands (message_of request.now) earlier.now check }
    ensures fault { code_in result ≡ key_fault (message_of request.now) check }
    ensures key { IfOk result (λ held. KeyHolds (message_of request.now) check held) }
    ensures cache { IfOk result (λ _. Opens (module_of request.now) cache.old cache.new (check_entries (message_of request.now) check)) }
    ensures unkept { IfErr result (λ _. cache.new ≡ cache.old) }
{
    match check {
        KeyCheck::GivenKey {
            field,
            under,
            ty,
            wraps,
            rule,
            parity,
        } => {
            let asked = Asked {
                ty: type_of(request, ty),
                wraps,
                by_scheme: parts_by_scheme(request, rule),
                by_rule: parts_by_rule(request, rule),
                parity,
            };
            match under {
                Under::Lmk => check_lmk(request, cache, field, &asked),
                Under::KeyAt(kek) => match found_in(earlier, kek) {
                    Some(wrapping) => {
                        let key = check_wrapped_key(
                            &wrapping,
                            kek,
                            &asked,
                            text_of(request, field),
                        )?;
                        Ok(Some(FieldKey { field, key }))
                    }
                    None => Err(Code(15)),
                },
            }
        }
        KeyCheck::Target { ty, scheme, second } => check_target(request, ty, scheme, second),
    }
}

// Puts the keys of a row's checks in the place of `keys`, or answers the code of the first of them with a fault.
#[tactic(auto, unfolding(hsm_answers::specs::Keys::keys_fault))]
pub(crate) fn check_keys(
    request: &Request<'_, '_>,
    cache: &mut KeyCache,
    checks: &[KeyCheck],
    keys: &mut OpenedKeys,
) -> Result<(), Code>
    requires cache { IsCacheOf (module_of request.now) cache.old }
    requires stand { KeysStand (message_of request.now) checks.now }
    ensures fault { code_in result ≡ keys_fault (message_of request.now) checks.now }
    ensures keys { IfOk result (λ _. KeysHold (message_of request.now) checks.now keys.new) }
    ensures cache { Opens (module_of request.now) cache.old cache.new (checks_entries (message_of request.now) checks.now) }
{
    match checks {
        [] => {
            keys.first = None;
            keys.second = None;
            Ok(())
        }
        [a] => {
            keys.first = check_key(request, cache, &None, *a)?;
            keys.second = None;
            Ok(())
        }
        [a, b] => {
            keys.first = check_key(request, cache, &None, *a)?;
            keys.second = check_key(request, cache, &keys.first, *b)?;
            Ok(())
        }
        // a row that is followed has at most two keys
        _ => unreachable!(),
    }
}
