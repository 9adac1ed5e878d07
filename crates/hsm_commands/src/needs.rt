//! The needs and the random words of a message.
ghost use Rattle.std.specs.Prelude.{◌≡◌, ◌≤◌, ◌∷◌, ◌++◌, ℕ, List, [], map};
ghost use Rattle.hsm_auth.specs.declared.activity.Activity.{Activity};
ghost use Rattle.hsm_answers.specs.Keys.{type_of, is_absent};
ghost use Rattle.hsm_answers.specs.Checks.{is_used, act_permit, act_needs, act_activity, fixed_need, need_type, is_forbidden};
ghost use Rattle.hsm_answers.specs.Asks.{as_needs};
ghost use Rattle.hsm_answers.specs.Values.{word_count};
ghost use Rattle.hsm_commands.specs.Demands.{word_demands};
ghost use Rattle.hsm_commands.specs.Needs.{after_need};
ghost use Rattle.hsm_commands.specs.Request.{Meets, Leaves, row_rules, texts_of, message_of};

use crate::fields::{format_of, number_at, text_of};
use crate::reply_fields::HeldParts;
use crate::reply_pins::fill_length;
use crate::request::Request;
use crate::value::held_pin;
use hsm_answers::{host_activity, scheme_named, type_by_pair, type_of_code, wrapper_type};
use hsm_auth::{Activity, Needs};
use hsm_rows::{ActUse, FixedNeed, TypeSource, Words};
use hsm_types::{KeyType, Permit, scheme_parts};

// The type that the row names.
#[tactic(auto, unfolding(hsm_answers::specs::Keys::type_of))]
#[inline]
pub(crate) fn type_of(request: &Request<'_, '_>, source: TypeSource) -> KeyType
    ensures { result ≡ type_of (texts_of request.now) source }
{
    match source {
        TypeSource::Fixed(ty) => ty,
        TypeSource::Named(k) => type_of_code(text_of(request, k)),
        TypeSource::ByPair { pair, full } => type_by_pair(
            text_of(request, pair),
            text_of(request, full),
        ),
        TypeSource::WrapperType(k) => wrapper_type(text_of(request, k)),
    }
}

// Whether the row uses the act.
#[inline]
pub(crate) fn is_used(request: &Request<'_, '_>, where_present: Option<u8>) -> bool
    ensures { result ≡ is_used (texts_of request.now) where_present }
{
    match where_present {
        Some(k) => !text_of(request, k).is_empty(),
        None => true,
    }
}

// The permit of the act on the type that the row names.
#[inline]
pub(crate) fn act_permit(request: &Request<'_, '_>, act: &ActUse) -> Permit
    ensures { result ≡ act_permit (message_of request.now) act.now }
{
    request
        .module
        .permits
        .get(type_of(request, act.ty), act.act)
}

// The needs with one more before them.
fn after_need(first: Activity, more: Needs) -> Needs
    ensures { result ≡ after_need first more }
{
    Needs {
        first: Some(first),
        second: more.first,
    }
}

fn fixed_need(request: &Request<'_, '_>, need: &FixedNeed) -> Activity
    ensures { result ≡ fixed_need (texts_of request.now) need.now }
{
    Activity {
        category: need.category,
        ty: match need.ty {
            Some(ty) => Some(type_of(request, ty)),
            None => None,
        },
        place: Some(need.place),
        set: Some(request.fields.set),
    }
}

// The needs that stand whatever the permits are.
#[tactic(auto, using(crate::proofs::NeedSteps::after_list))]
fn fixed_needs(request: &Request<'_, '_>, needs: &[FixedNeed]) -> Needs
    ensures { result ≡ as_needs (map (fixed_need (texts_of request.now)) needs.now) }
{
    match needs {
        [] => Needs {
            first: None,
            second: None,
        },
        [need, more @ ..] => after_need(fixed_need(request, need), fixed_needs(request, more)),
    }
}

// The needs of the acts whose permit is A, and then these.
#[tactic(auto, using(crate::proofs::NeedSteps::after_list))]
pub(crate) fn needs_of(request: &Request<'_, '_>, acts: &[ActUse], needs: &[FixedNeed]) -> Needs
    ensures { result ≡ as_needs (act_needs (message_of request.now) acts.now ++ map (fixed_need (texts_of request.now)) needs.now) }
{
    match acts {
        [] => fixed_needs(request, needs),
        [act, more @ ..] => {
            let rest = needs_of(request, more, needs);
            if is_used(request, act.where_present) && act_permit(request, act) == Permit::A {
                let ty = type_of(request, act.ty);
                after_need(host_activity(act.act, ty, request.fields.set), rest)
            } else {
                rest
            }
        }
    }
}

// The random words of a message of which no check fails.
#[tactic(auto, unfolding(hsm_answers::specs::Values::word_count))]
pub(crate) fn word_count(request: &Request<'_, '_>, held: &HeldParts) -> u16
    requires stands { Meets request.now held.now.keys (word_demands (row_rules request.now) (row_rules request.now).words) }
    requires left { Leaves request.now held.now.pin }
    ensures words { result ≡ word_count (message_of request.now) (row_rules request.now).words }
    ensures few { result ≤ 12 }
{
    match request.rules.words {
        Words::NoWords => 0,
        Words::TwoPerPart(k) => 2 * scheme_parts(scheme_named(text_of(request, k))) as u16,
        Words::AsLength(k) => number_at(request, k) as u16,
        Words::FillOf(k) => fill_length(
            format_of(request, k),
            &held_pin(request, &held.pin),
        ) as u16,
    }
}
