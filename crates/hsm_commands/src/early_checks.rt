//! The early checks of a message, of its keys, permits and parts: where one fails nothing is asked.
ghost use Rattle.std.specs.Prelude.{◌≡◌, Some, None, if◌then◌else◌, ◌&&◌, IfOk};
ghost use Rattle.std.specs.List.{list_any};
ghost use Rattle.std.specs.Option.{option_map};
ghost use Rattle.hsm_rows.specs.declared.rules.ActUse.{ActUse};
ghost use Rattle.hsm_answers.specs.Checks.{act_permit, early_fault, is_forbidden, is_used, parts_fault};
ghost use Rattle.hsm_answers.specs.Given.{code_in};
ghost use Rattle.hsm_answers.specs.Kept.{IsCacheOf, Opens, checks_entries};
ghost use Rattle.hsm_answers.specs.Plans.{code_number};
ghost use Rattle.hsm_commands.specs.declared.keys.OpenedKeys.{OpenedKeys};
ghost use Rattle.hsm_commands.specs.Demands.{parts_demands};
ghost use Rattle.hsm_commands.specs.Opened.{KeysHold, KeysStand};
ghost use Rattle.hsm_commands.specs.Request.{Meets, module_of, row_rules, texts_of, message_of};

use crate::components::joined_key;
use crate::key_checks::check_keys;
use crate::keys::{OpenedKeys, held_key};
use crate::needs::{act_permit, is_used};
use crate::request::Request;
use hsm_answers::repeats_part;
use hsm_lmk::KeyCache;
use hsm_rows::{ActUse, Code, Secret};
use hsm_types::Permit;

// 29 where a permit that the row uses is N.
fn permit_code(request: &Request<'_, '_>, acts: &[ActUse]) -> Option<Code>
    ensures { option_map code_number result
        ≡ (if list_any (λ (a : ActUse). is_used (texts_of request.now) a.where_present && is_forbidden (act_permit (message_of request.now) a)) acts.now then Some 29 else None) }
{
    match acts {
        [] => None,
        [act, more @ ..] => {
            if is_used(request, act.where_present) && act_permit(request, act) == Permit::N {
                Some(Code(29))
            } else {
                permit_code(request, more)
            }
        }
    }
}

// 75 where a part of the row's key equals the part before it.
#[tactic(auto, unfolding(hsm_answers::specs::Checks::parts_fault, hsm_answers::specs::Values::secret_key))]
fn parts_code(request: &Request<'_, '_>, keys: &OpenedKeys) -> Option<Code>
    requires { Meets request.now keys.now (parts_demands (row_rules request.now) (row_rules request.now).parts_differ) }
    ensures { option_map code_number result ≡ parts_fault (message_of request.now) (row_rules request.now).parts_differ }
{
    let key = match request.rules.parts_differ {
        None => return None,
        Some(Secret::Opened(k)) => held_key(keys, k),
        Some(Secret::OpenedUnder { field, .. }) => held_key(keys, field),
        Some(Secret::Joined) => joined_key(request),
        // no key is drawn before the entry
        Some(Secret::DrawnKey) => unreachable!(),
    };
    if repeats_part(&key) {
        Some(Code(75))
    } else {
        None
    }
}

// Puts the keys of a message in the place of `keys`, or answers the code of the first early check that fails.
#[tactic(auto, using(crate::proofs::SetSteps::loaded_so), unfolding(hsm_answers::specs::Checks::early_fault, hsm_answers::specs::Checks::permit_fault))]
pub(crate) fn check_early(
    request: &Request<'_, '_>,
    cache: &mut KeyCache,
    keys: &mut OpenedKeys,
) -> Result<(), Code>
    requires cache { IsCacheOf (module_of request.now) cache.old }
    requires keys { KeysStand (message_of request.now) (row_rules request.now).keys }
    requires parts { (keys : OpenedKeys) → KeysHold (message_of request.now) (row_rules request.now).keys keys
        → Meets request.now keys (parts_demands (row_rules request.now) (row_rules request.now).parts_differ) }
    ensures fault { code_in result ≡ early_fault (message_of request.now) }
    ensures keys { IfOk result (λ _. KeysHold (message_of request.now) (row_rules request.now).keys keys.new) }
    ensures cache { Opens (module_of request.now) cache.old cache.new (checks_entries (message_of request.now) (row_rules request.now).keys) }
{
    let rules = request.rules;
    check_keys(request, cache, rules.keys, keys)?;
    if let Some(code) = permit_code(request, rules.acts) {
        return Err(code);
    }
    match parts_code(request, keys) {
        Some(code) => Err(code),
        None => Ok(()),
    }
}
