//! ZW makes a PVV, as DG does, and answers also the PIN's length, the check value of the PVK pair, and the account.
ghost use Rattle.std.specs.Prelude.{◌≡◌, ◌≤◌, ◌++◌, length, true};
ghost use Rattle.hsm_auth.specs.History.{CanAsk, Fits};
ghost use Rattle.hsm_rows.specs.Table.{shape_of};
ghost use Rattle.hsm_answers.specs.Answers.{answer};
ghost use Rattle.hsm_answers.specs.Asks.{ask_of};
ghost use Rattle.hsm_commands.specs.Fit.{rules_fit};
ghost use Rattle.hsm_pincmd.specs.Plans.{IsPlanOf, plan_ask, plan_row, plan_text};
ghost use Rattle.test_commands.specs.Row.{row_ZW};

use hsm_auth::Granted;
use hsm_commands::fits_followed;
use hsm_pincmd::PinPlan;
use hsm_rows::fields::dg;
use hsm_rows::{Code, Field, Form, Module, Public, Row, RuleSet, Secret};
use hsm_text::Reply;

static ZW: Row = Row {
    code: b"ZW",
    reply: b"ZX",
    fields: &[
        Field {
            form: Form::Pair,
            code: Code(15),
        },
        Field {
            form: Form::Hex16,
            code: Code(15),
        },
        Field {
            form: Form::Digits12,
            code: Code(15),
        },
        Field {
            form: Form::Digits1,
            code: Code(15),
        },
    ],
    terms: &[
        Public::Value,
        Public::PinLength,
        Public::CheckValue(Secret::Opened(dg::PVK_PAIR)),
        Public::Given(dg::ACCOUNT),
    ],
    rules: RuleSet::Dg,
};

/// The row.
#[tactic(auto, unfolding(crate::specs::Row::row_ZW))]
pub fn row() -> &'static Row
    ensures { shape_of result.now ≡ row_ZW }
{
    &ZW
}

/// Its rules fit its forms, by computation.
pub fn fits()
    ensures { rules_fit row_ZW ≡ true }
{}

/// The plan of its message: the text is what follows the command code.
pub fn prepare<'m>(module: &Module, text: &'m [u8]) -> PinPlan<'m>
    ensures row { plan_row result ≡ row_ZW }
    ensures text { plan_text result ≡ text.now }
    ensures ask { plan_ask result ≡ ask_of «module».now row_ZW text.now }
    ensures may { CanAsk (plan_ask result) }
    ensures plan { IsPlanOf «module».now result }
{
    fits_followed();
    fits();
    hsm_pincmd::prepare(module, row(), text)
}

/// Appends the answer of its message at its entry.
pub fn finish(module: &Module, plan: &PinPlan<'_>, granted: &Granted, reply: &mut Reply)
    requires row { plan_row plan.now ≡ row_ZW }
    requires plan { IsPlanOf «module».now plan.now }
    requires fits { Fits (plan_ask plan.now) granted.now }
    requires room { length reply.old ≤ 255 }
    ensures { reply.new ≡ reply.old ++ answer «module».now row_ZW (plan_text plan.now) granted.now }
{
    hsm_pincmd::finish(module, plan, granted, reply);
}
