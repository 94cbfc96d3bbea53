ghost use Rattle.std.specs.Prelude.{◌≡◌, ◌≢◌, IfOk, IfErr};
ghost use Rattle.serde_json.specs.View.{view};
ghost use Rattle.call_plan.specs.PlanFile.{plans_of, plans_in};
ghost use Rattle.call_plan.specs.declared.error.PlanError.TheVariants.{Memory};

use crate::draft::read_drafts;
use crate::error::PlanError;
use crate::plans::Plans;
use json_values::json_value;
use serde_json::Value;
use std::alloc::Global;

/// The plans of a JSON value, which is to be an array of them.
///
/// `NotAPlan` where the shape of the whole value is not that of a plan file. Then the plans are taken one by one, by
/// `Plan::new` and `Plans::insert`, and the first fault is answered. `Memory` may stand in place of any fault.
pub fn plans_of(alloc: Global, value: &Value) -> Result<Plans, PlanError>
    ensures taken { IfOk result (λ plans. plans_of (view value.now) ≡ Ok plans) }
    ensures refused { IfErr result (λ e. e ≢ Memory → plans_of (view value.now) ≡ Err e) }
{
    let drafts = read_drafts(alloc, value)?;
    let mut plans = Plans::new(alloc);
    for draft in drafts {
        plans.insert(draft.into_plan()?)?;
    }
    Ok(plans)
}

/// The plans of a plan file: `plans_of` of the JSON value that its text is (RFC 8259, as `serde_json` reads it, with
/// arrays and objects at most 127 deep).
///
/// `NotAPlan` for a text that is no UTF-8 or no JSON.
#[tactic(auto, unfolding(crate::specs::PlanFile::plans_in))]
pub fn read_plans(alloc: Global, text: &[u8]) -> Result<Plans, PlanError>
    ensures taken { IfOk result (λ plans. plans_in text.now ≡ Ok plans) }
    ensures refused { IfErr result (λ e. e ≢ Memory → plans_in text.now ≡ Err e) }
{
    match json_value(alloc, text)? {
        Some(value) => plans_of(alloc, &value),
        None => Err(PlanError::NotAPlan),
    }
}
