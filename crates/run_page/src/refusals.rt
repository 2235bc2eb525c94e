//! What refuses a look at a run.
ghost use Rattle.std.specs.Prelude.{◌≡◌, ◌^◌, ◌-◌, ◌+◌, ◌<◌, min};
ghost use Rattle.run_page.specs.Refusals.{field_refusal, values_in, values_refusal, values_written};

use crate::fault::PageFault;
use crate::look::{Look, MOST_VALUES};
use rounds_plan::Plan;
use run_watch::missing_of;

/// A shown field that the program does not have.
pub(crate) fn field_refusal(plan: &Plan, look: &Look<'_>) -> Option<PageFault>
    ensures { result ≡ field_refusal plan.now look.now }
{
    let place = missing_of(plan.program().field_count(), look.fields)?;
    Some(PageFault::NoField { place })
}

/// How many values so many rounds have, at most the greatest `u64`.
fn values_in(plan: &Plan, look: &Look<'_>, rounds: u32) -> u64
    ensures { result ≡ min (values_in plan.now look.now rounds) (2 ^ 64 - 1) }
{
    let nodes = plan.network().nodes() as u64;
    let fields = look.fields.len().max(1) as u64;
    (rounds as u64 * nodes).saturating_mul(fields)
}

/// Too many values, those of so many rounds and so many others.
pub(crate) fn values_refusal(
    plan: &Plan,
    look: &Look<'_>,
    rounds: u32,
    others: usize,
) -> Option<PageFault>
    ensures { result ≡ values_refusal (values_in plan.now look.now rounds + others) }
{
    if values_in(plan, look, rounds).saturating_add(others as u64) > MOST_VALUES {
        return Some(PageFault::TooManyValues);
    }
    None
}

/// How many values the states have to which so many steps move nodes, at most the greatest `u64`.
fn values_written(look: &Look<'_>, steps: usize) -> u64
    ensures { result ≡ min (values_written look.now steps) (2 ^ 64 - 1) }
{
    (steps as u64).saturating_mul(look.fields.len().max(1) as u64)
}

/// Too many values, those of so many rounds and so many steps, and those of the states to which the steps move nodes.
pub(crate) fn naive_values_refusal(
    plan: &Plan,
    look: &Look<'_>,
    rounds: u32,
    steps: usize,
) -> Option<PageFault>
    ensures { result ≡ values_refusal (values_in plan.now look.now rounds + (steps + values_written look.now steps)) }
{
    let others = values_written(look, steps).saturating_add(steps as u64);
    if values_in(plan, look, rounds).saturating_add(others) > MOST_VALUES {
        return Some(PageFault::TooManyValues);
    }
    None
}
