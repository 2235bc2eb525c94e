//! The limits within which the nodes of a run stand.
ghost use Rattle.std.specs.Prelude.{◌≡◌, IfOk, IfSome, None};
ghost use Rattle.app_why.specs.Notes.{AreLimits, AreLimitsOf};

use crate::bounds::{bounds_of, bounds_of_any};
use rounds_code::RowCode;
use rounds_plan::{Plan, PlanRef};
use rule_check::Program;
use rule_cuts::Limits;
use rule_ranges::{anything, ranges_of_states};
use std::alloc::{AllocError, Global};

/// The limits of the run of a plan, on a network of any size: each node stands within them in each round.
pub(crate) fn limits_of<'a>(alloc: Global, plan: &PlanRef<'a>) -> Result<Limits<'a>, AllocError>
    ensures limits { IfOk result (AreLimitsOf plan.now) }
{
    // For the proof: what holds of every plan.
    let _nodes = plan.nodes();
    let program = plan.program();
    let bounds = bounds_of(&plan.rows());
    let first = ranges_of_states(plan.openings());
    let code = RowCode::new(alloc, program)?;
    let fields = code.ranges_of_rounds(alloc, &bounds, &first)?;
    Ok(Limits {
        program,
        bounds,
        fields,
    })
}

/// The limits of a program from any states on each network that a file can describe.
fn limits_of_any(program: &Program) -> Limits<'_>
    ensures limits { AreLimits program.now None result }
{
    Limits {
        program,
        bounds: bounds_of_any(),
        fields: [anything(); 8],
    }
}

/// The limits of the run of a plan, where there is one, and else those of the program.
pub(crate) fn limits_by<'a>(
    alloc: Global,
    program: &'a Program,
    plan: &'a Option<Plan>,
) -> Result<Limits<'a>, AllocError>
    ensures limits { IfOk result (λ limits. IfSome plan.now (λ p. p.program ≡ program.now) → AreLimits program.now plan.now limits) }
{
    match plan {
        Some(plan) => limits_of(alloc, &PlanRef::of_plan(plan)),
        None => Ok(limits_of_any(program)),
    }
}
