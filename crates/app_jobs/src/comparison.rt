//! How a difference is told.
ghost use Rattle.std.specs.Prelude.{◌≡◌, ◌<◌, length, IfOk};
ghost use Rattle.rule_check.specs.Value.{names_of};
ghost use Rattle.app_jobs.specs.Comparison.{difference_text};

use rounds_plan::{Difference, Plan};
use std::alloc::{AllocError, Global};

/// The line of a difference between the lockstep rounds (`left`) and a run (`right`): the node, the field's name and
/// both values.
pub fn difference_line(
    alloc: Global,
    plan: &Plan,
    difference: &Difference,
) -> Result<Vec<u8>, AllocError>
    requires node { difference.now.node < length plan.now.network }
    requires field { difference.now.field < length plan.now.program.fields }
    ensures text { IfOk result (λ v. v.items ≡ difference_text (names_of plan.now.program) difference.now) }
{
    let name = plan.program().field_name(difference.field).unwrap_or("");
    let node = difference.node;
    let left = difference.left;
    let right = difference.right;
    let line = format!(in alloc; "node {node} field {name} lockstep {left} run {right}\n")?;
    Ok(line.into_bytes())
}
