//! Schedules that are written.
ghost use Rattle.std.specs.Prelude.{◌≡◌, ◌++◌, OnOk, IfOk, string_bytes};
ghost use Rattle.unison_trace.specs.Schedules.{HasSteps, IsStep, line_of};

use std::alloc::{AllocError, Global};
use unison_world::Step;

/// The line of a step.
fn put_step(out: &mut String, step: Step) -> Result<(), AllocError>
    ensures line { OnOk result (string_bytes out.new ≡ string_bytes out.old ++ line_of step) }
    ensures numbers { IsStep step }
{
    match step {
        Step::Read { node, slot } => write!(out, "read {node} {slot}\n"),
        Step::Write { node } => write!(out, "write {node}\n"),
    }
}

/// The schedule of steps: a line for each, in order.
pub fn write_schedule(alloc: Global, steps: &[Step]) -> Result<Vec<u8>, AllocError>
    ensures schedule { IfOk result (λ v. HasSteps v.items steps.now) }
{
    let mut out = String::new(alloc);
    for step in steps {
        put_step(&mut out, *step)?;
    }
    Ok(out.into_bytes())
}
