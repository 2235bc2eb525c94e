//! Walks that come to rest.
ghost use Rattle.std.specs.Prelude.{◌≡◌, OnOk, IfErr};
ghost use Rattle.run_schedule.specs.Walks.{AtRest, GoesOn, IsFull};

use crate::fault::Halt;
use crate::open_steps::open_steps;
use crate::queue::Queue;
use crate::walk::Walk;
use std::alloc::Global;
use unison_world::Step;

/// Makes a step, where it is open, and puts those that may be open after it.
fn step_on(walk: &mut Walk, queue: &mut Queue, step: Step) -> Result<(), Halt>
    ensures goes { GoesOn walk.old walk.new }
    ensures full { IfErr result (λ halt. halt ≡ Halt.Full → IsFull walk.new) }
{
    if walk.make(step)? {
        queue.after(walk, step)?;
    }
    Ok(())
}

/// Makes the steps of a queue, and those that are put after them, until none is left.
fn follow(walk: &mut Walk, queue: &mut Queue) -> Result<(), Halt>
    ensures goes { GoesOn walk.old walk.new }
    ensures full { IfErr result (λ halt. halt ≡ Halt.Full → IsFull walk.new) }
{
    for _ in 0..u64::MAX {
        let Some(step) = queue.next() else {
            return Ok(());
        };
        step_on(walk, queue, step)?;
    }
    Ok(())
}

/// Makes steps until none is open, in the order of a queue.
pub(crate) fn come_to_rest(alloc: Global, walk: &mut Walk, queue: &mut Queue) -> Result<(), Halt>
    ensures goes { GoesOn walk.old walk.new }
    ensures rest { OnOk result (AtRest walk.new) }
    ensures full { IfErr result (λ halt. halt ≡ Halt.Full → IsFull walk.new) }
{
    'passes: loop {
        let found = open_steps(alloc, walk)?;
        if found.is_empty() {
            return Ok(());
        }
        let first = found[0];
        queue.put_all(walk.network(), &found)?;
        follow(walk, queue)?;
        // For the proof alone: each pass makes a step. This one was made already.
        walk.make(first)?;
    }
}
