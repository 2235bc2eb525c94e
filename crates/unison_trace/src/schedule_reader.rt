//! Schedules that are read.
ghost use Rattle.std.specs.Prelude.{◌≡◌, ◌≤◌, ◌<◌, ◌^◌, ◌++◌, ◌∷◌, [], List, length, min, take, IfOk, IfErr, OnOk, Err};
ghost use Rattle.std.specs.Option.{option_map};
ghost use Rattle.report_text.specs.Front.{IsFront, Anything};
ghost use Rattle.unison_world.specs.declared.step.Step.{Step};
ghost use Rattle.unison_trace.specs.declared.fault.ScheduleFault.TheVariants.{BadLine};
ghost use Rattle.unison_trace.specs.Histories.{most_steps};
ghost use Rattle.unison_trace.specs.Schedules.{HasSteps, IsFirstBadLine, IsRefusedSchedule, IsStep, line_of};
ghost use Rattle.unison_trace.specs.ReadLines.{AreSmall, number_line, pair_line};

use crate::fault::ScheduleFault;
use crate::stored;
use report_text::{behind, read_number};
use std::alloc::{AllocError, Global};
use unison_world::Step;

/// The greatest number of steps in a schedule.
const MOST_STEPS: u64 = stored::MOST_STEPS as u64;

/// The number that ends the line at the front, and what stands after the line.
fn read_last(bytes: &[u8]) -> Option<(u32, &[u8])>
    ensures { IsFront number_line (λ n. n < 2 ^ 32) Anything bytes.now (option_map (λ x. (x.0, x.1.now)) result) }
{
    let (number, end) = read_number(bytes)?;
    let more = behind(b"\n", end)?;
    Some((number, more))
}

/// The two numbers, one space between, that end the line at the front, and what stands after the line.
fn read_pair(bytes: &[u8]) -> Option<((u32, u32), &[u8])>
    ensures { IsFront pair_line AreSmall Anything bytes.now (option_map (λ x. (x.0, x.1.now)) result) }
{
    let (first, blank) = read_number(bytes)?;
    let rest = behind(b" ", blank)?;
    let (second, more) = read_last(rest)?;
    Some(((first, second), more))
}

/// The step whose line stands at the front, and what stands after the line.
fn read_step(bytes: &[u8]) -> Option<(Step, &[u8])>
    ensures { IsFront line_of IsStep Anything bytes.now (option_map (λ x. (x.0, x.1.now)) result) }
{
    if let Some(numbers) = behind(b"read ", bytes) {
        let ((node, slot), more) = read_pair(numbers)?;
        return Some((Step::Read { node, slot }, more));
    }
    let number = behind(b"write ", bytes)?;
    let (node, more) = read_last(number)?;
    Some((Step::Write { node }, more))
}

/// Keeps a step at the end, where no more than the greatest number of steps were read.
fn keep(steps: &mut Vec<Step>, count: u64, step: Step) -> Result<(), ScheduleFault>
    requires kept { length steps.old.items ≡ min count most_steps }
    ensures kept { OnOk result (steps.new.items ≡ take most_steps (steps.old.items ++ step ∷ [])) }
    ensures memory { IfErr result (λ fault. fault ≡ ScheduleFault.Memory) }
{
    if count < MOST_STEPS {
        steps.push(step)?;
    }
    Ok(())
}

/// The steps of a schedule, a line for each: `read U J` or `write U` and LF, with numbers up to 4294967295 without
/// leading zeros.
///
/// `BadLine` names the first line that is no such line, counted from 1; where that is line 1, no memory is taken. Else
/// `TooManySteps` comes where there are more than 1,000,000 steps.
pub fn read_schedule(alloc: Global, text: &[u8]) -> Result<Vec<Step>, ScheduleFault>
    ensures steps { IfOk result (λ v. HasSteps text.now v.items) }
    ensures only { IfOk result (λ v. (steps : List Step) → HasSteps text.now steps → steps ≡ v.items) }
    ensures few { IfOk result (λ v. length v.items ≤ most_steps) }
    ensures refused { IfErr result (IsRefusedSchedule text.now) }
    ensures at_once { IsFirstBadLine text.now 1 → result ≡ Err (BadLine 1) }
{
    let mut steps = Vec::new(alloc);
    let mut rest = text;
    let mut count = 0;
    while !rest.is_empty() {
        let Some((step, more)) = read_step(rest) else {
            return Err(ScheduleFault::BadLine { line: count + 1 });
        };
        keep(&mut steps, count, step)?;
        count += 1;
        rest = more;
    }
    if count > MOST_STEPS {
        return Err(ScheduleFault::TooManySteps);
    }
    Ok(steps)
}
