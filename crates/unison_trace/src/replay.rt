//! Replays.
ghost use Rattle.std.specs.Prelude.{◌≡◌, ◌↔◌, ◌+◌, ◌≤◌, ◌<◌, ◌^◌, false, IsTrue, IfOk, IfErr, OnOk, Err, length};
ghost use Rattle.std.specs.Arc.{arc_value};
ghost use Rattle.unison_world.specs.Counting.{run};
ghost use Rattle.unison_world.specs.View.{with_counts};
ghost use Rattle.unison_trace.specs.Replays.{IsReplayOf};
ghost use Rattle.unison_trace.specs.ReplayFaults.{too_many_reads, IsInput, IsInputFault, IsRefusedText, IsReplayFault, IsReplayed, is_cut};

use crate::fault::ReplayFault;
use crate::report_writer::replay_report;
use crate::schedule_reader::read_schedule;
use report_text::{Tally, write_text};
use rounds_plan::Plan;
use std::alloc::{AllocError, Global};
use std::io::{Read, Write};
use std::sync::Arc;
use unison_world::{Step, World};

/// How many reads may give bytes.
const MOST_READS: u32 = 27_000_000;

/// How many bytes a read may give.
const BLOCK: usize = 65_536;

/// So many bytes, each 0.
fn zeros(alloc: Global, count: usize) -> Result<Vec<u8>, AllocError>
    ensures count { IfOk result (λ v. length v.items ≡ count) }
{
    vec![in alloc; 0u8; count]
}

/// All bytes up to the end of input, by at most 27,000,001 calls.
fn read_input<R: Read>(alloc: Global, input: &mut Tally<R>) -> Result<Vec<u8>, ReplayFault>
    requires unmarked { input.old.failed ≡ false }
    requires calls { input.old.calls < 2 ^ 63 }
    ensures whole { IfOk result (λ v. IsInput (R.remaining input.old.inner) (R.remaining input.new.inner) v.items) }
    ensures mark { IsTrue input.new.failed ↔ (result ≡ Err ReplayFault.Read) }
    ensures calls { input.new.calls ≤ input.old.calls + too_many_reads }
    ensures turns { result ≡ Err ReplayFault.TooManyTurns → input.new.calls ≡ input.old.calls + too_many_reads }
    ensures faults { IfErr result (IsInputFault (R.remaining input.old.inner) (R.remaining input.new.inner)) }
{
    let mut bytes = Vec::new(alloc);
    let mut block = zeros(alloc, BLOCK)?;
    let buffer = block.as_mut_slice();
    for _turn in 0..MOST_READS + 1 {
        let given = input.read_some(buffer)?;
        if given == 0 {
            return Ok(bytes);
        }
        bytes.extend_from_slice(&buffer[..given])?;
    }
    Err(ReplayFault::TooManyTurns)
}

/// Makes the steps, in order.
pub fn make_steps(world: &mut World, steps: &[Step])
    ensures made { world.new ≡ with_counts world.old (run world.old.plan.network world.old.stop world.old.counts steps.now) }
{
    for step in steps {
        let _answer = world.step(*step);
    }
}

/// The replay report of a schedule's text: its steps are made, in order, on a world of the plan, whose nodes move up
/// to the stop. Answers that change nothing do not stop a replay.
///
/// `Schedule` comes where the text is no schedule, and else `Opening` where there is no such world.
pub fn replay_of(
    alloc: Global,
    plan: Arc<Plan>,
    stop: u32,
    text: &[u8],
) -> Result<Vec<u8>, ReplayFault>
    ensures report { IfOk result (λ v. IsReplayOf (arc_value plan) stop text.now v.items) }
    ensures refused { IfErr result (IsRefusedText (arc_value plan) stop text.now) }
{
    let steps = read_schedule(alloc, text)?;
    let mut world = World::new(alloc, plan, stop)?;
    make_steps(&mut world, &steps);
    Ok(replay_report(alloc, world.plan(), &world)?)
}

/// Reads a schedule to the end of input, makes its steps on a world of the plan, and writes the replay report.
/// Answers that change nothing do not stop a replay. Nothing is written before every step was made.
///
/// In the order in which the work is done: `Read` comes where the reader fails, `TooManyTurns` where 27,000,001
/// reads gave bytes, `Schedule` where the bytes are no schedule, `Opening` where there is no such world, and `Write`
/// where the writer fails, with the number of bytes that went out before. The reader is called at most 27,000,001
/// times.
pub fn replay_over<R: Read, W: Write>(
    alloc: Global,
    plan: Arc<Plan>,
    stop: u32,
    schedule: &mut Tally<R>,
    out: &mut Tally<W>,
) -> Result<(), ReplayFault>
    requires reader { schedule.old.failed ≡ false }
    requires reads { schedule.old.calls < 2 ^ 63 }
    requires writer { out.old.failed ≡ false }
    requires writes { out.old.calls < 2 ^ 63 }
    ensures replayed { OnOk result (IsReplayed (arc_value plan) stop (R.remaining schedule.old.inner) (R.remaining schedule.new.inner) (W.contents out.old.inner) (W.contents out.new.inner)) }
    ensures faults { IfErr result (IsReplayFault (arc_value plan) stop (R.remaining schedule.old.inner) (R.remaining schedule.new.inner) (W.contents out.old.inner) (W.contents out.new.inner)) }
    ensures read_mark { IsTrue schedule.new.failed ↔ (result ≡ Err ReplayFault.Read) }
    ensures calls { schedule.new.calls ≤ schedule.old.calls + too_many_reads }
    ensures turns { result ≡ Err ReplayFault.TooManyTurns → schedule.new.calls ≡ schedule.old.calls + too_many_reads }
    ensures write_mark { out.new.failed ≡ is_cut result }
    ensures unwritten { IfErr result (λ fault. is_cut (Err fault) ≡ false → out.new ≡ out.old) }
{
    let text = read_input(alloc, schedule)?;
    let report = replay_of(alloc, plan, stop, &text)?;
    write_text(out, &report)?;
    Ok(())
}
