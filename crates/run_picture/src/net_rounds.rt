//! Pictures of a network in the rounds of a plan.
ghost use Rattle.std.specs.Prelude.{◌≡◌, ◌≢◌, Err, IfOk, IfErr, MatchOption, None, Some};
ghost use Rattle.run_picture.specs.declared.fault.PictureFault.TheVariants.{Memory};
ghost use Rattle.run_picture.specs.Frames.{values_drawn};
ghost use Rattle.run_picture.specs.Keys.{key_of};
ghost use Rattle.run_picture.specs.Nets.{IsNetPicture, net_refusal, net_sheet};
ghost use Rattle.run_watch.specs.Spans.{count_of};

use crate::animation::MOST_FRAMES;
use crate::drawing::Drawing;
use crate::fault::PictureFault;
use crate::film::Pace;
use crate::key::key_of;
use crate::net_sheet::net_sheet;
use crate::picture::MOST_CELLS;
use crate::values::{drawing_refusal, values_drawn};
use rounds_plan::Plan;
use rounds_walk::PlanRef;
use run_watch::Progress;
use std::alloc::{AllocError, Global};
use std::thread::Threads;

/// Why there is no picture of the network in some rounds, whatever memory there is.
fn net_refusal(plan: &Plan, drawing: &Drawing<'_>) -> Option<PictureFault>
    ensures { result ≡ net_refusal plan.now drawing.now }
{
    let lent = PlanRef::of_plan(plan);
    if let Some(fault) = drawing_refusal(&lent, drawing) {
        return Some(fault);
    }
    let rounds = drawing.span.steps() as u64 + 1;
    if plan.network().nodes() as u64 * rounds > MOST_CELLS {
        return Some(PictureFault::TooManyCells);
    }
    if rounds > MOST_FRAMES {
        return Some(PictureFault::TooManyFrames);
    }
    None
}

/// The picture of the network in some rounds, where nothing refuses it.
fn net_text<P: Progress>(
    rt: &(impl Threads + Sync),
    alloc: Global,
    plan: &Plan,
    drawing: &Drawing<'_>,
    time: u32,
    progress: &mut P,
) -> Result<Vec<u8>, AllocError>
    requires fits { net_refusal plan.now drawing.now ≡ None }
    ensures text { IfOk result (λ v. v.items ≡ net_sheet (key_of drawing.now.colouring.styles.now (values_drawn plan.now drawing.now)) (count_of drawing.now.span.now) time plan.now.network (values_drawn plan.now drawing.now)) }
{
    let lent = PlanRef::of_plan(plan);
    let values = values_drawn(rt, alloc, &lent, drawing, progress)?;
    let key = key_of(alloc, drawing.colouring.styles, &values)?;
    let frames = drawing.span.steps() + 1;
    net_sheet(alloc, &key, Pace { frames, time }, plan.network(), &values)
}

/// The picture of a plan's network in the rounds of a span, as SVG: the nodes as circles, which stand on a circle by rising
/// number, and a line between each two that are linked; named and coloured as in `time_picture`. Where there are several
/// rounds, the colours move: the rounds are shown one after the other, over and over, each for so many milliseconds, as in
/// `moving_picture`, and `each_frame_has_its_colours` says what each node shows when. `each_link_has_its_line` says which lines
/// there are. In one pass over the rounds: none is computed twice. Each round is shared among as many threads as there are
/// processors where it has enough to compute for them.
///
/// `TooManyRounds` comes where the last round is above 1,000,000,000, else `RoundsBelowStart` where the first lies before
/// the plan's start, else `NoField` where the program has no field at this place, else `TooManyCells` where nodes times
/// rounds are more than 1,000,000, and else `TooManyFrames` where the span has more than 10,000 rounds, all before anything
/// is done; `Memory` only where none of them holds.
pub fn network_picture<P: Progress>(
    rt: &(impl Threads + Sync),
    alloc: Global,
    plan: &Plan,
    drawing: &Drawing<'_>,
    time: u32,
    progress: &mut P,
) -> Result<Vec<u8>, PictureFault>
    ensures text { IfOk result (λ v. IsNetPicture plan.now drawing.now time v.items) }
    ensures fits { IfOk result (λ _. net_refusal plan.now drawing.now ≡ None) }
    ensures refused { IfErr result (λ fault. fault ≢ Memory → net_refusal plan.now drawing.now ≡ Some fault) }
    ensures memory { IfErr result (λ fault. fault ≡ Memory → net_refusal plan.now drawing.now ≡ None) }
    ensures at_once { MatchOption (net_refusal plan.now drawing.now) (Unit {0}) (λ fault. result ≡ Err fault) }
{
    if let Some(fault) = net_refusal(plan, drawing) {
        return Err(fault);
    }
    let text = net_text(rt, alloc, plan, drawing, time, progress)?;
    Ok(text)
}
