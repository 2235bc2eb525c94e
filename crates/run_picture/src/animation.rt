//! Moving pictures of rounds.
ghost use Rattle.std.specs.Prelude.{◌≡◌, ◌≢◌, Err, IfOk, IfErr, MatchOption, None, Some, length};
ghost use Rattle.run_picture.specs.declared.fault.PictureFault.TheVariants.{Memory};
ghost use Rattle.run_picture.specs.Frames.{values_drawn};
ghost use Rattle.run_picture.specs.Keys.{key_of};
ghost use Rattle.run_picture.specs.Moving.{IsMovingPicture, moving_refusal, moving_sheet};
ghost use Rattle.run_watch.specs.Spans.{count_of};

use crate::drawing::{Drawing, MovingGrid};
use crate::fault::PictureFault;
use crate::film::Pace;
use crate::moving::moving_of;
use crate::picture::MOST_CELLS;
use crate::values::{drawing_refusal, values_drawn};
use rounds_walk::PlanRef;
use run_watch::Progress;
use std::alloc::{AllocError, Global};
use std::thread::Threads;

/// The most frames of a moving picture, and the most pictures of single rounds.
pub const MOST_FRAMES: u64 = 10_000;

/// Why there is no moving picture in rows of a width, whatever memory there is.
fn moving_refusal(plan: &PlanRef<'_>, drawing: &Drawing<'_>, width: u32) -> Option<PictureFault>
    ensures { result ≡ moving_refusal plan.now drawing.now width }
{
    if let Some(fault) = drawing_refusal(plan, drawing) {
        return Some(fault);
    }
    if width == 0 {
        return Some(PictureFault::NoWidth);
    }
    let rounds = drawing.span.steps() as u64 + 1;
    if plan.nodes() as u64 * rounds > MOST_CELLS {
        return Some(PictureFault::TooManyCells);
    }
    if rounds > MOST_FRAMES {
        return Some(PictureFault::TooManyFrames);
    }
    None
}

/// The moving picture, where nothing refuses it.
fn moving_text<P: Progress>(
    rt: &(impl Threads + Sync),
    alloc: Global,
    plan: &PlanRef<'_>,
    drawing: &Drawing<'_>,
    grid: MovingGrid,
    progress: &mut P,
) -> Result<Vec<u8>, AllocError>
    requires fits { moving_refusal plan.now drawing.now grid.width ≡ None }
    ensures text { IfOk result (λ v. v.items ≡ moving_sheet (key_of drawing.now.colouring.styles.now (values_drawn plan.now drawing.now)) (count_of drawing.now.span.now) grid.time grid.width (length plan.now.network) (values_drawn plan.now drawing.now)) }
{
    let values = values_drawn(rt, alloc, plan, drawing, progress)?;
    let frames = drawing.span.steps() + 1;
    let time = grid.time;
    let pace = Pace { frames, time };
    let styles = drawing.colouring.styles;
    moving_of(alloc, styles, pace, grid.width, plan.nodes(), &values)
}

/// The moving picture of a field as SVG that plays by itself, without a script: the nodes by rising number in rows of so many
/// cells, the last of which may be shorter, named and coloured as in `time_picture`, in each round of a span of a plan, one
/// after the other and over and over; each round is seen for so many milliseconds. A cell stands once, with its changes alone,
/// so that the text grows with these. Where nothing plays it, it shows the first of the rounds.
/// `each_frame_has_its_colours` says what each cell shows when. In one pass over the rounds: none is computed twice. Each
/// round is shared among as many threads as there are processors where it has enough to compute for them.
///
/// `TooManyRounds` comes where the last round is above 1,000,000,000, else `RoundsBelowStart` where the first lies before
/// the plan's start, else `NoField` where the program has no field at this place, else `NoWidth` where the rows
/// are to have no cells, else `TooManyCells` where nodes times rounds are more than 1,000,000, and else `TooManyFrames` where
/// the span has more than 10,000 rounds, all before anything is done; `Memory` only where none of them holds.
pub fn moving_picture<P: Progress>(
    rt: &(impl Threads + Sync),
    alloc: Global,
    plan: &PlanRef<'_>,
    drawing: &Drawing<'_>,
    grid: MovingGrid,
    progress: &mut P,
) -> Result<Vec<u8>, PictureFault>
    ensures text { IfOk result (λ v. IsMovingPicture plan.now drawing.now grid v.items) }
    ensures fits { IfOk result (λ _. moving_refusal plan.now drawing.now grid.width ≡ None) }
    ensures refused { IfErr result (λ fault. fault ≢ Memory → moving_refusal plan.now drawing.now grid.width ≡ Some fault) }
    ensures memory { IfErr result (λ fault. fault ≡ Memory → moving_refusal plan.now drawing.now grid.width ≡ None) }
    ensures at_once { MatchOption (moving_refusal plan.now drawing.now grid.width) (Unit {0}) (λ fault. result ≡ Err fault) }
{
    if let Some(fault) = moving_refusal(plan, drawing, grid.width) {
        return Err(fault);
    }
    let text = moving_text(rt, alloc, plan, drawing, grid, progress)?;
    Ok(text)
}
