//! Pictures of rounds.
ghost use Rattle.std.specs.Prelude.{◌≡◌, ◌≢◌, Err, IfOk, IfErr, MatchOption, None, Some, length};
ghost use Rattle.run_picture.specs.declared.fault.PictureFault.TheVariants.{Memory};
ghost use Rattle.run_picture.specs.Frames.{grid_refusal, time_refusal, values_after, values_drawn};
ghost use Rattle.run_picture.specs.Keys.{key_of};
ghost use Rattle.run_picture.specs.Sheets.{IsPicture, sheet_text};

use crate::drawing::{Colouring, Drawing};
use crate::fault::PictureFault;
use crate::sheet::picture_of;
use crate::values::{drawing_refusal, refusal, values_after, values_drawn};
use rounds_walk::PlanRef;
use run_watch::Progress;
use std::alloc::{AllocError, Global};
use std::thread::Threads;

/// The most cells of a picture.
pub const MOST_CELLS: u64 = 1_000_000;

/// Why there is no picture of rounds, whatever memory there is.
fn time_refusal(plan: &PlanRef<'_>, drawing: &Drawing<'_>) -> Option<PictureFault>
    ensures { result ≡ time_refusal plan.now drawing.now }
{
    if let Some(fault) = drawing_refusal(plan, drawing) {
        return Some(fault);
    }
    let rounds = drawing.span.steps() as u64 + 1;
    if plan.nodes() as u64 * rounds > MOST_CELLS {
        return Some(PictureFault::TooManyCells);
    }
    None
}

/// Why there is no picture of a round in rows of a width, whatever memory there is.
fn grid_refusal(plan: &PlanRef<'_>, round: u32, field: u32, width: u32) -> Option<PictureFault>
    ensures { result ≡ grid_refusal plan.now round field width }
{
    if let Some(fault) = refusal(plan, round, round, field) {
        return Some(fault);
    }
    if width == 0 {
        return Some(PictureFault::NoWidth);
    }
    if plan.nodes() as u64 > MOST_CELLS {
        return Some(PictureFault::TooManyCells);
    }
    None
}

/// The picture of rounds, where nothing refuses it.
fn time_text<P: Progress>(
    rt: &(impl Threads + Sync),
    alloc: Global,
    plan: &PlanRef<'_>,
    drawing: &Drawing<'_>,
    progress: &mut P,
) -> Result<Vec<u8>, AllocError>
    requires fits { time_refusal plan.now drawing.now ≡ None }
    ensures text { IfOk result (λ v. v.items ≡ sheet_text (key_of drawing.now.colouring.styles.now (values_drawn plan.now drawing.now)) (length plan.now.network) (values_drawn plan.now drawing.now)) }
{
    let values = values_drawn(rt, alloc, plan, drawing, progress)?;
    picture_of(alloc, drawing.colouring.styles, plan.nodes(), &values)
}

/// The picture of a round, where nothing refuses it.
fn grid_text(
    rt: &(impl Threads + Sync),
    alloc: Global,
    plan: &PlanRef<'_>,
    round: u32,
    colouring: &Colouring<'_>,
    width: u32,
) -> Result<Vec<u8>, AllocError>
    requires fits { grid_refusal plan.now round colouring.now.field width ≡ None }
    ensures text { IfOk result (λ v. v.items ≡ sheet_text (key_of colouring.now.styles.now (values_after plan.now colouring.now.field round)) width (values_after plan.now colouring.now.field round)) }
{
    let values = values_after(rt, alloc, plan, round, colouring.field)?;
    picture_of(alloc, colouring.styles, width, &values)
}

/// The time picture of a field as SVG: the rounds of a span of a plan down the page, one below the other, the nodes
/// across by rising number, and each value a cell with the colour of its value. Below the cells stands which colour is
/// which value: each of up to eight values has a colour of its own, more are on a scale of 16 steps, and 4294967295 is
/// grey, but for values for which the styles have a colour; a value is called by its name in the styles, and past the last
/// name by its number. `each_picture_has_one_key` says which values these are, `steps_are_even` what the steps are,
/// `each_cell_has_its_place` where each cell stands, and `same_class_same_value` when two have the same colour. In one pass
/// over the rounds: none is computed twice. Each round is shared among as many threads as there are processors where it has
/// enough to compute for them.
///
/// `TooManyRounds` comes where the last round is above 1,000,000,000, else `RoundsBelowStart` where the first lies
/// before the plan's start, else `NoField` where the program has no field at this place, and else `TooManyCells` where
/// nodes times rounds are more than 1,000,000, all before anything is done; `Memory` only where none of them holds.
pub fn time_picture<P: Progress>(
    rt: &(impl Threads + Sync),
    alloc: Global,
    plan: &PlanRef<'_>,
    drawing: &Drawing<'_>,
    progress: &mut P,
) -> Result<Vec<u8>, PictureFault>
    ensures text { IfOk result (λ v. IsPicture drawing.now.colouring.styles.now (length plan.now.network) (values_drawn plan.now drawing.now) v.items) }
    ensures fits { IfOk result (λ _. time_refusal plan.now drawing.now ≡ None) }
    ensures refused { IfErr result (λ fault. fault ≢ Memory → time_refusal plan.now drawing.now ≡ Some fault) }
    ensures memory { IfErr result (λ fault. fault ≡ Memory → time_refusal plan.now drawing.now ≡ None) }
    ensures at_once { MatchOption (time_refusal plan.now drawing.now) (Unit {0}) (λ fault. result ≡ Err fault) }
{
    if let Some(fault) = time_refusal(plan, drawing) {
        return Err(fault);
    }
    let text = time_text(rt, alloc, plan, drawing, progress)?;
    Ok(text)
}

/// The picture of a field after a round as SVG: the nodes by rising number in rows of so many cells, the last of which
/// may be shorter, coloured as in `time_picture`. `each_cell_has_its_place` says where each cell stands.
///
/// `TooManyRounds` comes where the round is above 1,000,000,000, else `RoundsBelowStart` where it lies before the
/// plan's start, else `NoField` where the program has no field at this place, else `NoWidth` where the rows are to have
/// no cells, and else `TooManyCells` where there are more than 1,000,000 nodes, all before anything is done; `Memory` only
/// where none of them holds.
pub fn grid_picture(
    rt: &(impl Threads + Sync),
    alloc: Global,
    plan: &PlanRef<'_>,
    round: u32,
    colouring: &Colouring<'_>,
    width: u32,
) -> Result<Vec<u8>, PictureFault>
    ensures text { IfOk result (λ v. IsPicture colouring.now.styles.now width (values_after plan.now colouring.now.field round) v.items) }
    ensures fits { IfOk result (λ _. grid_refusal plan.now round colouring.now.field width ≡ None) }
    ensures refused { IfErr result (λ fault. fault ≢ Memory → grid_refusal plan.now round colouring.now.field width ≡ Some fault) }
    ensures memory { IfErr result (λ fault. fault ≡ Memory → grid_refusal plan.now round colouring.now.field width ≡ None) }
    ensures at_once { MatchOption (grid_refusal plan.now round colouring.now.field width) (Unit {0}) (λ fault. result ≡ Err fault) }
{
    if let Some(fault) = grid_refusal(plan, round, colouring.field, width) {
        return Err(fault);
    }
    let text = grid_text(rt, alloc, plan, round, colouring, width)?;
    Ok(text)
}
