//! How many nodes have each value, round by round, as curves.
ghost use Rattle.std.specs.Prelude.{◌≡◌, ◌≢◌, Err, IfOk, IfErr, MatchOption, None};
ghost use Rattle.run_picture.specs.declared.fault.PictureFault.TheVariants.{Memory, TooManyValues};
ghost use Rattle.run_picture.specs.Curves.{AreFieldRows, HasManyValues, IsCountPicture, IsCurveFault, curves_refusal, states_drawn};

use crate::curves::curves_picture;
use crate::drawing::Drawing;
use crate::fault::PictureFault;
use crate::styles::ValueStyles;
use crate::values::drawing_refusal;
use rayon::current_num_threads;
use rounds_walk::PlanRef;
use run_counts::{CountFormat, Counting, Row, counted_rows, values_of};
use run_watch::{Progress, Workers};
use std::alloc::{AllocError, Global};
use std::thread::Threads;

/// The most points of a curve.
pub const MOST_POINTS: u32 = 10_000;

/// The most curves of a picture.
pub const MOST_CURVES: usize = 64;

/// Why there are no curves of some rounds, of what is known before they are counted.
fn curves_refusal(plan: &PlanRef<'_>, drawing: &Drawing<'_>) -> Option<PictureFault>
    ensures { result ≡ curves_refusal plan.now drawing.now }
{
    if let Some(fault) = drawing_refusal(plan, drawing) {
        return Some(fault);
    }
    if drawing.span.steps() == 0 {
        return Some(PictureFault::OneRound);
    }
    if drawing.span.steps() >= MOST_POINTS {
        return Some(PictureFault::TooManyPoints);
    }
    None
}

/// The rounds that are drawn, counted by the field.
fn field_rows<P: Progress>(
    rt: &(impl Threads + Sync),
    alloc: Global,
    plan: &PlanRef<'_>,
    drawing: &Drawing<'_>,
    progress: &mut P,
) -> Result<Vec<Row>, AllocError>
    requires fits { curves_refusal plan.now drawing.now ≡ None }
    ensures rows { IfOk result (λ rows. AreFieldRows plan.now drawing.now.span.now drawing.now.colouring.field rows.items) }
{
    let counting = Counting {
        format: CountFormat::Csv,
        field: drawing.colouring.field,
        states: 0,
        names: &[],
        figures: &[],
        until: None,
    };
    let workers = Workers {
        rt,
        count: current_num_threads(rt),
    };
    counted_rows(&workers, alloc, plan, drawing.span, &counting, progress)
}

/// How many states have a curve, whether or not they occur.
fn states_drawn(styles: &ValueStyles<'_>) -> u32
    ensures states { result ≡ states_drawn styles.now }
{
    let count = styles.names().len();
    if count <= MOST_CURVES {
        return count as u32;
    }
    0
}

/// The picture of counted rounds, where not too many values occur in them.
fn picture_of(
    alloc: Global,
    plan: &PlanRef<'_>,
    drawing: &Drawing<'_>,
    rows: &[Row],
) -> Result<Vec<u8>, PictureFault>
    requires fits { curves_refusal plan.now drawing.now ≡ None }
    requires rows { AreFieldRows plan.now drawing.now.span.now drawing.now.colouring.field rows.now }
    ensures text { IfOk result (λ v. IsCountPicture plan.now drawing.now v.items) }
    ensures refused { IfErr result (λ fault. fault ≢ Memory → (fault ≡ TooManyValues) × HasManyValues plan.now drawing.now) }
{
    let styles = drawing.colouring.styles;
    let values = values_of(alloc, states_drawn(styles), rows)?;
    if values.len() > MOST_CURVES {
        return Err(PictureFault::TooManyValues);
    }
    let text = curves_picture(alloc, styles, drawing.span, plan.nodes(), rows, &values)?;
    Ok(text)
}

/// The picture of some rounds, where nothing that is known before they are counted refuses it.
fn count_text<P: Progress>(
    rt: &(impl Threads + Sync),
    alloc: Global,
    plan: &PlanRef<'_>,
    drawing: &Drawing<'_>,
    progress: &mut P,
) -> Result<Vec<u8>, PictureFault>
    requires fits { curves_refusal plan.now drawing.now ≡ None }
    ensures text { IfOk result (λ v. IsCountPicture plan.now drawing.now v.items) }
    ensures refused { IfErr result (λ fault. fault ≢ Memory → (fault ≡ TooManyValues) × HasManyValues plan.now drawing.now) }
{
    let rows = field_rows(rt, alloc, plan, drawing, progress)?;
    picture_of(alloc, plan, drawing, &rows)
}

/// The curves of a field as SVG: how many nodes have each value in each round of a span of a plan of any size, the rounds
/// to the right and the nodes upwards, with axes. Each state has a curve, where there are 64 at most, and each value that
/// a node has in one of these rounds, named and coloured as in `time_picture`, and below the curves stands which colour is
/// which value. The points of a curve are whole numbers, `each_round_has_its_point` says which, and
/// `each_axis_has_its_ticks` which numbers stand at the axes. In one pass over the rounds: none is computed twice. Each
/// round is shared among as many threads as there are processors where it has enough to compute for them.
///
/// `TooManyRounds` comes where the last round is above 1,000,000,000, else `RoundsBelowStart` where the first lies
/// before the plan's start, else `NoField` where the program has no field at this place, else `OneRound` where the span
/// has a single round, and else `TooManyPoints` where it has more than 10,000, all before anything is done; and else
/// `TooManyValues` after the rounds, where there would be more than 64 curves; `Memory` only where none of those comes
/// that are known before anything is done.
pub fn count_picture<P: Progress>(
    rt: &(impl Threads + Sync),
    alloc: Global,
    plan: &PlanRef<'_>,
    drawing: &Drawing<'_>,
    progress: &mut P,
) -> Result<Vec<u8>, PictureFault>
    ensures text { IfOk result (λ v. IsCountPicture plan.now drawing.now v.items) }
    ensures fits { IfOk result (λ _. curves_refusal plan.now drawing.now ≡ None) }
    ensures refused { IfErr result (λ fault. fault ≢ Memory → IsCurveFault plan.now drawing.now fault) }
    ensures memory { IfErr result (λ fault. fault ≡ Memory → curves_refusal plan.now drawing.now ≡ None) }
    ensures at_once { MatchOption (curves_refusal plan.now drawing.now) (Unit {0}) (λ fault. result ≡ Err fault) }
{
    if let Some(fault) = curves_refusal(plan, drawing) {
        return Err(fault);
    }
    let text = count_text(rt, alloc, plan, drawing, progress)?;
    Ok(text)
}
