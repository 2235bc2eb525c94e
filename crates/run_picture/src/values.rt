//! The values that are drawn, round by round.
ghost use Rattle.std.specs.Prelude.{◌≡◌, ◌≤◌, ◌<◌, ◌++◌, ◌*◌, None, IfOk, OnOk, length, map, slice_index};
ghost use Rattle.rounds_plan.specs.Configs.{most_rounds};
ghost use Rattle.run_watch.specs.Spans.{count_of};
ghost use Rattle.run_picture.specs.Frames.{drawing_refusal, refusal_of, values_after, values_drawn};

use crate::drawing::Drawing;
use crate::fault::PictureFault;
use rayon::current_num_threads;
use rounds_plan::MOST_ROUNDS;
use rounds_walk::{PlanRef, RoundWalk, Start};
use rule_check::State;
use run_watch::Progress;
use std::alloc::{AllocError, Global};
use std::thread::Threads;

/// Why rounds from a first one to a last one have no values of a field.
pub(crate) fn refusal(plan: &PlanRef<'_>, first: u32, last: u32, field: u32) -> Option<PictureFault>
    ensures refusal { result ≡ refusal_of plan.now first last field }
{
    if last > MOST_ROUNDS {
        return Some(PictureFault::TooManyRounds);
    }
    if first < plan.start() {
        return Some(PictureFault::RoundsBelowStart);
    }
    if field >= plan.program().field_count() {
        return Some(PictureFault::NoField { place: field });
    }
    None
}

/// Why no values are drawn.
pub(crate) fn drawing_refusal(plan: &PlanRef<'_>, drawing: &Drawing<'_>) -> Option<PictureFault>
    ensures refusal { result ≡ drawing_refusal plan.now drawing.now }
{
    let span = drawing.span;
    refusal(plan, span.first(), span.last(), drawing.colouring.field)
}

/// A word of a state; 0 past the last.
fn word(state: &State, place: u32) -> u32
    ensures { result ≡ slice_index state.now.words place }
{
    state.words.get(place as usize).copied().unwrap_or(0)
}

/// Puts the values of a field in states after those that are there.
fn put_values(values: &mut Vec<u32>, states: &[State], field: u32) -> Result<(), AllocError>
    ensures values { OnOk result (values.new.items ≡ values.old.items ++ map (λ state. slice_index state.words field) states.now) }
{
    for state in states {
        values.push(word(state, field))?;
    }
    Ok(())
}

/// Goes on to a round, and puts the values of a field there after those that are there.
fn put_round(
    rt: &(impl Threads + Sync),
    alloc: Global,
    values: &mut Vec<u32>,
    walk: &mut RoundWalk<'_>,
    round: u32,
    field: u32,
) -> Result<(), AllocError>
    requires late { walk.old.round ≤ round }
    requires few { round ≤ most_rounds }
    ensures values { OnOk result (values.new.items ≡ values.old.items ++ values_after walk.old.plan field round) }
    ensures walk { OnOk result (walk.new ≡ record { plan = walk.old.plan; round = round }) }
{
    walk.go_to_shared(rt, round);
    let states = walk.states(alloc)?;
    put_values(values, &states, field)
}

/// Puts the values that are drawn, in one pass over the rounds.
fn put_rounds<P: Progress>(
    rt: &(impl Threads + Sync),
    alloc: Global,
    values: &mut Vec<u32>,
    walk: &mut RoundWalk<'_>,
    drawing: &Drawing<'_>,
    progress: &mut P,
) -> Result<(), AllocError>
    requires late { walk.old.round ≤ drawing.now.span.now.first }
    requires few { drawing.now.span.now.last ≤ most_rounds }
    ensures values { OnOk result (values.new.items ≡ values.old.items ++ values_drawn walk.old.plan drawing.now) }
{
    for place in 0..drawing.span.steps() + 1 {
        let round = drawing.span.round_at(place);
        put_round(rt, alloc, values, walk, round, drawing.colouring.field)?;
        progress.reached(round);
    }
    Ok(())
}

/// The values that are drawn, round by round.
pub(crate) fn values_drawn<P: Progress>(
    rt: &(impl Threads + Sync),
    alloc: Global,
    plan: &PlanRef<'_>,
    drawing: &Drawing<'_>,
    progress: &mut P,
) -> Result<Vec<u32>, AllocError>
    requires fits { drawing_refusal plan.now drawing.now ≡ None }
    ensures values { IfOk result (λ v. v.items ≡ values_drawn plan.now drawing.now) }
{
    let start = Start::new(alloc, plan)?;
    let mut walk = start.shared_walk(alloc, current_num_threads(rt))?;
    let mut values = Vec::new(alloc);
    put_rounds(rt, alloc, &mut values, &mut walk, drawing, progress)?;
    Ok(values)
}

/// The values of a field after a round.
pub(crate) fn values_after(
    rt: &(impl Threads + Sync),
    alloc: Global,
    plan: &PlanRef<'_>,
    round: u32,
    field: u32,
) -> Result<Vec<u32>, AllocError>
    requires fits { refusal_of plan.now round round field ≡ None }
    ensures values { IfOk result (λ v. v.items ≡ values_after plan.now field round) }
{
    let start = Start::new(alloc, plan)?;
    let mut walk = start.shared_walk(alloc, current_num_threads(rt))?;
    let mut values = Vec::new(alloc);
    put_round(rt, alloc, &mut values, &mut walk, round, field)?;
    Ok(values)
}
