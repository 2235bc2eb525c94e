//! The states of rounds, as JSON.
ghost use Rattle.std.specs.Prelude.{◌≡◌, ◌≤◌, ◌∷◌, ◌++◌, [], IfOk, OnOk, map};
ghost use Rattle.rounds_plan.specs.Configs.{most_rounds};
ghost use Rattle.run_watch.specs.Spans.{rounds_in};
ghost use Rattle.serde_json.specs.View.{view};
ghost use Rattle.run_page.specs.Pages.{numbers, states_of, values_at};

use crate::parts::shown_array;
use rayon::current_num_threads;
use rounds_plan::Plan;
use rounds_walk::{PlanRef, RoundWalk, Start};
use run_watch::{Progress, Span};
use serde_json::Value;
use std::alloc::{AllocError, Global};
use std::thread::Threads;

/// Goes on to a round, and adds the shown values of its states.
fn put_round(
    rt: &(impl Threads + Sync),
    alloc: Global,
    items: &mut Vec<Value>,
    walk: &mut RoundWalk<'_>,
    round: u32,
    fields: &[u32],
) -> Result<(), AllocError>
    requires late { walk.old.round ≤ round }
    requires few { round ≤ most_rounds }
    ensures states { OnOk result (map view items.new.items ≡ map view items.old.items ++ numbers (values_at walk.old.plan fields.now round) ∷ []) }
    ensures walk { OnOk result (walk.new ≡ record { plan = walk.old.plan; round = round }) }
{
    walk.go_to_shared(rt, round);
    let states = walk.states(alloc)?;
    let values = shown_array(alloc, &states, fields)?;
    items.push(values)?;
    Ok(())
}

/// The shown values of the rounds of a span, each round by itself, in one pass.
fn round_values<P: Progress>(
    rt: &(impl Threads + Sync),
    alloc: Global,
    walk: &mut RoundWalk<'_>,
    span: &Span,
    fields: &[u32],
    progress: &mut P,
) -> Result<Vec<Value>, AllocError>
    requires late { walk.old.round ≤ span.now.first }
    requires few { span.now.last ≤ most_rounds }
    ensures states { IfOk result (λ v. map view v.items ≡ map (λ t. numbers (values_at walk.old.plan fields.now t)) (rounds_in span.now)) }
{
    let mut items = Vec::with_capacity(alloc, span.steps() as usize + 1)?;
    for place in 0..span.steps() + 1 {
        let round = span.round_at(place);
        put_round(rt, alloc, &mut items, walk, round, fields)?;
        progress.reached(round);
    }
    Ok(items)
}

/// The shown values of the rounds of a span.
pub(crate) fn states<P: Progress>(
    rt: &(impl Threads + Sync),
    alloc: Global,
    plan: &Plan,
    span: &Span,
    fields: &[u32],
    progress: &mut P,
) -> Result<Value, AllocError>
    requires late { plan.now.start ≤ span.now.first }
    requires few { span.now.last ≤ most_rounds }
    ensures { IfOk result (λ v. view v ≡ states_of plan.now fields.now (rounds_in span.now)) }
{
    let start = Start::new(alloc, &PlanRef::of_plan(plan))?;
    let mut walk = start.shared_walk(alloc, current_num_threads(rt))?;
    let items = round_values(rt, alloc, &mut walk, span, fields, progress)?;
    Ok(Value::Array(items))
}

/// The rounds of a span.
pub(crate) fn round_numbers(alloc: Global, span: &Span) -> Result<Value, AllocError>
    requires few { span.now.last ≤ most_rounds }
    ensures { IfOk result (λ v. view v ≡ numbers (rounds_in span.now)) }
{
    let mut items = Vec::with_capacity(alloc, span.steps() as usize + 1)?;
    for place in 0..span.steps() + 1 {
        items.push(Value::from(span.round_at(place)))?;
    }
    Ok(Value::Array(items))
}
