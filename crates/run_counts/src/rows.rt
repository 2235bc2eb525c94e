//! The rounds that are counted, in one pass.
ghost use Rattle.std.specs.Prelude.{◌≡◌, ◌≤◌, IfOk};
ghost use Rattle.std.specs.List.{list_all, list_any};
ghost use Rattle.rounds_walk.specs.Counts.{has_value};
ghost use Rattle.rounds_plan.specs.Configs.{most_rounds};
ghost use Rattle.rounds_plan.specs.Lockstep.{lockstep_config};
ghost use Rattle.run_counts.specs.Rows.{AreRows, IsRowOf, is_held, is_over};

use crate::asked::{Counting, Holders, Until};
use crate::figures::figures_of;
use crate::table::Row;
use rounds_plan::RoundStates;
use rounds_walk::{PlanRef, RoundWalk, Start, count_values};
use rule_check::State;
use run_watch::{Progress, Span, Workers};
use std::alloc::{AllocError, Global};
use std::thread::Threads;

/// Whether a node has a value in a field.
fn has_value(states: &[State], field: u32, value: u32) -> bool
    ensures { result ≡ list_any (has_value field value) states.now }
{
    for state in states {
        if state.value(field) == value {
            return true;
        }
    }
    false
}

/// Whether every node has a value in a field.
fn have_value(states: &[State], field: u32, value: u32) -> bool
    ensures { result ≡ list_all (has_value field value) states.now }
{
    for state in states {
        if state.value(field) != value {
            return false;
        }
    }
    true
}

/// Whether the nodes that have a value in a field are these.
fn is_held(holders: Holders, states: &[State], field: u32, value: u32) -> bool
    ensures { result ≡ is_held holders field value states.now }
{
    match holders {
        Holders::NoNode => !has_value(states, field, value),
        Holders::EveryNode => have_value(states, field, value),
    }
}

/// Whether no round is counted after one in which the nodes have these states.
fn is_over(until: Option<Until>, states: &[State]) -> bool
    ensures { result ≡ is_over until states.now }
{
    match until {
        Some(until) => is_held(until.holders, states, until.field, until.value),
        None => false,
    }
}

/// The round of a configuration, as it is counted.
fn row_of(alloc: Global, counting: &Counting<'_>, config: &RoundStates) -> Result<Row, AllocError>
    ensures row { IfOk result (λ row. IsRowOf counting.now config.now row) }
{
    let round = config.rounds();
    let counts = count_values(alloc, config.states(), counting.field)?;
    let figures = figures_of(alloc, config.states(), counting.figures)?;
    Ok(Row::new(round, counts, figures))
}

/// Goes on to a round. Its configuration.
fn config_at(
    rt: &(impl Threads + Sync),
    alloc: Global,
    walk: &mut RoundWalk<'_>,
    round: u32,
) -> Result<RoundStates, AllocError>
    requires late { walk.old.round ≤ round }
    requires few { round ≤ most_rounds }
    ensures config { IfOk result (λ config. config ≡ lockstep_config walk.old.plan round) }
    ensures walk { walk.new ≡ record { plan = walk.old.plan; round = round } }
{
    walk.go_to_shared(rt, round);
    walk.round_states(alloc)
}

/// The rounds of a span, up to the one that ends them, as they are counted.
pub(crate) fn rows_of<P: Progress>(
    rt: &(impl Threads + Sync),
    alloc: Global,
    walk: &mut RoundWalk<'_>,
    span: &Span,
    counting: &Counting<'_>,
    progress: &mut P,
) -> Result<Vec<Row>, AllocError>
    requires late { walk.old.round ≤ span.now.first }
    requires few { span.now.last ≤ most_rounds }
    ensures rows { IfOk result (λ rows. AreRows walk.old.plan span.now counting.now rows.items) }
{
    let mut rows = Vec::new(alloc);
    for place in 0..span.steps() + 1 {
        let round = span.round_at(place);
        let config = config_at(rt, alloc, walk, round)?;
        let row = row_of(alloc, counting, &config)?;
        rows.push(row)?;
        progress.reached(round);
        if is_over(counting.until, config.states()) {
            return Ok(rows);
        }
    }
    Ok(rows)
}

/// The rounds of a span of a plan of any size, up to the one that ends them, as they are counted, in one pass over the
/// rounds: none is computed twice. Each round is shared among the workers where it has enough to compute for them. The
/// form that is asked for makes no difference, and a field that the program does not have is 0.
pub fn counted_rows<R: Threads + Sync, P: Progress>(
    workers: &Workers<'_, R>,
    alloc: Global,
    plan: &PlanRef<'_>,
    span: &Span,
    counting: &Counting<'_>,
    progress: &mut P,
) -> Result<Vec<Row>, AllocError>
    requires late { plan.now.start ≤ span.now.first }
    requires few { span.now.last ≤ most_rounds }
    ensures rows { IfOk result (λ rows. AreRows plan.now span.now counting.now rows.items) }
{
    let start = Start::new(alloc, plan)?;
    let mut walk = start.shared_walk(alloc, workers.count)?;
    rows_of(workers.rt, alloc, &mut walk, span, counting, progress)
}
