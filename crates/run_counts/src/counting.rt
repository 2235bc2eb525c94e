//! The rounds of a plan, as they are counted.
ghost use Rattle.std.specs.Prelude.{◌≡◌, ◌≢◌, ◌++◌, Err, IfOk, IfErr, MatchOption, None, Some, map};
ghost use Rattle.rule_check.specs.Value.{names_of};
ghost use Rattle.run_watch.specs.declared.fault.WatchFault.TheVariants.{Memory};
ghost use Rattle.run_watch.specs.Watching.{missing_of};
ghost use Rattle.run_counts.specs.Counts.{IsCounted, places_of, refusal_of, until_places};
ghost use Rattle.run_counts.specs.Tables.{table_text};

use crate::asked::{Counting, Figure, Until};
use crate::columns::put_opening;
use crate::lines::put_rows;
use crate::rows::counted_rows;
use crate::table::Row;
use crate::values::values_of;
use rounds_plan::MOST_ROUNDS;
use rounds_walk::PlanRef;
use rule_check::Program;
use run_watch::{Progress, Span, WatchFault, Workers};
use std::alloc::{AllocError, Global};
use std::thread::Threads;

/// The first place, of the fields of the figures, that is none of so many fields.
fn missing_figure(count: u32, figures: &[Figure]) -> Option<u32>
    ensures { result ≡ missing_of count (map (λ f. f.field) figures.now) }
{
    for figure in figures {
        if figure.field >= count {
            return Some(figure.field);
        }
    }
    None
}

/// The first place, of the field by which rounds end and of those of the figures, that is none of so many fields.
fn missing_behind(count: u32, until: Option<Until>, figures: &[Figure]) -> Option<u32>
    ensures { result ≡ missing_of count (until_places until ++ map (λ f. f.field) figures.now) }
{
    match until {
        Some(until) if until.field >= count => Some(until.field),
        _ => missing_figure(count, figures),
    }
}

/// The first place of what is asked for that is none of so many fields.
fn missing_place(count: u32, counting: &Counting<'_>) -> Option<u32>
    ensures { result ≡ missing_of count (places_of counting.now) }
{
    if counting.field >= count {
        return Some(counting.field);
    }
    missing_behind(count, counting.until, counting.figures)
}

/// Why the rounds cannot be counted, whatever memory there is.
pub(crate) fn refusal(
    plan: &PlanRef<'_>,
    span: &Span,
    counting: &Counting<'_>,
) -> Option<WatchFault>
    ensures { result ≡ refusal_of plan.now span.now counting.now }
{
    if span.last() > MOST_ROUNDS {
        return Some(WatchFault::TooManyRounds);
    }
    if span.first() < plan.start() {
        return Some(WatchFault::RoundsBelowStart);
    }
    let place = missing_place(plan.program().field_count(), counting)?;
    Some(WatchFault::NoField { place })
}

/// The text of rounds with these values.
fn table_with(
    alloc: Global,
    program: &Program,
    counting: &Counting<'_>,
    values: &[u32],
    rows: &[Row],
) -> Result<Vec<u8>, AllocError>
    ensures text { IfOk result (λ v. v.items ≡ table_text counting.now.format counting.now.names.now (names_of program.now) counting.now.figures.now values.now rows.now) }
{
    let mut out = String::new(alloc);
    put_opening(&mut out, program, counting, values)?;
    put_rows(&mut out, counting, "", program, values, rows)?;
    Ok(out.into_bytes())
}

/// The text of the rounds, where nothing refuses them.
fn text_of<R: Threads + Sync, P: Progress>(
    workers: &Workers<'_, R>,
    alloc: Global,
    plan: &PlanRef<'_>,
    span: &Span,
    counting: &Counting<'_>,
    progress: &mut P,
) -> Result<Vec<u8>, AllocError>
    requires fits { refusal_of plan.now span.now counting.now ≡ None }
    ensures text { IfOk result (λ v. IsCounted plan.now span.now counting.now v.items) }
{
    let rows = counted_rows(workers, alloc, plan, span, counting, progress)?;
    let values = values_of(alloc, counting.states, &rows)?;
    let text = table_with(alloc, plan.program(), counting, &values, &rows)?;
    Ok(text)
}

/// How many nodes have each value of a field in each round of a span of a plan of any size, and further numbers of these
/// rounds, in one pass over the rounds: none is computed twice. Each round is shared among the workers where it has
/// enough to compute for them. The rounds end after the first of them that ends them, where one does.
///
/// Each state has a column, and each value that occurs in one of these rounds, by rising value, and each round a line,
/// where that makes 64 columns at most; else each value that occurs in a round has a line of that round: `value`, and
/// `nodes`, how many nodes have it. A value that has a name is called by it.
///
/// `TooManyRounds` comes where the last round is above 1,000,000,000, else `RoundsBelowStart` where the first lies
/// before the plan's start, and else `NoField` with the first place at which the program has no field, of the counted
/// field, the one by which rounds end and those of the figures, all before anything is done; `Memory` only where none of
/// them holds.
pub fn counted<R: Threads + Sync, P: Progress>(
    workers: &Workers<'_, R>,
    alloc: Global,
    plan: &PlanRef<'_>,
    span: &Span,
    counting: &Counting<'_>,
    progress: &mut P,
) -> Result<Vec<u8>, WatchFault>
    ensures text { IfOk result (λ v. IsCounted plan.now span.now counting.now v.items) }
    ensures fits { IfOk result (λ _. refusal_of plan.now span.now counting.now ≡ None) }
    ensures refused { IfErr result (λ fault. fault ≢ Memory → refusal_of plan.now span.now counting.now ≡ Some fault) }
    ensures at_once { MatchOption (refusal_of plan.now span.now counting.now) (Unit {0}) (λ fault. result ≡ Err fault) }
{
    if let Some(fault) = refusal(plan, span, counting) {
        return Err(fault);
    }
    let text = text_of(workers, alloc, plan, span, counting, progress)?;
    Ok(text)
}
