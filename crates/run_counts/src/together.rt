//! The rounds of several runs, as they are counted together.
ghost use Rattle.std.specs.Prelude.{◌≡◌, ◌≢◌, ◌≤◌, Err, IfErr, IfOk, MatchOption, None, Some, length};
ghost use Rattle.rule_check.specs.Value.{names_of};
ghost use Rattle.run_watch.specs.declared.fault.WatchFault.TheVariants.{Memory};
ghost use Rattle.run_counts.specs.Ensembles.{most_runs, names_in, refusal_in};
ghost use Rattle.run_counts.specs.MeanTables.{AreMeans};
ghost use Rattle.run_counts.specs.RunTables.{AreCounted};
ghost use Rattle.run_counts.specs.Settings.{settings_in};

use crate::asked::Counting;
use crate::counting::refusal;
use crate::ensemble::{Ensemble, Setting, Variant};
use crate::mean_columns::columns_of;
use crate::mean_table::{MeansTable, means_table};
use crate::run_table::{RunsTable, runs_table};
use crate::runs::{RunsProgress, runs_of};
use crate::values::values_in;
use rule_check::Program;
use run_watch::{Span, WatchFault};
use std::alloc::{AllocError, Global};
use std::thread::Threads;

/// Of how many runs there is a mean at most.
pub const MOST_RUNS: usize = 1000;

/// Why the first of the runs that cannot be counted cannot, whatever memory there is.
fn refusal_in(span: &Span, counting: &Counting<'_>, variants: &[Variant<'_>]) -> Option<WatchFault>
    ensures { result ≡ refusal_in span.now counting.now variants.now }
{
    for variant in variants {
        if let Some(fault) = refusal(variant.plan, span, counting) {
            return Some(fault);
        }
    }
    None
}

/// The program of the first run.
fn first_program<'a>(variants: &[Variant<'a>]) -> &'a Program
    requires some { 1 ≤ length variants.now }
    ensures names { names_of result.now ≡ names_in variants.now }
{
    variants[0].plan.program()
}

/// What varies, with its values in the first run.
fn first_settings<'a>(variants: &[Variant<'a>]) -> &'a [Setting]
    requires some { 1 ≤ length variants.now }
    ensures settings { result.now ≡ settings_in variants.now }
{
    variants[0].settings
}

/// The text of runs, where nothing refuses them.
fn counted_text<R: Threads + Sync, P: RunsProgress + Sync>(
    rt: &R,
    alloc: Global,
    ensemble: &Ensemble<'_>,
    span: &Span,
    counting: &Counting<'_>,
    progress: &P,
) -> Result<Vec<u8>, AllocError>
    requires some { 1 ≤ length ensemble.now.variants.now }
    requires fits { refusal_in span.now counting.now ensemble.now.variants.now ≡ None }
    ensures text { IfOk result (λ v. AreCounted ensemble.now span.now counting.now v.items) }
{
    let runs = runs_of(rt, alloc, ensemble.variants, span, counting, progress)?;
    let values = values_in(alloc, counting.states, &runs)?;
    let program = first_program(ensemble.variants);
    let table = RunsTable {
        settings: first_settings(ensemble.variants),
        program,
        counting,
        values: &values,
    };
    let text = runs_table(alloc, &table, &runs)?;
    Ok(text)
}

/// The text of the means of runs, where nothing refuses them.
fn means_text<R: Threads + Sync, P: RunsProgress + Sync>(
    rt: &R,
    alloc: Global,
    ensemble: &Ensemble<'_>,
    span: &Span,
    counting: &Counting<'_>,
    progress: &P,
) -> Result<Vec<u8>, AllocError>
    requires some { 1 ≤ length ensemble.now.variants.now }
    requires few { ensemble.now.size ≤ most_runs }
    requires fits { refusal_in span.now counting.now ensemble.now.variants.now ≡ None }
    ensures text { IfOk result (λ v. AreMeans ensemble.now span.now counting.now v.items) }
{
    let runs = runs_of(rt, alloc, ensemble.variants, span, counting, progress)?;
    let values = values_in(alloc, counting.states, &runs)?;
    let columns = columns_of(alloc, &values, counting.figures, ensemble.quantiles)?;
    let program = first_program(ensemble.variants);
    let table = MeansTable {
        counting,
        program,
        columns: &columns,
    };
    let text = means_table(alloc, &table, ensemble, &runs)?;
    Ok(text)
}

/// What `counted` gives of each of several runs, in one table: the lines of a run after those of the run before, each
/// with the run's values of what varies in columns in front. A column for each state, and for each value that occurs in
/// one of the rounds of one of the runs, stands there where these are 64 at most. The runs are made side by side by as many threads as there are processors, and
/// `progress` is told of each that is made.
///
/// The fault is that of the first run that has one, as `counted` tells it, before anything is done; `Memory` only where
/// none has one.
pub fn counted_runs<R: Threads + Sync, P: RunsProgress + Sync>(
    rt: &R,
    alloc: Global,
    ensemble: &Ensemble<'_>,
    span: &Span,
    counting: &Counting<'_>,
    progress: &P,
) -> Result<Vec<u8>, WatchFault>
    requires some { 1 ≤ length ensemble.now.variants.now }
    ensures text { IfOk result (λ v. AreCounted ensemble.now span.now counting.now v.items) }
    ensures fits { IfOk result (λ _. refusal_in span.now counting.now ensemble.now.variants.now ≡ None) }
    ensures refused { IfErr result (λ fault. fault ≢ Memory → refusal_in span.now counting.now ensemble.now.variants.now ≡ Some fault) }
    ensures at_once { MatchOption (refusal_in span.now counting.now ensemble.now.variants.now) (Unit {0}) (λ fault. result ≡ Err fault) }
{
    if let Some(fault) = refusal_in(span, counting, ensemble.variants) {
        return Err(fault);
    }
    let text = counted_text(rt, alloc, ensemble, span, counting, progress)?;
    Ok(text)
}

/// The mean and the standard deviation, over the runs of each group, of what `counted` gives of each of them, one group after
/// the other: for each round to which a run of the group goes on a line with what varies and the group has in common in
/// columns in front, the round, how many runs there are and, where runs may end early, how many go on to this round, and for
/// each number of `counted` its mean in all runs of the group and the standard deviation of the sample, both with four
/// digits after the point and rounded to the nearest, and the ensemble's quantiles. A run that has ended keeps the numbers of its last round. There is no
/// deviation where there is one run. Where there are more than 64 states and values that occur in all rounds
/// of all runs, there are columns for the further numbers alone. The runs are made, and told, as those of `counted_runs`.
///
/// The fault is that of the first run that has one, as `counted` tells it, before anything is done; `Memory` only where
/// none has one.
pub fn mean_counts<R: Threads + Sync, P: RunsProgress + Sync>(
    rt: &R,
    alloc: Global,
    ensemble: &Ensemble<'_>,
    span: &Span,
    counting: &Counting<'_>,
    progress: &P,
) -> Result<Vec<u8>, WatchFault>
    requires some { 1 ≤ length ensemble.now.variants.now }
    requires few { ensemble.now.size ≤ most_runs }
    ensures text { IfOk result (λ v. AreMeans ensemble.now span.now counting.now v.items) }
    ensures fits { IfOk result (λ _. refusal_in span.now counting.now ensemble.now.variants.now ≡ None) }
    ensures refused { IfErr result (λ fault. fault ≢ Memory → refusal_in span.now counting.now ensemble.now.variants.now ≡ Some fault) }
    ensures at_once { MatchOption (refusal_in span.now counting.now ensemble.now.variants.now) (Unit {0}) (λ fault. result ≡ Err fault) }
{
    if let Some(fault) = refusal_in(span, counting, ensemble.variants) {
        return Err(fault);
    }
    let text = means_text(rt, alloc, ensemble, span, counting, progress)?;
    Ok(text)
}
