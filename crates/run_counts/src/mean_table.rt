//! The text of the means of runs that are counted together.
ghost use Rattle.std.specs.Prelude.{◌≡◌, ◌≤◌, ◌+◌, ◌++◌, IfOk, OnOk, length, map, min, slice_get, string_bytes};
ghost use Rattle.std.specs.Fmt.{decimal};
ghost use Rattle.std.specs.List.{flat_map, range_with_len};
ghost use Rattle.std.specs.Option.{option_to_list};
ghost use Rattle.rule_check.specs.Value.{names_of};
ghost use Rattle.run_counts.specs.Ensembles.{most_runs};
ghost use Rattle.run_counts.specs.MeanTables.{cell_of, cell_start, column_name, deviation_text, going_at, going_text, group_text, groups_text, held_row, line_at, longest, means_text, number_in, rows_at, runs_cells, statistic_text};
ghost use Rattle.run_counts.specs.Quantiles.{quantile};
ghost use Rattle.run_counts.specs.Settings.{settings_of};

use crate::asked::{CountFormat, Counting, Until};
use crate::ensemble::{Ensemble, Group, Setting};
use crate::lines::{end_of, put_named, put_start};
use crate::mean_columns::{Column, Source, Statistic, put_means_opening};
use crate::quantiles::{quantile_of, sort};
use crate::runs::Run;
use crate::settings::head_of;
use crate::spread::{deviation_of, mean_of, put_four_digits};
use rule_check::Program;
use std::alloc::{AllocError, Global};

/// The table of means: of which columns of what is counted in runs of this program.
#[derive(Clone, Copy)]
pub(crate) struct MeansTable<'a> {
    pub(crate) counting: &'a Counting<'a>,
    pub(crate) program: &'a Program,
    pub(crate) columns: &'a [Column],
}

/// The means of some runs.
#[derive(Clone, Copy)]
struct Means<'a> {
    counting: &'a Counting<'a>,
    program: &'a Program,
    columns: &'a [Column],
    /// What stands before the round in each line.
    head: &'a str,
    runs: &'a [Run<'a>],
}

/// Puts the number that stands for a run at a place after the others: that of its last row where it has ended before.
fn put_number(
    numbers: &mut Vec<u64>,
    run: &Run<'_>,
    place: usize,
    source: Source,
) -> Result<(), AllocError>
    ensures numbers { OnOk result (numbers.new.items ≡ numbers.old.items ++ map (number_in source) (option_to_list (held_row place run.now.rows))) }
    ensures few { OnOk result (length numbers.new.items ≤ length numbers.old.items + 1) }
{
    let last = run.rows().len().saturating_sub(1);
    if let Some(row) = run.rows().get(place.min(last)) {
        numbers.push(source.number_in(row))?;
    }
    Ok(())
}

/// Puts the round that a run has at a place after the others, where it has so many rows.
fn put_round(rounds: &mut Vec<u32>, run: &Run<'_>, place: usize) -> Result<(), AllocError>
    ensures rounds { OnOk result (rounds.new.items ≡ rounds.old.items ++ map (λ row. row.round) (option_to_list (slice_get run.now.rows place))) }
    ensures few { OnOk result (length rounds.new.items ≤ length rounds.old.items + 1) }
{
    if let Some(row) = run.rows().get(place) {
        rounds.push(row.round())?;
    }
    Ok(())
}

/// The numbers that stand for the runs at a place.
fn numbers_at(
    alloc: Global,
    runs: &[Run<'_>],
    place: usize,
    source: Source,
) -> Result<Vec<u64>, AllocError>
    ensures numbers { IfOk result (λ numbers. numbers.items ≡ map (number_in source) (rows_at place runs.now)) }
    ensures few { IfOk result (λ numbers. length numbers.items ≤ length runs.now) }
{
    let mut numbers = Vec::new(alloc);
    for run in runs {
        put_number(&mut numbers, run, place, source)?;
    }
    Ok(numbers)
}

/// The round of each row that the runs have at a place: as many as go on to it.
fn rounds_at(alloc: Global, runs: &[Run<'_>], place: usize) -> Result<Vec<u32>, AllocError>
    ensures rounds { IfOk result (λ rounds. rounds.items ≡ map (λ row. row.round) (going_at place runs.now)) }
    ensures few { IfOk result (λ rounds. length rounds.items ≤ length runs.now) }
{
    let mut rounds = Vec::new(alloc);
    for run in runs {
        put_round(&mut rounds, run, place)?;
    }
    Ok(rounds)
}

/// What stands before a number of a column.
fn put_cell_start(
    out: &mut String,
    counting: &Counting<'_>,
    program: &Program,
    column: Column,
) -> Result<(), AllocError>
    ensures text { OnOk result (string_bytes out.new ≡ string_bytes out.old ++ cell_start counting.now.format (column_name counting.now.names.now (names_of program.now) column)) }
{
    if counting.format == CountFormat::Csv {
        return out.push_str(",");
    }
    out.push_str(",\"")?;
    column.put_name(out, counting.names, program)?;
    out.push_str("\":")
}

/// The standard deviation of numbers.
fn put_deviation(out: &mut String, format: CountFormat, numbers: &[u64]) -> Result<(), AllocError>
    requires few { length numbers.now ≤ most_runs }
    ensures text { OnOk result (string_bytes out.new ≡ string_bytes out.old ++ deviation_text format numbers.now) }
{
    if numbers.len() > 1 {
        return put_four_digits(out, deviation_of(numbers));
    }
    match format {
        CountFormat::Csv => Ok(()),
        CountFormat::Json => out.push_str("null"),
    }
}

/// A quantile of numbers, which are put in order for it.
fn put_quantile(out: &mut String, percent: u8, numbers: Vec<u64>) -> Result<(), AllocError>
    requires some { 1 ≤ length numbers.items }
    requires few { length numbers.items ≤ most_runs }
    ensures text { OnOk result (string_bytes out.new ≡ string_bytes out.old ++ decimal (quantile (min percent 100) numbers.items)) }
{
    let mut sorted = numbers;
    sort(&mut sorted);
    write!(out, "{}", quantile_of(&sorted, percent.min(100)))
}

/// What is told of numbers.
fn put_statistic(
    out: &mut String,
    format: CountFormat,
    statistic: Statistic,
    numbers: Vec<u64>,
) -> Result<(), AllocError>
    requires some { 1 ≤ length numbers.items }
    requires few { length numbers.items ≤ most_runs }
    ensures text { OnOk result (string_bytes out.new ≡ string_bytes out.old ++ statistic_text format statistic numbers.items) }
{
    match statistic {
        Statistic::Mean => put_four_digits(out, mean_of(&numbers)),
        Statistic::Deviation => put_deviation(out, format, &numbers),
        Statistic::Quantile { percent } => put_quantile(out, percent, numbers),
    }
}

/// What stands in a column at a place.
fn put_column(
    alloc: Global,
    out: &mut String,
    means: &Means<'_>,
    column: Column,
    place: usize,
) -> Result<(), AllocError>
    requires some { 1 ≤ length (rows_at place means.now.runs.now) }
    requires few { length means.now.runs.now ≤ most_runs }
    ensures text { OnOk result (string_bytes out.new ≡ string_bytes out.old ++ cell_of means.now.counting.now.format means.now.counting.now.names.now (names_of means.now.program.now) column (map (number_in column.source) (rows_at place means.now.runs.now))) }
{
    let numbers = numbers_at(alloc, means.runs, place, column.source)?;
    put_cell_start(out, means.counting, means.program, column)?;
    put_statistic(out, means.counting.format, column.statistic, numbers)
}

/// What stands in all columns at a place.
fn put_columns(
    alloc: Global,
    out: &mut String,
    means: &Means<'_>,
    place: usize,
) -> Result<(), AllocError>
    requires some { 1 ≤ length (rows_at place means.now.runs.now) }
    requires few { length means.now.runs.now ≤ most_runs }
    ensures text { OnOk result (string_bytes out.new ≡ string_bytes out.old ++ flat_map (λ c. cell_of means.now.counting.now.format means.now.counting.now.names.now (names_of means.now.program.now) c (map (number_in c.source) (rows_at place means.now.runs.now))) means.now.columns.now) }
{
    for column in means.columns {
        put_column(alloc, out, means, *column, place)?;
    }
    Ok(())
}

/// How many runs go on to a round, where runs may end early.
fn put_going(
    out: &mut String,
    format: CountFormat,
    until: Option<Until>,
    going: u64,
) -> Result<(), AllocError>
    ensures text { OnOk result (string_bytes out.new ≡ string_bytes out.old ++ going_text format until going) }
{
    match until {
        Some(_) => put_named(out, format, "going", going),
        None => Ok(()),
    }
}

/// How many runs there are, and how many of them go on to a round.
fn put_runs(
    out: &mut String,
    format: CountFormat,
    until: Option<Until>,
    total: u64,
    going: u64,
) -> Result<(), AllocError>
    ensures text { OnOk result (string_bytes out.new ≡ string_bytes out.old ++ runs_cells format until total going) }
{
    put_named(out, format, "runs", total)?;
    put_going(out, format, until, going)
}

/// The line of the round at a place.
fn put_line(
    alloc: Global,
    out: &mut String,
    means: &Means<'_>,
    place: usize,
) -> Result<(), AllocError>
    requires few { length means.now.runs.now ≤ most_runs }
    ensures text { OnOk result (string_bytes out.new ≡ string_bytes out.old ++ line_at means.now.counting.now.format means.now.head.now means.now.counting.now.names.now (names_of means.now.program.now) means.now.columns.now means.now.counting.now.until means.now.runs.now place) }
{
    let counting = means.counting;
    let rounds = rounds_at(alloc, means.runs, place)?;
    let Some(round) = rounds.first() else {
        return Ok(());
    };
    let total = means.runs.len() as u64;
    let going = rounds.len() as u64;
    put_start(out, counting.format, means.head, *round)?;
    put_runs(out, counting.format, counting.until, total, going)?;
    put_columns(alloc, out, means, place)?;
    out.push_str(end_of(counting.format))
}

/// How many rows the runs have at most.
fn longest(runs: &[Run<'_>]) -> usize
    ensures longest { result ≡ longest runs.now }
{
    let mut most = 0;
    for run in runs {
        most = most.max(run.rows().len());
    }
    most
}

/// The lines of all rounds.
fn put_lines(alloc: Global, out: &mut String, means: &Means<'_>) -> Result<(), AllocError>
    requires few { length means.now.runs.now ≤ most_runs }
    ensures text { OnOk result (string_bytes out.new ≡ string_bytes out.old ++ flat_map (line_at means.now.counting.now.format means.now.head.now means.now.counting.now.names.now (names_of means.now.program.now) means.now.columns.now means.now.counting.now.until means.now.runs.now) (range_with_len 0 (longest means.now.runs.now))) }
{
    for place in 0..longest(means.runs) {
        put_line(alloc, out, means, place)?;
    }
    Ok(())
}

/// The lines of the means of some runs, which have these values in common.
fn put_group(
    alloc: Global,
    out: &mut String,
    table: &MeansTable<'_>,
    settings: &[Setting],
    runs: &[Run<'_>],
) -> Result<(), AllocError>
    requires few { length runs.now ≤ most_runs }
    ensures text { OnOk result (string_bytes out.new ≡ string_bytes out.old ++ group_text table.now.counting.now.format table.now.counting.now.names.now (names_of table.now.program.now) table.now.columns.now table.now.counting.now.until settings.now runs.now) }
{
    let head = head_of(alloc, table.counting.format, settings)?;
    let means = Means {
        counting: table.counting,
        program: table.program,
        columns: table.columns,
        head: head.as_str(),
        runs,
    };
    put_lines(alloc, out, &means)
}

/// The lines of the means of groups, each of which has so many of the runs, in their order.
fn put_groups(
    alloc: Global,
    out: &mut String,
    table: &MeansTable<'_>,
    ensemble: &Ensemble<'_>,
    runs: &[Run<'_>],
) -> Result<(), AllocError>
    requires few { ensemble.now.size ≤ most_runs }
    ensures text { OnOk result (string_bytes out.new ≡ string_bytes out.old ++ groups_text table.now.counting.now.format table.now.counting.now.names.now (names_of table.now.program.now) table.now.columns.now table.now.counting.now.until ensemble.now.size ensemble.now.groups.now runs.now) }
{
    let mut first = 0;
    for group in ensemble.groups {
        let last = first + ensemble.size.min(runs.len() - first);
        put_group(alloc, out, table, group.settings, &runs[first..last])?;
        first = last;
    }
    Ok(())
}

/// What the groups have in common of what varies: as in the first of them.
fn first_settings<'a>(groups: &[Group<'a>]) -> &'a [Setting]
    ensures settings { result.now ≡ settings_of groups.now }
{
    match groups {
        [group, ..] => group.settings,
        [] => &[],
    }
}

/// The text of the means of columns over the runs of each group.
pub(crate) fn means_table(
    alloc: Global,
    table: &MeansTable<'_>,
    ensemble: &Ensemble<'_>,
    runs: &[Run<'_>],
) -> Result<Vec<u8>, AllocError>
    requires few { ensemble.now.size ≤ most_runs }
    ensures text { IfOk result (λ v. v.items ≡ means_text table.now.counting.now.format table.now.counting.now.names.now (names_of table.now.program.now) table.now.columns.now table.now.counting.now.until ensemble.now.size ensemble.now.groups.now runs.now) }
{
    let mut out = String::new(alloc);
    let settings = first_settings(ensemble.groups);
    put_means_opening(
        &mut out,
        table.counting,
        table.program,
        settings,
        table.columns,
    )?;
    put_groups(alloc, &mut out, table, ensemble, runs)?;
    Ok(out.into_bytes())
}
