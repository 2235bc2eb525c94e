//! The columns of which there are means.
ghost use Rattle.std.specs.Prelude.{◌≡◌, ◌++◌, IfOk, OnOk, [], map, string_bytes, if◌then◌else◌};
ghost use Rattle.std.specs.List.{enumerate_from, flat_map};
ghost use Rattle.rule_check.specs.Value.{names_of};
ghost use Rattle.run_counts.specs.declared.mean_columns.Source.TheVariants.{Further, Nodes};
ghost use Rattle.run_counts.specs.MeanTables.{column_name, columns_for, columns_of, going_heading, heading_text, means_opening, number_in, quantile_column, source_name, sources_of, statistic_name};
ghost use Rattle.run_counts.specs.Tables.{has_columns};

use crate::asked::{CountFormat, Counting, Figure, Until};
use crate::columns::{has_columns, put_figure_name};
use crate::ensemble::Setting;
use crate::settings::put_names;
use crate::table::Row;
use rule_check::Program;
use run_watch::put_label;
use std::alloc::{AllocError, Global};

/// A number that each row of a run has.
#[derive(Clone, Copy)]
pub(crate) enum Source {
    /// How many nodes have a value.
    Nodes { value: u32 },
    /// The figure at a place.
    Further { place: usize, figure: Figure },
}

/// What is told of a number over all runs.
#[derive(Clone, Copy)]
pub(crate) enum Statistic {
    Mean,
    /// The standard deviation of the sample.
    Deviation,
    /// The least of the numbers that at least so many percent of them do not exceed.
    Quantile { percent: u8 },
}

/// A column of the table of means.
#[derive(Clone, Copy)]
pub(crate) struct Column {
    pub(crate) source: Source,
    pub(crate) statistic: Statistic,
}

impl Source {
    /// The number of a row.
    pub(crate) fn number_in(self, row: &Row) -> u64
        ensures number { result ≡ number_in self row.now }
    {
        match self {
            Source::Nodes { value } => row.count(value),
            Source::Further { place, .. } => row.figure(place),
        }
    }

    /// What it is called.
    fn put_name(
        self,
        out: &mut String,
        names: &[String],
        program: &Program,
    ) -> Result<(), AllocError>
        ensures text { OnOk result (string_bytes out.new ≡ string_bytes out.old ++ source_name names.now (names_of program.now) self) }
    {
        match self {
            Source::Nodes { value } => put_label(out, names, value),
            Source::Further { figure, .. } => put_figure_name(out, program, figure),
        }
    }
}

impl Statistic {
    /// What is put behind the name of a number.
    fn put_name(self, out: &mut String) -> Result<(), AllocError>
        ensures text { OnOk result (string_bytes out.new ≡ string_bytes out.old ++ statistic_name self) }
    {
        match self {
            Statistic::Mean => out.push_str(" mean"),
            Statistic::Deviation => out.push_str(" deviation"),
            Statistic::Quantile { percent } => write!(out, " {percent}%"),
        }
    }
}

impl Column {
    /// What it is called.
    pub(crate) fn put_name(
        self,
        out: &mut String,
        names: &[String],
        program: &Program,
    ) -> Result<(), AllocError>
        ensures text { OnOk result (string_bytes out.new ≡ string_bytes out.old ++ column_name names.now (names_of program.now) self) }
    {
        self.source.put_name(out, names, program)?;
        self.statistic.put_name(out)
    }

    /// Its heading, in CSV.
    fn put_heading(
        self,
        out: &mut String,
        names: &[String],
        program: &Program,
    ) -> Result<(), AllocError>
        ensures text { OnOk result (string_bytes out.new ≡ string_bytes out.old ++ heading_text names.now (names_of program.now) self) }
    {
        out.push_str(",")?;
        self.put_name(out, names, program)
    }
}

/// How many nodes have each value, where there are not too many.
fn value_sources(alloc: Global, values: &[u32]) -> Result<Vec<Source>, AllocError>
    ensures sources { IfOk result (λ sources. sources.items ≡ (if has_columns values.now then map Nodes values.now else [])) }
{
    let mut sources = Vec::new(alloc);
    if !has_columns(values) {
        return Ok(sources);
    }
    for value in values {
        sources.push(Source::Nodes { value: *value })?;
    }
    Ok(sources)
}

/// Puts figures after the others.
fn put_figure_sources(sources: &mut Vec<Source>, figures: &[Figure]) -> Result<(), AllocError>
    ensures sources { OnOk result (sources.new.items ≡ sources.old.items ++ map (λ f. Further f.0 f.1) (enumerate_from 0 figures.now)) }
{
    for (place, figure) in figures.iter().enumerate() {
        let figure = *figure;
        sources.push(Source::Further { place, figure })?;
    }
    Ok(())
}

/// The numbers that are told over all runs.
fn sources_of(alloc: Global, values: &[u32], figures: &[Figure]) -> Result<Vec<Source>, AllocError>
    ensures sources { IfOk result (λ sources. sources.items ≡ sources_of values.now figures.now) }
{
    let mut sources = value_sources(alloc, values)?;
    put_figure_sources(&mut sources, figures)?;
    Ok(sources)
}

/// Puts the columns of a number's quantiles after the others.
fn put_quantiles(
    columns: &mut Vec<Column>,
    source: Source,
    quantiles: &[u8],
) -> Result<(), AllocError>
    ensures columns { OnOk result (columns.new.items ≡ columns.old.items ++ map (quantile_column source) quantiles.now) }
{
    for percent in quantiles {
        let statistic = Statistic::Quantile { percent: *percent };
        columns.push(Column { source, statistic })?;
    }
    Ok(())
}

/// Puts the columns of what is told of a number after the others.
fn put_statistics(
    columns: &mut Vec<Column>,
    source: Source,
    quantiles: &[u8],
) -> Result<(), AllocError>
    ensures columns { OnOk result (columns.new.items ≡ columns.old.items ++ columns_for quantiles.now source) }
{
    let statistic = Statistic::Mean;
    columns.push(Column { source, statistic })?;
    let statistic = Statistic::Deviation;
    columns.push(Column { source, statistic })?;
    put_quantiles(columns, source, quantiles)
}

/// The columns of what is told of some numbers.
fn columns_among(
    alloc: Global,
    sources: &[Source],
    quantiles: &[u8],
) -> Result<Vec<Column>, AllocError>
    ensures columns { IfOk result (λ columns. columns.items ≡ flat_map (columns_for quantiles.now) sources.now) }
{
    let mut columns = Vec::new(alloc);
    for source in sources {
        put_statistics(&mut columns, *source, quantiles)?;
    }
    Ok(columns)
}

/// The columns of which there are means.
pub(crate) fn columns_of(
    alloc: Global,
    values: &[u32],
    figures: &[Figure],
    quantiles: &[u8],
) -> Result<Vec<Column>, AllocError>
    ensures columns { IfOk result (λ columns. columns.items ≡ columns_of values.now figures.now quantiles.now) }
{
    let sources = sources_of(alloc, values, figures)?;
    columns_among(alloc, &sources, quantiles)
}

/// The headings of all columns, in CSV.
fn put_all_headings(
    out: &mut String,
    names: &[String],
    program: &Program,
    columns: &[Column],
) -> Result<(), AllocError>
    ensures text { OnOk result (string_bytes out.new ≡ string_bytes out.old ++ flat_map (heading_text names.now (names_of program.now)) columns.now) }
{
    for column in columns {
        column.put_heading(out, names, program)?;
    }
    Ok(())
}

/// The heading above how many runs go on, where runs may end early.
fn going_heading(until: Option<Until>) -> &'static str
    ensures text { result.now ≡ going_heading until }
{
    match until {
        Some(_) => ",going",
        None => "",
    }
}

/// The line of the headings, in CSV: what varies comes first.
pub(crate) fn put_means_opening(
    out: &mut String,
    counting: &Counting<'_>,
    program: &Program,
    settings: &[Setting],
    columns: &[Column],
) -> Result<(), AllocError>
    ensures text { OnOk result (string_bytes out.new ≡ string_bytes out.old ++ means_opening counting.now.format settings.now counting.now.names.now (names_of program.now) columns.now counting.now.until) }
{
    if counting.format != CountFormat::Csv {
        return Ok(());
    }
    put_names(out, settings)?;
    out.push_str("round,runs")?;
    out.push_str(going_heading(counting.until))?;
    put_all_headings(out, counting.names, program, columns)?;
    out.push_str("\n")
}
