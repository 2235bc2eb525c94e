//! The lines of rounds that are counted.
ghost use Rattle.std.specs.Prelude.{◌≡◌, ◌++◌, OnOk, string_bytes};
ghost use Rattle.std.specs.List.{flat_map};
ghost use Rattle.rule_check.specs.Value.{names_of};
ghost use Rattle.run_counts.specs.Rows.{count_in};
ghost use Rattle.run_counts.specs.Tables.{cell_text, figure_name, figures_text, line_end, line_start, long_text, row_text, value_cell, value_label, wide_text};

use crate::asked::{CountFormat, Counting, Figure};
use crate::columns::{has_columns, put_figure_name};
use crate::table::Row;
use crate::values::count_in;
use rule_check::Program;
use run_watch::{put_json_label, put_label};
use std::alloc::AllocError;

/// A number under a heading.
pub(crate) fn put_named(
    out: &mut String,
    format: CountFormat,
    heading: &str,
    number: u64,
) -> Result<(), AllocError>
    ensures text { OnOk result (string_bytes out.new ≡ string_bytes out.old ++ cell_text format heading.now number) }
{
    match format {
        CountFormat::Csv => write!(out, ",{number}"),
        CountFormat::Json => write!(out, ",\"{heading}\":{number}"),
    }
}

/// How many nodes have a value, under what the value is called.
fn put_count(
    out: &mut String,
    counting: &Counting<'_>,
    value: u32,
    nodes: u64,
) -> Result<(), AllocError>
    ensures text { OnOk result (string_bytes out.new ≡ string_bytes out.old ++ cell_text counting.now.format (value_label counting.now.names.now value) nodes) }
{
    if counting.format == CountFormat::Csv {
        return write!(out, ",{nodes}");
    }
    out.push_str(",\"")?;
    put_label(out, counting.names, value)?;
    write!(out, "\":{nodes}")
}

/// A value in a line of its own.
fn put_value_cell(out: &mut String, counting: &Counting<'_>, value: u32) -> Result<(), AllocError>
    ensures text { OnOk result (string_bytes out.new ≡ string_bytes out.old ++ value_cell counting.now.format counting.now.names.now value) }
{
    match counting.format {
        CountFormat::Csv => {
            out.push_str(",")?;
            put_label(out, counting.names, value)
        }
        CountFormat::Json => {
            out.push_str(",\"value\":")?;
            put_json_label(out, counting.names, value)
        }
    }
}

/// A figure under its name.
fn put_figure(
    out: &mut String,
    format: CountFormat,
    program: &Program,
    figure: Figure,
    number: u64,
) -> Result<(), AllocError>
    ensures text { OnOk result (string_bytes out.new ≡ string_bytes out.old ++ cell_text format (figure_name (names_of program.now) figure) number) }
{
    if format == CountFormat::Csv {
        return write!(out, ",{number}");
    }
    out.push_str(",\"")?;
    put_figure_name(out, program, figure)?;
    write!(out, "\":{number}")
}

/// What begins a line of a round: what stands before the round, and the round.
pub(crate) fn put_start(
    out: &mut String,
    format: CountFormat,
    head: &str,
    round: u32,
) -> Result<(), AllocError>
    ensures text { OnOk result (string_bytes out.new ≡ string_bytes out.old ++ line_start format head.now round) }
{
    match format {
        CountFormat::Csv => write!(out, "{head}{round}"),
        CountFormat::Json => {
            out.push_str("{")?;
            write!(out, "{head}\"round\":{round}")
        }
    }
}

/// What ends a line.
pub(crate) fn end_of(format: CountFormat) -> &'static str
    ensures text { result.now ≡ line_end format }
{
    match format {
        CountFormat::Csv => "\n",
        CountFormat::Json => "}\n",
    }
}

/// The figures of a round.
fn put_figures(
    out: &mut String,
    format: CountFormat,
    program: &Program,
    figures: &[(Figure, u64)],
) -> Result<(), AllocError>
    ensures text { OnOk result (string_bytes out.new ≡ string_bytes out.old ++ flat_map (λ f. cell_text format (figure_name (names_of program.now) f.0) f.1) figures.now) }
{
    for figure in figures {
        put_figure(out, format, program, figure.0, figure.1)?;
    }
    Ok(())
}

/// The figures of a round, and the end of the line.
fn put_line_end(
    out: &mut String,
    format: CountFormat,
    program: &Program,
    figures: &[(Figure, u64)],
) -> Result<(), AllocError>
    ensures text { OnOk result (string_bytes out.new ≡ string_bytes out.old ++ figures_text format (names_of program.now) figures.now) }
{
    put_figures(out, format, program, figures)?;
    out.push_str(end_of(format))
}

/// For each value how many nodes have it in a round.
fn put_counts(
    out: &mut String,
    counting: &Counting<'_>,
    values: &[u32],
    row: &Row,
) -> Result<(), AllocError>
    ensures text { OnOk result (string_bytes out.new ≡ string_bytes out.old ++ flat_map (λ v. cell_text counting.now.format (value_label counting.now.names.now v) (count_in row.now.counts v)) values.now) }
{
    for value in values {
        put_count(out, counting, *value, count_in(row.counts(), *value))?;
    }
    Ok(())
}

/// The line of a round in which each value has a column.
fn put_wide(
    out: &mut String,
    counting: &Counting<'_>,
    head: &str,
    program: &Program,
    values: &[u32],
    row: &Row,
) -> Result<(), AllocError>
    ensures text { OnOk result (string_bytes out.new ≡ string_bytes out.old ++ wide_text counting.now.format counting.now.names.now head.now (names_of program.now) values.now row.now) }
{
    put_start(out, counting.format, head, row.round())?;
    put_counts(out, counting, values, row)?;
    put_line_end(out, counting.format, program, row.figures())
}

/// The line of a value that occurs in a round.
fn put_value(
    out: &mut String,
    counting: &Counting<'_>,
    head: &str,
    program: &Program,
    row: &Row,
    count: (u32, u64),
) -> Result<(), AllocError>
    ensures text { OnOk result (string_bytes out.new ≡ string_bytes out.old ++ long_text counting.now.format counting.now.names.now head.now (names_of program.now) row.now count) }
{
    put_start(out, counting.format, head, row.round())?;
    put_value_cell(out, counting, count.0)?;
    put_named(out, counting.format, "nodes", count.1)?;
    put_line_end(out, counting.format, program, row.figures())
}

/// The lines of a round, one for each value that occurs in it.
fn put_long(
    out: &mut String,
    counting: &Counting<'_>,
    head: &str,
    program: &Program,
    row: &Row,
) -> Result<(), AllocError>
    ensures text { OnOk result (string_bytes out.new ≡ string_bytes out.old ++ flat_map (long_text counting.now.format counting.now.names.now head.now (names_of program.now) row.now) row.now.counts) }
{
    for count in row.counts() {
        put_value(out, counting, head, program, row, *count)?;
    }
    Ok(())
}

/// The lines of a round.
fn put_row(
    out: &mut String,
    counting: &Counting<'_>,
    head: &str,
    program: &Program,
    values: &[u32],
    row: &Row,
) -> Result<(), AllocError>
    ensures text { OnOk result (string_bytes out.new ≡ string_bytes out.old ++ row_text counting.now.format counting.now.names.now head.now (names_of program.now) values.now row.now) }
{
    if has_columns(values) {
        put_wide(out, counting, head, program, values, row)
    } else {
        put_long(out, counting, head, program, row)
    }
}

/// The lines of rounds, each after this head.
pub(crate) fn put_rows(
    out: &mut String,
    counting: &Counting<'_>,
    head: &str,
    program: &Program,
    values: &[u32],
    rows: &[Row],
) -> Result<(), AllocError>
    ensures text { OnOk result (string_bytes out.new ≡ string_bytes out.old ++ flat_map (row_text counting.now.format counting.now.names.now head.now (names_of program.now) values.now) rows.now) }
{
    for row in rows {
        put_row(out, counting, head, program, values, row)?;
    }
    Ok(())
}
