//! The headings of columns.
ghost use Rattle.std.specs.Prelude.{◌≡◌, ◌++◌, [], OnOk, codes, slice_index_or, string_bytes};
ghost use Rattle.std.specs.List.{flat_map};
ghost use Rattle.rule_check.specs.Value.{names_of};
ghost use Rattle.run_counts.specs.Tables.{count_headings, figure_name, has_columns, opening_text, value_label};

use crate::asked::{CountFormat, Counting, Figure};
use rule_check::Program;
use run_watch::put_label;
use std::alloc::AllocError;

/// With as many values as this, each has a column of its own.
const MOST_COLUMNS: usize = 64;

/// The name of the field at a place; empty past the last.
fn name_at(program: &Program, place: u32) -> &str
    ensures name { result.now ≡ slice_index_or (names_of program.now) place [] }
{
    program.field_name(place).unwrap_or("")
}

/// The name of a figure.
pub(crate) fn put_figure_name(
    out: &mut String,
    program: &Program,
    figure: Figure,
) -> Result<(), AllocError>
    ensures text { OnOk result (string_bytes out.new ≡ string_bytes out.old ++ figure_name (names_of program.now) figure) }
{
    out.push_str(figure.kind.name())?;
    out.push_str(" ")?;
    out.push_str(name_at(program, figure.field))
}

/// The headings of the columns of figures.
fn put_figure_names(
    out: &mut String,
    program: &Program,
    figures: &[Figure],
) -> Result<(), AllocError>
    ensures text { OnOk result (string_bytes out.new ≡ string_bytes out.old ++ flat_map (λ f. codes "," ++ figure_name (names_of program.now) f) figures.now) }
{
    for figure in figures {
        out.push_str(",")?;
        put_figure_name(out, program, *figure)?;
    }
    Ok(())
}

/// The headings of a column for each value.
fn put_values(out: &mut String, names: &[String], values: &[u32]) -> Result<(), AllocError>
    ensures text { OnOk result (string_bytes out.new ≡ string_bytes out.old ++ flat_map (λ v. codes "," ++ value_label names.now v) values.now) }
{
    for value in values {
        out.push_str(",")?;
        put_label(out, names, *value)?;
    }
    Ok(())
}

/// Whether each of the values has a column.
pub(crate) fn has_columns(values: &[u32]) -> bool
    ensures { result ≡ has_columns values.now }
{
    values.len() <= MOST_COLUMNS
}

/// The headings of what is counted.
fn put_count_headings(out: &mut String, names: &[String], values: &[u32]) -> Result<(), AllocError>
    ensures text { OnOk result (string_bytes out.new ≡ string_bytes out.old ++ count_headings names.now values.now) }
{
    if has_columns(values) {
        return put_values(out, names, values);
    }
    out.push_str(",value,nodes")
}

/// The line of the headings, in CSV.
pub(crate) fn put_opening(
    out: &mut String,
    program: &Program,
    counting: &Counting<'_>,
    values: &[u32],
) -> Result<(), AllocError>
    ensures text { OnOk result (string_bytes out.new ≡ string_bytes out.old ++ opening_text counting.now.format counting.now.names.now (names_of program.now) counting.now.figures.now values.now) }
{
    if counting.format != CountFormat::Csv {
        return Ok(());
    }
    out.push_str("round")?;
    put_count_headings(out, counting.names, values)?;
    put_figure_names(out, program, counting.figures)?;
    out.push_str("\n")
}
