//! The lines of nodes.
ghost use Rattle.std.specs.Prelude.{◌≡◌, ◌++◌, ◌<◌, [], All, OnOk, length, slice_get, slice_index_or, string_bytes};
ghost use Rattle.std.specs.Option.{option_map};
ghost use Rattle.rule_check.specs.Value.{names_of};
ghost use Rattle.run_watch.specs.declared.show.Format.TheVariants.{Json};
ghost use Rattle.run_watch.specs.Watching.{cell_text, cells_text, label_of, names_in, row_end, row_start, row_text, value_name, json_label};

use crate::show::{Format, Show};
use report_text::put_field;
use rule_check::{Program, State};
use std::alloc::AllocError;

/// The name of the field at a place.
pub(crate) fn name_at(program: &Program, place: u32) -> &str
    requires place { place < length program.now.fields }
    ensures name { result.now ≡ slice_index_or (names_of program.now) place [] }
{
    program.field_name(place).unwrap_or("")
}

/// The names of the values of the field at a place; none past the last field.
pub(crate) fn names_at(names: &[Vec<String>], place: u32) -> &[String]
    ensures names { result.now ≡ names_in (slice_get names.now place) }
{
    match names.get(place as usize) {
        Some(names) => names.as_slice(),
        None => &[],
    }
}

/// Adds what stands for a number, by these labels in order: its label, or for a number past the last its decimal.
pub fn put_label(out: &mut String, labels: &[String], number: u32) -> Result<(), AllocError>
    ensures text { OnOk result (string_bytes out.new ≡ string_bytes out.old ++ label_of (option_map string_bytes (slice_get labels.now number)) number) }
{
    match labels.get(number as usize) {
        Some(label) => out.push_str(label.as_str()),
        None => write!(out, "{number}"),
    }
}

/// Adds the same in JSON, where a label is a text: it stands in quotes, as it is. It is to need no escapes.
pub fn put_json_label(out: &mut String, labels: &[String], number: u32) -> Result<(), AllocError>
    ensures text { OnOk result (string_bytes out.new ≡ string_bytes out.old ++ json_label (option_map string_bytes (slice_get labels.now number)) number) }
{
    match labels.get(number as usize) {
        Some(label) => {
            out.push_str("\"")?;
            out.push_str(label.as_str())?;
            out.push_str("\"")
        }
        None => write!(out, "{number}"),
    }
}

/// The value of a field after the field's name, in JSON.
fn put_member(out: &mut String, field: &str, names: &[String], value: u32) -> Result<(), AllocError>
    ensures text { OnOk result (string_bytes out.new ≡ string_bytes out.old ++ cell_text Json field.now (option_map string_bytes (slice_get names.now value)) value) }
{
    write!(out, ",\"{field}\":")?;
    put_json_label(out, names, value)
}

/// A value of a field.
fn put_cell(
    out: &mut String,
    show: &Show<'_>,
    program: &Program,
    place: u32,
    value: u32,
) -> Result<(), AllocError>
    requires place { place < length program.now.fields }
    ensures text { OnOk result (string_bytes out.new ≡ string_bytes out.old ++ cell_text show.now.format (slice_index_or (names_of program.now) place []) (value_name show.now place value) value) }
{
    let names = names_at(show.names, place);
    match show.format {
        Format::Report => put_field(out, program, place, value),
        Format::Csv => {
            out.push_str(",")?;
            put_label(out, names, value)
        }
        Format::Json => put_member(out, name_at(program, place), names, value),
    }
}

/// The values of the shown fields.
fn put_cells(
    out: &mut String,
    show: &Show<'_>,
    program: &Program,
    state: &State,
) -> Result<(), AllocError>
    requires fields { All (λ place. place < length program.now.fields) show.now.fields.now }
    ensures text { OnOk result (string_bytes out.new ≡ string_bytes out.old ++ cells_text show.now (names_of program.now) state.now) }
{
    for place in show.fields {
        put_cell(out, show, program, *place, state.value(*place))?;
    }
    Ok(())
}

/// What stands before the label of a node.
fn put_start(out: &mut String, format: Format, round: u32) -> Result<(), AllocError>
    ensures text { OnOk result (string_bytes out.new ≡ string_bytes out.old ++ row_start format round) }
{
    match format {
        Format::Report => Ok(()),
        Format::Csv => write!(out, "{round},"),
        Format::Json => {
            out.push_str("{\"round\":")?;
            write!(out, "{round},\"node\":")
        }
    }
}

/// What stands after the fields.
fn end_of(format: Format) -> &'static str
    ensures text { result.now ≡ row_end format }
{
    match format {
        Format::Report => "\n",
        Format::Csv => "\n",
        Format::Json => "}\n",
    }
}

/// The line of a node in a round.
pub(crate) fn put_row(
    out: &mut String,
    show: &Show<'_>,
    program: &Program,
    round: u32,
    node: u32,
    state: &State,
) -> Result<(), AllocError>
    requires fields { All (λ place. place < length program.now.fields) show.now.fields.now }
    ensures text { OnOk result (string_bytes out.new ≡ string_bytes out.old ++ row_text show.now (names_of program.now) round node state.now) }
{
    put_start(out, show.format, round)?;
    put_label(out, show.labels, node)?;
    put_cells(out, show, program, state)?;
    out.push_str(end_of(show.format))
}
