//! The states of all nodes as CSV.
ghost use Rattle.std.specs.Prelude.{◌≡◌, ◌≤◌, ◌++◌, IfOk, OnOk, length, map, string_bytes};
ghost use Rattle.std.specs.List.{flat_map};
ghost use Rattle.rule_check.specs.Value.{names_of};
ghost use Rattle.run_watch.specs.StatesCsv.{cell, csv_line, csv_text, heading_line, value_text, value_texts};
ghost use Rattle.run_watch.specs.StatesRecords.{StateHeadingsAreRecords, StateLinesAreRecords, StateLinesTell};

use crate::rows::{names_at, put_label};
use report_text::field_names;
use rule_check::{Program, State};
use std::alloc::{AllocError, Global};

/// Puts names, each after a comma.
fn put_names(out: &mut String, names: &[&str]) -> Result<(), AllocError>
    ensures text { OnOk result (string_bytes out.new ≡ string_bytes out.old ++ flat_map cell (map (λ name. name.now) names.now)) }
{
    for name in names {
        write!(out, ",{name}")?;
    }
    Ok(())
}

/// Puts the line of headings.
fn put_headings(out: &mut String, program: &Program) -> Result<(), AllocError>
    ensures text { OnOk result (string_bytes out.new ≡ string_bytes out.old ++ heading_line (names_of program.now)) }
{
    let names = field_names(program);
    out.push_str("node")?;
    put_names(out, &names[..program.field_count() as usize])?;
    out.push_str("\n")
}

/// Puts what stands for a value, which has one of these names where there are so many, after a comma.
fn put_value(out: &mut String, names: &[String], value: u32) -> Result<(), AllocError>
    ensures text { OnOk result (string_bytes out.new ≡ string_bytes out.old ++ cell (value_text names.now value)) }
{
    out.push_str(",")?;
    put_label(out, names, value)
}

/// Puts what stands for the values of the first fields, each after a comma.
fn put_values(out: &mut String, names: &[Vec<String>], values: &[u32]) -> Result<(), AllocError>
    requires few { length values.now ≤ 8 }
    ensures text { OnOk result (string_bytes out.new ≡ string_bytes out.old ++ flat_map cell (value_texts names.now 0 values.now)) }
{
    for (place, value) in values.iter().enumerate() {
        put_value(out, names_at(names, place as u32), *value)?;
    }
    Ok(())
}

/// Puts the line of a node.
fn put_node(
    out: &mut String,
    names: &[Vec<String>],
    fields: u32,
    node: usize,
    state: &State,
) -> Result<(), AllocError>
    requires few { fields ≤ 8 }
    ensures text { OnOk result (string_bytes out.new ≡ string_bytes out.old ++ csv_line names.now fields node state.now) }
{
    write!(out, "{node}")?;
    put_values(out, names, &state.words[..fields as usize])?;
    out.push_str("\n")
}

/// The states of all nodes as CSV: a line of headings, `node` and the program's fields in order of declaration, and a
/// line for each node by rising number, with its values. Of a field whose values have names, 0 and so on, the name stands
/// in place of the number; `names` has those of each field in order, and a value past the last name, or of a field past
/// the last of `names`, is its number. What a reader gets back, `states_csv_is_read_back` says. Where no field has names,
/// it is what `unison csv` prints of a report with numbers for the nodes' names.
pub fn csv_states(
    alloc: Global,
    program: &Program,
    names: &[Vec<String>],
    states: &[State],
) -> Result<Vec<u8>, AllocError>
    ensures text { IfOk result (λ v. v.items ≡ csv_text names.now (names_of program.now) states.now) }
{
    let fields = program.field_count();
    let mut out = String::new(alloc);
    put_headings(&mut out, program)?;
    for (node, state) in states.iter().enumerate() {
        put_node(&mut out, names, fields, node, state)?;
    }
    Ok(out.into_bytes())
}

/// The line of a node, cut at its commas, is its number and the values of the fields in order, by their names where they
/// have some. The line of the headings is `node` and the names of the fields, as many as each line has. Two lines that are
/// equal say the same node and the same values. Names of values are to be words, each once in its field.
pub fn states_csv_is_read_back()
    ensures lines { StateLinesAreRecords }
    ensures headings { StateHeadingsAreRecords }
    ensures tell { StateLinesTell }
{}
