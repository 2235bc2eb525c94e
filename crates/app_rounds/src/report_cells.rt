//! `cells REPORT --width W`: the states of a report as a pattern of cells.
ghost use Rattle.std.specs.Prelude.{◌≤◌};

use crate::cells_request::{CellsFormat, CellsRequest};
use crate::csv_text::table_of;
use crate::window::{Window, window_values};
use app_commands::{asked_by, put_note};
use app_files::{Ending, bytes_at, name_at, print_out};
use app_table::Draft;
use net_patterns::{PatternFormat, ValueFault, grid_pattern};
use report_files::tables::{Table, column_values};
use std::alloc::{AllocError, Global};

/// How the pattern is written.
fn pattern_format(format: CellsFormat) -> PatternFormat {
    match format {
        CellsFormat::Rle => PatternFormat::Runs,
        CellsFormat::Text => PatternFormat::Rows,
    }
}

/// Puts the names of the fields of a table, with commas between two.
fn put_fields(draft: &mut Draft, table: &Table<'_>) {
    for (place, field) in table.fields().iter().enumerate() {
        if place > 0 {
            draft.put(", ");
        }
        draft.put(*field);
    }
}

/// What is told where `--field` names no field of a table.
fn no_field(alloc: Global, table: &Table<'_>, word: &str) -> Result<String, AllocError> {
    let mut draft = Draft::new(alloc);
    draft.put("--field: the report has no field `");
    draft.put(word);
    draft.put("`; its fields are ");
    put_fields(&mut draft, table);
    draft.end()
}

/// What is told where no field is named, and the table has several.
fn many_fields(alloc: Global, table: &Table<'_>) -> Result<String, AllocError> {
    let mut draft = Draft::new(alloc);
    draft.put("--field FIELD is wanted: the report has the fields ");
    put_fields(&mut draft, table);
    draft.end()
}

/// The place of the field of this name, where a table has it.
fn place_of(table: &Table<'_>, word: &str) -> Option<usize> {
    for (place, field) in table.fields().iter().enumerate() {
        if *field == word {
            return Some(place);
        }
    }
    None
}

/// The place of the field whose values are the states.
fn field_place(alloc: Global, table: &Table<'_>, word: &Option<String>) -> Result<usize, Ending> {
    match word {
        Some(word) => match place_of(table, word.as_str()) {
            Some(place) => Ok(place),
            None => Err(Ending::usage(no_field(alloc, table, word.as_str()))),
        },
        None if table.fields().len() == 1 => Ok(0),
        None => Err(Ending::usage(many_fields(alloc, table))),
    }
}

/// The values of the field that is asked for, by node.
fn asked_values(
    alloc: Global,
    table: &Table<'_>,
    word: &Option<String>,
) -> Result<Vec<u32>, Ending> {
    let place = field_place(alloc, table, word)?;
    column_values(alloc, table, place).map_err(Ending::from)
}

/// What is told where a node's value is no state.
fn great_value(
    alloc: Global,
    node: u32,
    value: u32,
    format: CellsFormat,
) -> Result<String, AllocError> {
    match format {
        CellsFormat::Rle => format!(in alloc;
            "cells TooGreat {node}\nnode {node} has the value {value}, and cells in runs have states up to 255"
        ),
        CellsFormat::Text => format!(in alloc;
            "cells TooGreat {node}\nnode {node} has the value {value}, and rows of . and O are for 0 and 1; --format rle has values up to 255"
        ),
    }
}

/// What is told where there are more cells than a pattern has.
fn too_many(alloc: Global) -> Result<String, AllocError> {
    String::from_str(
        alloc,
        "cells TooMany\na pattern has at most 65536 cells, dead ones among them; --window X,Y,W,H writes a part of the grid",
    )
}

/// The ending where values are no pattern.
fn no_pattern(alloc: Global, fault: ValueFault, format: CellsFormat) -> Ending {
    match fault {
        ValueFault::TooGreat { node, value } => {
            Ending::refused(great_value(alloc, node, value, format))
        }
        ValueFault::TooMany => Ending::refused(too_many(alloc)),
        ValueFault::Memory => Ending::Memory,
    }
}

/// The ending where the width makes no whole rows.
fn no_rows(alloc: Global, nodes: usize, width: u32) -> Ending {
    Ending::usage(format!(in alloc;
        "--width: the report's {nodes} nodes make no whole rows of {width}"
    ))
}

/// The pattern of whole rows of values of this width.
fn rows_pattern(
    alloc: Global,
    values: &[u32],
    width: u32,
    format: CellsFormat,
) -> Result<Vec<u8>, Ending>
    requires width { 1 ≤ width }
{
    match grid_pattern(alloc, values, width, pattern_format(format)) {
        Ok(text) => Ok(text),
        Err(fault) => Err(no_pattern(alloc, fault, format)),
    }
}

/// The fault of a part of a grid of this width, with the node as the grid has it.
fn placed(fault: ValueFault, width: u32, window: Window) -> ValueFault {
    match fault {
        ValueFault::TooGreat { node, value } => ValueFault::TooGreat {
            node: window.node_at(width, node),
            value,
        },
        fault => fault,
    }
}

/// The pattern of a part of values of this width.
fn part_pattern(
    alloc: Global,
    values: &[u32],
    asked: &CellsRequest,
    window: Window,
) -> Result<Vec<u8>, Ending> {
    let part = window_values(alloc, values, asked.width, window)?;
    let (columns, format) = (window.columns.max(1), pattern_format(asked.format));
    match grid_pattern(alloc, &part, columns, format) {
        Ok(text) => Ok(text),
        Err(fault) => Err(no_pattern(alloc, placed(fault, asked.width, window), asked.format)),
    }
}

/// The pattern of values, whose header names no rule.
fn plain_pattern(alloc: Global, values: &[u32], asked: &CellsRequest) -> Result<Vec<u8>, Ending> {
    let width = asked.width.max(1);
    if values.len() % width as usize != 0 {
        return Err(no_rows(alloc, values.len(), width));
    }
    match asked.window {
        Some(window) => part_pattern(alloc, values, asked, window),
        None => rows_pattern(alloc, values, width, asked.format),
    }
}

/// Puts what names a rule in the header of runs.
fn put_rule(text: &mut Vec<u8>, rule: &str) -> Result<(), AllocError> {
    text.extend_from_slice(b", rule = ")?;
    text.extend_from_slice(rule.as_bytes())
}

/// Runs whose header, their first line, names a rule.
fn with_rule(alloc: Global, runs: &[u8], rule: &str) -> Result<Vec<u8>, AllocError> {
    let mut text = Vec::new(alloc);
    let mut in_header = true;
    for byte in runs {
        if in_header && *byte == b'\n' {
            put_rule(&mut text, rule)?;
            in_header = false;
        }
        text.push(*byte)?;
    }
    Ok(text)
}

/// The pattern of values.
fn pattern_of(alloc: Global, values: &[u32], asked: &CellsRequest) -> Result<Vec<u8>, Ending> {
    let pattern = plain_pattern(alloc, values, asked)?;
    match &asked.rule {
        Some(rule) => with_rule(alloc, &pattern, rule.as_str()).map_err(Ending::from),
        None => Ok(pattern),
    }
}

/// Prints a note where Golly will not read runs, since they have more than two states and name no rule.
fn note_rule(rt: &HostRuntime, values: &[u32], asked: &CellsRequest) {
    let has_more = values.iter().any(|value| *value > 1);
    if has_more && asked.rule.is_none() && !asked.quiet {
        put_note(
            rt,
            "there are more than two states, and the runs name no rule: Golly takes them for Life's then, which has two, and refuses them; --rule RULE names one, as --rule WireWorld",
        );
    }
}

/// The pattern of a table.
fn table_pattern(
    rt: &HostRuntime,
    table: &Table<'_>,
    asked: &CellsRequest,
) -> Result<Vec<u8>, Ending> {
    let values = asked_values(rt.alloc(), table, &asked.field)?;
    let pattern = pattern_of(rt.alloc(), &values, asked)?;
    note_rule(rt, &values, asked);
    Ok(pattern)
}

/// The pattern of a report.
fn report_pattern(
    rt: &HostRuntime,
    asked: &CellsRequest,
    report: &[u8],
) -> Result<Vec<u8>, Ending> {
    let table = table_of(rt.alloc(), name_at(asked.report.as_str()), report)?;
    table_pattern(rt, &table, asked)
}

/// The pattern that is asked for.
fn pattern_for(rt: &HostRuntime, asked: &CellsRequest) -> Result<Vec<u8>, Ending> {
    let report = bytes_at(rt, asked.report.as_str())?;
    report_pattern(rt, asked, &report)
}

/// Prints the pattern that is asked for. The status with which the program ends.
fn put_pattern(rt: &HostRuntime, asked: &CellsRequest) -> Result<u8, Ending> {
    let text = pattern_for(rt, asked)?;
    print_out(rt, &text)
}

/// Prints the states of a report as a pattern of cells. The status with which the program ends.
pub fn print_cells(rt: &HostRuntime, words: &[String]) -> Result<u8, Ending> {
    let asked = asked_by(CellsRequest::parse(rt.alloc(), words))?;
    put_pattern(rt, &asked)
}
