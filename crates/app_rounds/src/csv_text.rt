//! `csv REPORT --names FILE`: a report as CSV, with names in place of numbers.

use crate::csv_request::CsvRequest;
use app_commands::{asked_by, names_from, told_text};
use app_files::{Ending, Told, bytes_at, name_at, print_out, read_once};
use net_names::NodeNames;
use report_files::tables::{CsvFault, Table, TableFault, names_csv, read_table};
use std::alloc::{AllocError, Global};

/// What is told of a text that is no report.
fn table_told(fault: TableFault) -> Told {
    match fault {
        TableFault::BadLine { line } => (
            Some(line),
            "BadLine",
            "no line of a report stands here, as lockstep, run and replay print them",
        ),
        TableFault::TooManyNodes { line } => (
            Some(line),
            "TooManyNodes",
            "a report has at most 4294967295 nodes",
        ),
        TableFault::Memory => (None, "Memory", ""),
    }
}

/// The ending where the text of this name is no report.
fn no_table(alloc: Global, name: &str, fault: TableFault) -> Ending {
    Ending::refused(told_text(alloc, "report", name, table_told(fault)))
}

/// The table of a report's text.
pub(crate) fn table_of<'a>(alloc: Global, name: &str, text: &'a [u8]) -> Result<Table<'a>, Ending> {
    match read_table(alloc, text) {
        Ok(table) => Ok(table),
        Err(fault) => Err(no_table(alloc, name, fault)),
    }
}

/// The field at a place of the words of `--node-field`.
fn asked_field(asked: &CsvRequest, place: usize) -> &str {
    match asked.node_fields.get(place) {
        Some(field) => field.as_str(),
        None => "",
    }
}

/// The field at a place of a table.
fn table_field<'a>(table: &Table<'a>, place: usize) -> &'a str {
    match table.fields().get(place) {
        Some(field) => *field,
        None => "",
    }
}

/// What is told where a table is not printed with names.
fn csv_fault_text(
    alloc: Global,
    table: &Table<'_>,
    asked: &CsvRequest,
    fault: CsvFault,
) -> Result<String, AllocError> {
    match fault {
        CsvFault::NameCount { names, nodes } => format!(in alloc;
            "--names: the file has {names} names, and the report {nodes} nodes"
        ),
        CsvFault::UnknownField { place } => {
            let field = asked_field(asked, place);
            format!(in alloc; "--node-field: the report has no field `{field}`")
        }
        CsvFault::NoNode { node, field, value } => {
            let field = table_field(table, field);
            format!(in alloc;
                "--node-field {field}: node {node} has the value {value}, which is no node's number, and not 4294967295 for none"
            )
        }
        CsvFault::Memory => Err(AllocError),
    }
}

/// The ending where a table is not printed with names.
fn no_csv(alloc: Global, table: &Table<'_>, asked: &CsvRequest, fault: CsvFault) -> Ending {
    Ending::usage(csv_fault_text(alloc, table, asked, fault))
}

/// The CSV of a table with names.
fn csv_of(
    alloc: Global,
    table: &Table<'_>,
    names: &NodeNames,
    asked: &CsvRequest,
) -> Result<Vec<u8>, Ending> {
    match names_csv(alloc, table, names, asked.node_fields.as_slice()) {
        Ok(text) => Ok(text),
        Err(fault) => Err(no_csv(alloc, table, asked, fault)),
    }
}

/// The CSV of a table.
fn named_csv(rt: &HostRuntime, asked: &CsvRequest, table: &Table<'_>) -> Result<Vec<u8>, Ending> {
    let names = names_from(rt, asked.names.as_str())?;
    csv_of(rt.alloc(), table, &names, asked)
}

/// The CSV of a report.
fn csv_for(rt: &HostRuntime, asked: &CsvRequest, report: &[u8]) -> Result<Vec<u8>, Ending> {
    let table = table_of(rt.alloc(), name_at(asked.report.as_str()), report)?;
    named_csv(rt, asked, &table)
}

/// The CSV that is asked for.
fn text_for(rt: &HostRuntime, asked: &CsvRequest) -> Result<Vec<u8>, Ending> {
    let report = bytes_at(rt, asked.report.as_str())?;
    csv_for(rt, asked, &report)
}

/// Prints the CSV that is asked for. The status with which the program ends.
fn put_csv(rt: &HostRuntime, asked: &CsvRequest) -> Result<u8, Ending> {
    read_once(rt.alloc(), &[asked.report.as_str(), asked.names.as_str()])?;
    let text = text_for(rt, asked)?;
    print_out(rt, &text)
}

/// Prints a report as CSV. The status with which the program ends.
pub fn print_csv(rt: &HostRuntime, words: &[String]) -> Result<u8, Ending> {
    let asked = asked_by(CsvRequest::parse(rt.alloc(), words))?;
    put_csv(rt, &asked)
}
