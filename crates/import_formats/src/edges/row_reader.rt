//! Tables that are read.
ghost use Rattle.std.specs.Prelude.{◌≡◌, map, slice_get, option_map, IfOk, IfErr, Ok, Err};
ghost use Rattle.std.specs.Option.{unwrap_or};
ghost use Rattle.std.specs.Result.{result_err};
ghost use Rattle.import_formats.specs.declared.edges.row_fault.TableFault.TheVariants.{Memory};
ghost use Rattle.csv.specs.Records.{fields_of};
ghost use Rattle.import_lines.specs.Weights.{is_whole};
ghost use Rattle.import_formats.specs.edges.Headings.{are_names, are_numbers, heading_in};
ghost use Rattle.import_formats.specs.edges.Edges.{unsaid_heading};
ghost use Rattle.import_formats.specs.edges.Tables.{IsAnswer, edges_in, row_edges, rows_of};
ghost use Rattle.import_formats.specs.edges.View.{row_of};

use crate::edges::row::{Row, row_edge};
use crate::edges::row_fault::{RowFault, TableFault};
use crate::edges::row_fields::{Separator, fields_in};
use crate::edges::row_parts::field_in;
use crate::edges::{Columns, edge_lines, is_whole};
use csv::ByteRecord;
use import_lines::Edge;
use std::alloc::{AllocError, Global};

/// How a table is read.
#[derive(Clone, Copy)]
pub struct TableReading {
    /// What parts the fields of a line.
    pub separator: Separator,
    /// Whether the first line that says something is a header. A header is passed over, whatever stands in it.
    pub header: bool,
    /// Which fields of a line are meant, where that is said. None: all, of which there are two or three.
    pub columns: Option<Columns>,
    /// What each weight is multiplied by, and whether decimal ones are taken, as of a list of edges.
    pub factor: Option<u32>,
}

/// The rows of a table: the lines that say something, but for the first of them where it is a header, each with its
/// number and its fields.
///
/// A line ends at LF or at the end of the text; a CR before that is none of it, and a byte order mark at a line's front
/// neither. As in a list of edges, a line is passed over in which nothing but blanks, tabs, commas and CRs stands, or
/// where the first byte that is none of these is `#` or `%`. Fields are parted as [`Separator`] says, and taken as they
/// stand, with each blank.
pub fn read_rows(alloc: Global, text: &[u8], reading: &TableReading) -> Result<Vec<Row>, AllocError>
    ensures rows { IfOk result (λ rows. map row_of rows.items ≡ rows_of reading.now.separator reading.now.header text.now) }
{
    let separator = reading.separator;
    let mut lines = edge_lines(text, reading.header);
    let mut rows = Vec::new(alloc);
    while let Some((number, line)) = lines.next_told() {
        let fields = fields_in(alloc, separator, line)?;
        rows.push(Row {
            line: number,
            fields,
        })?;
    }
    Ok(rows)
}

/// The edges of rows.
fn collect<'a>(
    alloc: Global,
    rows: &'a [Row],
    reading: &TableReading,
) -> Result<Vec<Edge<'a>>, TableFault>
    ensures { IfOk result (λ edges. edges_in reading.now (map row_of rows.now) ≡ Ok edges.items) }
{
    let mut edges = Vec::with_capacity(alloc, rows.len())?;
    for row in rows {
        let edge = row_edge(row, reading)?;
        edges.push(edge)?;
    }
    Ok(edges)
}

/// The fault of the first row that is bad; `Memory` where none is.
fn first_fault(rows: &[Row], reading: &TableReading) -> TableFault
    ensures { result ≡ unwrap_or (result_err (edges_in reading.now (map row_of rows.now))) Memory }
{
    for row in rows {
        if let Err(fault) = row_edge(row, reading) {
            return fault;
        }
    }
    TableFault::Memory
}

/// Whether the field in a column is a whole number, where there is such a column.
fn is_number_at(fields: &ByteRecord, column: usize) -> Option<bool>
    ensures { result ≡ option_map is_whole (slice_get (fields_of fields.now) column) }
{
    match field_in(fields, column) {
        Some(field) => Some(is_whole(field)),
        None => None,
    }
}

/// Whether there are two fields, neither of which is a whole number, in front.
fn are_names(fields: &ByteRecord) -> bool
    ensures { result ≡ are_names (fields_of fields.now) }
{
    matches!(
        (is_number_at(fields, 0), is_number_at(fields, 1)),
        (Some(false), Some(false))
    )
}

/// Whether there are two fields, both of which are whole numbers, in front.
fn are_numbers(fields: &ByteRecord) -> bool
    ensures { result ≡ are_numbers (fields_of fields.now) }
{
    matches!(
        (is_number_at(fields, 0), is_number_at(fields, 1)),
        (Some(true), Some(true))
    )
}

/// The line of the first row, where it looks like headings: neither of its first two fields is a whole number, and both of
/// the row's after it are.
fn heading_line(rows: &[Row]) -> Option<u64>
    ensures { result ≡ heading_in (map row_of rows.now) }
{
    match rows {
        [first, second, ..] if are_names(&first.fields) && are_numbers(&second.fields) => Some(
            first.line,
        ),
        _ => None,
    }
}

/// The line of the first row, where it looks like headings and nothing says that it is after them, or which columns are
/// meant.
fn unsaid_heading(rows: &[Row], reading: &TableReading) -> Option<u64>
    ensures { result ≡ unsaid_heading reading.now.header reading.now.columns (map row_of rows.now) }
{
    if reading.header || reading.columns.is_some() {
        return None;
    }
    heading_line(rows)
}

/// The edges of rows, in their order, as [`row_edge`] reads them. `BadRow` names the first row where it looks like
/// headings, and neither a header nor columns are said; else the first row that says no edge; and what is wrong with it,
/// also where memory runs out before that row. `Memory` comes only where memory runs out.
pub fn row_edges<'a>(
    alloc: Global,
    rows: &'a [Row],
    reading: &TableReading,
) -> Result<Vec<Edge<'a>>, TableFault>
    ensures answer { IsAnswer (λ edges. edges.items) (row_edges reading.now (map row_of rows.now)) result }
    ensures refused { IfErr (row_edges reading.now (map row_of rows.now)) (λ fault. result ≡ Err fault) }
{
    if let Some(line) = unsaid_heading(rows, reading) {
        return Err(TableFault::BadRow {
            line,
            fault: RowFault::Heading,
        });
    }
    match collect(alloc, rows, reading) {
        Ok(edges) => Ok(edges),
        Err(_) => Err(first_fault(rows, reading)),
    }
}
