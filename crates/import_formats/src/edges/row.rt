//! The edge that a row says.
ghost use Rattle.std.specs.Prelude.{◌≡◌, IfOk};
ghost use Rattle.std.specs.Option.{option_copied};
ghost use Rattle.csv.specs.Records.{fields_of};
ghost use Rattle.import_formats.specs.edges.Tables.{weight_in, edge_in, edge_of, unsaid, word_weight};

use crate::edges::row_fault::{RowFault, TableFault};
use crate::edges::row_parts::{field_parts, is_unclosed};
use crate::edges::row_reader::TableReading;
use csv::ByteRecord;
use import_lines::{Edge, Weight, line_text, read_weight};

/// A row of a table: the number of its line, counted from 1, and its fields.
#[derive(Drop)]
pub struct Row {
    pub line: u64,
    pub fields: ByteRecord,
}

/// The weight where none is said: 1 times the factor.
fn unsaid_weight(factor: Option<u32>) -> Weight
    ensures { result ≡ unsaid factor }
{
    Weight {
        value: factor.unwrap_or(1),
        exact: true,
    }
}

/// The weight that a field says.
fn word_weight(field: &[u8], factor: Option<u32>) -> Result<Weight, RowFault>
    ensures { result ≡ word_weight factor field.now }
{
    let word = line_text(field).map_err(RowFault::Words)?;
    match read_weight(word, factor) {
        Ok(weight) => Ok(weight),
        Err(fault) => Err(RowFault::Weight(fault)),
    }
}

/// The weight of an edge: 1 times the factor where there is no field for it, or an empty one.
fn field_weight(field: Option<&[u8]>, factor: Option<u32>) -> Result<Weight, RowFault>
    ensures { result ≡ weight_in factor (option_copied field.entry) }
{
    match field {
        None => Ok(unsaid_weight(factor)),
        Some([]) => Ok(unsaid_weight(factor)),
        Some(field) => word_weight(field, factor),
    }
}

/// The edge that the fields of a line say.
fn fields_edge<'a>(
    line: u64,
    fields: &'a ByteRecord,
    reading: &TableReading,
) -> Result<Edge<'a>, RowFault>
    ensures { result ≡ edge_in reading.now line (fields_of fields.now) }
{
    if is_unclosed(fields) {
        return Err(RowFault::UnclosedQuote);
    }
    let parts = field_parts(fields, reading.columns)?;
    let first = line_text(parts.first).map_err(RowFault::Words)?;
    let second = line_text(parts.second).map_err(RowFault::Words)?;
    let weight = field_weight(parts.third, reading.factor)?;
    Ok(Edge::new(first, second, weight, line))
}

/// The edge that a row says: its first two fields are the ends, as they stand, and the third, where there is one that is
/// not empty, is the weight, as [`read_weight`] reads it; where columns are named, the fields in these. Else what is wrong
/// with it, as `BadRow` with its line. It is the fault that comes first in the order of [`RowFault`], of which none is
/// `Heading`.
pub fn row_edge<'a>(row: &'a Row, reading: &TableReading) -> Result<Edge<'a>, TableFault>
    ensures { result ≡ edge_of reading.now (row.now.line, fields_of row.now.fields) }
{
    match fields_edge(row.line, &row.fields, reading) {
        Ok(edge) => Ok(edge),
        Err(fault) => Err(TableFault::BadRow {
            line: row.line,
            fault,
        }),
    }
}
