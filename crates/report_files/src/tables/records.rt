//! The records of a table.
ghost use Rattle.std.specs.Prelude.{◌≡◌, ◌++◌, ◌∷◌, [], length, map, IfOk, IfErr, OnOk, slice_index_or, true, false};
ghost use Rattle.csv.specs.Records.{fields_of, partial_of};
ghost use Rattle.report_files.specs.tables.Csv.{AreNodes, IsNode, IsRowFault, IsValueFault, cell_of, headings, move_cells, node_cells, value_cells};

use crate::tables::cells::{put_node, put_number};
use crate::tables::{CsvFault, Row, Table};
use csv::ByteRecord;
use net_names::NodeNames;
use std::alloc::{AllocError, Global};

/// What a row is printed with.
#[derive(Drop)]
pub(crate) struct Printing<'a, 't> {
    pub(crate) alloc: Global,
    pub(crate) table: &'a Table<'t>,
    pub(crate) names: &'a NodeNames,
    pub(crate) marks: &'a [bool],
}

/// The headings: `node`, `moves` where the table has them, and the fields.
pub(crate) fn headings_of(alloc: Global, table: &Table<'_>) -> Result<ByteRecord, AllocError>
    ensures cells { IfOk result (λ line. fields_of line ≡ headings table.now) }
{
    let mut line = ByteRecord::new(alloc);
    line.push_field(b"node")?;
    if table.round().is_none() {
        line.push_field(b"moves")?;
    }
    put_names(&mut line, table.fields())?;
    Ok(line)
}

/// Puts the names of fields.
fn put_names(line: &mut ByteRecord, fields: &[&str]) -> Result<(), AllocError>
    requires whole { partial_of line.old ≡ [] }
    ensures cells { OnOk result (fields_of line.new ≡ fields_of line.old ++ map (λ f. f.now) fields.now) }
{
    for field in fields {
        line.push_field(field.as_bytes())?;
    }
    Ok(())
}

/// The value of a field, by its place.
fn word_at(row: &Row, field: usize) -> u32
    ensures { result ≡ slice_index_or row.now.state.words field 0 }
{
    row.state.words.get(field).copied().unwrap_or(0)
}

/// Whether a field holds nodes.
fn is_marked(marks: &[bool], field: usize) -> bool
    ensures { result ≡ slice_index_or marks.now field false }
{
    marks.get(field).copied().unwrap_or(false)
}

/// Puts the value of a node's field.
fn put_value(
    line: &mut ByteRecord,
    by: &Printing<'_, '_>,
    node: u32,
    row: &Row,
    field: usize,
) -> Result<(), CsvFault>
    requires whole { partial_of line.old ≡ [] }
    ensures whole { OnOk result (partial_of line.new ≡ []) }
    ensures cell { OnOk result (fields_of line.new ≡ fields_of line.old ++ cell_of by.now.names.now (slice_index_or by.now.marks.now field false) (slice_index_or row.now.state.words field 0) ∷ []) }
    ensures node { OnOk result (slice_index_or by.now.marks.now field false ≡ true → IsNode by.now.names.now (slice_index_or row.now.state.words field 0)) }
    ensures refused { IfErr result (IsValueFault by.now.names.now by.now.marks.now row.now.state.words node field) }
{
    let value = word_at(row, field);
    if !is_marked(by.marks, field) {
        put_number(by.alloc, line, value)?;
    } else if !put_node(line, by.names, value)? {
        return Err(CsvFault::NoNode { node, field, value });
    }
    Ok(())
}

/// Puts the values of a node's fields.
fn put_values(
    line: &mut ByteRecord,
    by: &Printing<'_, '_>,
    node: u32,
    row: &Row,
) -> Result<(), CsvFault>
    requires whole { partial_of line.old ≡ [] }
    ensures cells { OnOk result (fields_of line.new ≡ fields_of line.old ++ value_cells by.now.names.now by.now.marks.now row.now.state.words (length by.now.table.now.fields)) }
    ensures nodes { OnOk result (AreNodes by.now.names.now by.now.marks.now row.now.state.words (length by.now.table.now.fields)) }
    ensures refused { IfErr result (IsRowFault by.now.names.now by.now.marks.now row.now.state.words (length by.now.table.now.fields) node) }
{
    for field in 0..by.table.fields().len() {
        put_value(line, by, node, row, field)?;
    }
    Ok(())
}

/// The name of a node.
fn name_of(names: &NodeNames, node: u32) -> &str
    ensures { result.now ≡ slice_index_or names.now node [] }
{
    match names.name(node) {
        Some(name) => name,
        None => "",
    }
}

/// Puts the moves of a node, where there are some.
fn put_moves(alloc: Global, line: &mut ByteRecord, moves: Option<u32>) -> Result<(), AllocError>
    requires whole { partial_of line.old ≡ [] }
    ensures whole { OnOk result (partial_of line.new ≡ []) }
    ensures cells { OnOk result (fields_of line.new ≡ fields_of line.old ++ move_cells moves) }
{
    match moves {
        Some(moves) => put_number(alloc, line, moves),
        None => Ok(()),
    }
}

/// The record of a node's row.
pub(crate) fn record_of(by: &Printing<'_, '_>, node: u32, row: &Row) -> Result<ByteRecord, CsvFault>
    ensures cells { IfOk result (λ line. fields_of line ≡ node_cells by.now.names.now by.now.marks.now (length by.now.table.now.fields) node row.now) }
    ensures nodes { OnOk result (AreNodes by.now.names.now by.now.marks.now row.now.state.words (length by.now.table.now.fields)) }
    ensures refused { IfErr result (IsRowFault by.now.names.now by.now.marks.now row.now.state.words (length by.now.table.now.fields) node) }
{
    let mut line = ByteRecord::new(by.alloc);
    line.push_field(name_of(by.names, node).as_bytes())?;
    put_moves(by.alloc, &mut line, row.moves)?;
    put_values(&mut line, by, node, row)?;
    Ok(line)
}
