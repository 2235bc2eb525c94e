//! Tables that are printed with names.
ghost use Rattle.std.specs.Prelude.{◌≡◌, ◌≢◌, ◌++◌, ◌∷◌, [], length, map, Err, Some, IfOk, IfErr, OnOk, slice_get};
ghost use Rattle.std.specs.String.{string_bytes};
ghost use Rattle.csv.specs.Records.{fields_of};
ghost use Rattle.csv.specs.Writing.{default_writer, row_text};
ghost use Rattle.report_files.specs.declared.tables.csv_fault.CsvFault.TheVariants.{NameCount};
ghost use Rattle.report_files.specs.tables.Csv.{AreNodes, AreRowsOfNodes, IsCsv, IsCsvFault, IsRowFault, IsRowsFault, csv_text, node_cells, node_records, records_text};
ghost use Rattle.report_files.specs.tables.Writing.{IsReady, written};

use crate::tables::marks::marks_of;
use crate::tables::records::{Printing, headings_of, record_of};
use crate::tables::{CsvFault, Row, Table};
use csv::{ByteRecord, Writer};
use net_names::NodeNames;
use std::alloc::{AllocError, Global};

/// Writes a record. What refuses it is running out of memory: the text grows in memory alone.
fn write(writer: &mut Writer<Vec<u8>>, line: &ByteRecord) -> Result<(), AllocError>
    requires ready { IsReady writer.old }
    ensures ready { OnOk result (IsReady writer.new) }
    ensures text { OnOk result (written writer.new ≡ written writer.old ++ row_text default_writer (fields_of line.now)) }
{
    match writer.write_byte_record(line) {
        Ok(()) => Ok(()),
        Err(_) => Err(AllocError),
    }
}

/// Writes the record of a node's row.
fn write_row(
    writer: &mut Writer<Vec<u8>>,
    by: &Printing<'_, '_>,
    node: u32,
    row: &Row,
) -> Result<(), CsvFault>
    requires ready { IsReady writer.old }
    ensures ready { OnOk result (IsReady writer.new) }
    ensures text { OnOk result (written writer.new ≡ written writer.old ++ row_text default_writer (node_cells by.now.names.now by.now.marks.now (length by.now.table.now.fields) node row.now)) }
    ensures nodes { OnOk result (AreNodes by.now.names.now by.now.marks.now row.now.state.words (length by.now.table.now.fields)) }
    ensures refused { IfErr result (IsRowFault by.now.names.now by.now.marks.now row.now.state.words (length by.now.table.now.fields) node) }
{
    let line = record_of(by, node, row)?;
    write(writer, &line)?;
    Ok(())
}

/// Writes the records of all rows.
fn write_rows(writer: &mut Writer<Vec<u8>>, by: &Printing<'_, '_>) -> Result<(), CsvFault>
    requires ready { IsReady writer.old }
    requires counted { length by.now.names.now ≡ length by.now.table.now.rows }
    ensures text { OnOk result (written writer.new ≡ written writer.old ++ records_text (node_records by.now.names.now by.now.marks.now (length by.now.table.now.fields) 0 by.now.table.now.rows)) }
    ensures nodes { OnOk result (AreRowsOfNodes by.now.names.now by.now.marks.now (length by.now.table.now.fields) by.now.table.now.rows (length by.now.table.now.rows)) }
    ensures refused { IfErr result (IsRowsFault by.now.names.now by.now.marks.now (length by.now.table.now.fields) by.now.table.now.rows) }
{
    for node in 0..by.names.count() {
        let Some(row) = by.table.rows().get(node as usize) else {
            return Ok(());
        };
        write_row(writer, by, node, row)?;
    }
    Ok(())
}

/// The text of all records.
fn text_of(by: &Printing<'_, '_>) -> Result<Vec<u8>, CsvFault>
    requires counted { length by.now.names.now ≡ length by.now.table.now.rows }
    ensures text { IfOk result (λ v. v.items ≡ csv_text by.now.names.now by.now.marks.now by.now.table.now by.now.table.now.rows) }
    ensures nodes { OnOk result (AreRowsOfNodes by.now.names.now by.now.marks.now (length by.now.table.now.fields) by.now.table.now.rows (length by.now.table.now.rows)) }
    ensures refused { IfErr result (IsRowsFault by.now.names.now by.now.marks.now (length by.now.table.now.fields) by.now.table.now.rows) }
{
    let mut writer = Writer::from_writer(Vec::new(by.alloc));
    let headings = headings_of(by.alloc, by.table)?;
    write(&mut writer, &headings)?;
    write_rows(&mut writer, by)?;
    match writer.into_inner() {
        Ok(text) => Ok(text),
        Err(_) => Err(CsvFault::Memory),
    }
}

/// A report as CSV: a record of headings, `node`, `moves` where it is a replay report, and the fields; then a record
/// for each node: its name, its moves, and its values. A field that is asked to hold nodes has names for its values,
/// too, and an empty cell for 4294967295. Of fields that share a name, as no program has them, the first alone holds
/// nodes.
///
/// The first fault in the order of [`CsvFault`], the first node and then the first field with a value that is no node;
/// `Memory` comes only where memory runs out.
pub fn names_csv(
    alloc: Global,
    table: &Table<'_>,
    names: &NodeNames,
    node_fields: &[String],
) -> Result<Vec<u8>, CsvFault>
    ensures counted { OnOk result (length names.now ≡ length table.now.rows) }
    ensures at_once { length names.now ≢ length table.now.rows → result ≡ Err (NameCount (length names.now) (length table.now.rows)) }
    ensures text { IfOk result (λ v. IsCsv table.now names.now (map string_bytes node_fields.now) v.items) }
    ensures refused { IfErr result (IsCsvFault table.now names.now (map string_bytes node_fields.now)) }
{
    let nodes = table.rows().len();
    if names.count() as usize != nodes {
        return Err(CsvFault::NameCount {
            names: names.count(),
            nodes,
        });
    }
    let marks = marks_of(alloc, table.fields(), node_fields)?;
    text_of(&Printing {
        alloc,
        table,
        names,
        marks: &marks,
    })
}
