//! Tables that are read.
ghost use Rattle.std.specs.Prelude.{◌≡◌, ◌≤◌, ◌<◌, ◌++◌, ◌^◌, ℕ, List, All, Bool, length, map, IfOk, IfErr, Some, None};
ghost use Rattle.std.specs.Option.{option_map};
ghost use Rattle.link_net.specs.Limits.{most_rows};
ghost use Rattle.report_text.specs.Front.{IsFront, Anything};
ghost use Rattle.report_text.specs.Report.{round_line};
ghost use Rattle.report_files.specs.declared.tables.fault.TableFault.TheVariants.{Memory};
ghost use Rattle.report_files.specs.tables.Tables.{TableView, IsTable, IsRow, HasTable, row_lines, is_counted};
ghost use Rattle.report_files.specs.tables.Stops.{IsStopped, AreRefused, round_lines};
ghost use Rattle.report_files.specs.tables.Refusals.{IsRefused};

use crate::tables::fault::TableFault;
use crate::tables::first_line::first_names;
use crate::tables::row::Row;
use crate::tables::row_reader::read_row;
use crate::tables::table::Table;
use report_text::read_round;
use std::alloc::Global;

/// The rows of the lines of all nodes; so many lines stand before them.
fn read_rows(
    alloc: Global,
    fields: &[&str],
    counted: bool,
    before: u32,
    lines: &[u8],
) -> Result<Vec<Row>, TableFault>
    requires few { length fields.now ≤ 8 }
    ensures text { IfOk result (λ v. lines.now ≡ row_lines (map (λ f. f.now) fields.now) 0 v.items) }
    ensures some { IfOk result (λ v. 1 ≤ length v.items) }
    ensures few { IfOk result (λ v. length v.items ≤ most_rows) }
    ensures rows { IfOk result (λ v. All (IsRow (length fields.now) counted) v.items) }
    ensures refused { IfErr result (IsStopped (map (λ f. f.now) fields.now) counted before lines.now) }
{
    let mut rows = Vec::new(alloc);
    let mut rest = lines;
    for node in 0..u32::MAX {
        let Some((row, more)) = read_row(fields, counted, node, rest) else {
            return Err(TableFault::BadLine {
                line: before as u64 + (node as u64 + 1),
            });
        };
        rows.push(row)?;
        rest = more;
        if rest.is_empty() {
            return Ok(rows);
        }
    }
    Err(TableFault::TooManyNodes {
        line: before as u64 + (u32::MAX as u64 + 1),
    })
}

/// Whether the moves are counted: where there is no round.
fn is_counted(round: Option<u32>) -> bool
    ensures { result ≡ is_counted round }
{
    match round {
        Some(_) => false,
        None => true,
    }
}

/// How many lines the round has.
fn round_lines(round: Option<u32>) -> u32
    ensures { result ≡ round_lines round }
{
    match round {
        Some(_) => 1,
        None => 0,
    }
}

/// The table of the lines after that of the round, which a replay report has not.
fn read_lines<'a>(
    alloc: Global,
    round: Option<u32>,
    lines: &'a [u8],
) -> Result<Table<'a>, TableFault>
    ensures table { IfOk result (λ t. IsTable t × (t.round ≡ round) × (lines.now ≡ row_lines t.fields 0 t.rows)) }
    ensures one { (t : TableView) → IsTable t → t.round ≡ round → lines.now ≡ row_lines t.fields 0 t.rows → IfOk result (λ x. x ≡ t) }
    ensures only { (t : TableView) → IsTable t → t.round ≡ round → lines.now ≡ row_lines t.fields 0 t.rows → IfErr result (λ fault. fault ≡ Memory) }
    ensures refused { IfErr result (AreRefused round lines.now) }
{
    let counted = is_counted(round);
    let before = round_lines(round);
    let fields = first_names(alloc, counted, lines)?;
    let rows = read_rows(alloc, &fields, counted, before, lines)?;
    Ok(Table::new(round, fields, rows))
}

/// The table whose text the bytes are, a report's or a replay report's. A table has one text alone: no leading zeros,
/// single spaces, the same names of fields in the same order on each line, and LF at each line's end.
///
/// `BadLine` comes where the text has no table, and names the first line that can't stand after those before it, or
/// the first that is missing; `TooManyNodes` where more stands after the lines of 4,294,967,295 nodes. `Memory` comes
/// only where memory runs out.
pub fn read_table<'a>(alloc: Global, bytes: &'a [u8]) -> Result<Table<'a>, TableFault>
    ensures table { IfOk result (λ table. HasTable bytes.now table) }
    ensures one { (t : TableView) → HasTable bytes.now t → IfOk result (λ table. table ≡ t) }
    ensures only { (t : TableView) → HasTable bytes.now t → IfErr result (λ fault. fault ≡ Memory) }
    ensures refused { IfErr result (IsRefused bytes.now) }
{
    match read_round(bytes) {
        Some((round, lines)) => read_lines(alloc, Some(round), lines),
        None => read_lines(alloc, None, bytes),
    }
}
