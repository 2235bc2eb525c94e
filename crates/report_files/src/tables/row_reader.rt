//! Rows that are read where the names of the fields are known.
ghost use Rattle.std.specs.Prelude.{◌≡◌, ◌≤◌, ◌<◌, length, map, true};
ghost use Rattle.std.specs.Option.{option_map};
ghost use Rattle.report_text.specs.Front.{IsFront, Ends, Anything};
ghost use Rattle.report_files.specs.tables.Tables.{IsRow, row_text, row_line};

use crate::tables::row::Row;
use report_text::{behind, read_number, read_state};

/// The row of a line with moves, after the node's number.
fn read_moved<'a>(fields: &[&str], bytes: &'a [u8]) -> Option<(Row, &'a [u8])>
    requires few { length fields.now ≤ 8 }
    ensures front { IsFront (row_text (map (λ f. f.now) fields.now)) (IsRow (length fields.now) true) Anything bytes.now (option_map (λ x. (x.0, x.1.now)) result) }
{
    let number = behind(b" moves ", bytes)?;
    let (moves, values) = read_number(number)?;
    let (state, more) = read_state(fields, values)?;
    Some((
        Row {
            moves: Some(moves),
            state,
        },
        more,
    ))
}

/// The row of a line, after the node's number.
fn read_behind_number<'a>(
    fields: &[&str],
    counted: bool,
    bytes: &'a [u8],
) -> Option<(Row, &'a [u8])>
    requires few { length fields.now ≤ 8 }
    requires ends { Ends bytes.now }
    ensures front { IsFront (row_text (map (λ f. f.now) fields.now)) (IsRow (length fields.now) counted) Anything bytes.now (option_map (λ x. (x.0, x.1.now)) result) }
{
    if counted {
        return read_moved(fields, bytes);
    }
    let (state, more) = read_state(fields, bytes)?;
    Some((Row { moves: None, state }, more))
}

/// The row of the line of a node, and what stands after the line.
pub(crate) fn read_row<'a>(
    fields: &[&str],
    counted: bool,
    node: u32,
    bytes: &'a [u8],
) -> Option<(Row, &'a [u8])>
    requires few { length fields.now ≤ 8 }
    ensures front { IsFront (row_line (map (λ f. f.now) fields.now) node) (IsRow (length fields.now) counted) Anything bytes.now (option_map (λ x. (x.0, x.1.now)) result) }
{
    let (number, rest) = read_number(bytes)?;
    if number != node {
        return None;
    }
    read_behind_number(fields, counted, rest)
}
