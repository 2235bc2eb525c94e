//! `--window`: a part of a grid.

use app_files::Ending;
use app_table::{Argument, OPTION, Reading, number};
use std::alloc::{AllocError, Global};

pub(crate) const WINDOW: Argument = Argument {
    name: "window",
    value_name: "X,Y,W,H",
    help: "Write the part of the grid alone whose top left corner stands at column X and row Y, counted from 0, and which has W columns and H rows",
    ..OPTION
};

/// `WINDOW`, as it is read.
static WINDOW_ARGUMENT: Argument = WINDOW;

/// A part of a grid.
#[derive(Clone, Copy)]
pub struct Window {
    /// The column and the row of its top left corner, counted from 0.
    pub column: u32,
    pub row: u32,
    /// How many columns and rows it has: one at least.
    pub columns: u32,
    pub rows: u32,
}

impl Window {
    /// The node of a grid of so many columns that stands at a place of this part of it, row by row.
    pub(crate) fn node_at(self, width: u32, place: u32) -> u32 {
        let columns = self.columns.max(1);
        let row = self.row.saturating_add(place / columns);
        let column = self.column.saturating_add(place % columns);
        row.saturating_mul(width).saturating_add(column)
    }
}

/// The part of a grid that a word names.
fn window_of(word: &str) -> Option<Window> {
    let (column, rest) = word.split_once(',')?;
    let (row, rest) = rest.split_once(',')?;
    let (columns, rows) = rest.split_once(',')?;
    Some(Window {
        column: number(column, 0, u32::MAX)?,
        row: number(row, 0, u32::MAX)?,
        columns: number(columns, 1, u32::MAX)?,
        rows: number(rows, 1, u32::MAX)?,
    })
}

/// The part of the grid that is asked for, where one is.
pub(crate) fn window_in(reading: &mut Reading) -> Option<Window> {
    let word = reading.text(&WINDOW_ARGUMENT)?;
    let window = window_of(word.as_str());
    if window.is_none() {
        reading.refuse_as(format!(in reading.alloc();
            "--window: expected X,Y,W,H: the column and the row of the top left corner, from 0, and how many columns and rows, found `{word}`"
        ));
    }
    window
}

/// The ending where a part reaches beyond a grid of so many columns and rows.
fn no_part(alloc: Global, columns: usize, rows: usize) -> Ending {
    Ending::usage(format!(in alloc;
        "--window: the part reaches beyond the grid, which has {columns} columns and {rows} rows"
    ))
}

/// The places from one on, so many, of so many values in all, where there are as many.
fn part_of(values: &[u32], first: usize, count: usize) -> Option<&[u32]> {
    values.get(first..first.checked_add(count)?)
}

/// The values of a row of a part of a grid of so many columns.
fn row_of(values: &[u32], width: usize, window: Window, row: u32) -> Option<&[u32]> {
    let (column, columns) = (window.column as usize, window.columns as usize);
    if column.checked_add(columns)? > width {
        return None;
    }
    let row = (window.row as usize).checked_add(row as usize)?;
    let first = row.checked_mul(width)?.checked_add(column)?;
    part_of(values, first, columns)
}

/// The values of a part of a grid of so many columns, row by row; `None` where it reaches beyond the grid.
fn values_in(
    alloc: Global,
    values: &[u32],
    width: usize,
    window: Window,
) -> Result<Option<Vec<u32>>, AllocError> {
    let mut part = Vec::new(alloc);
    for row in 0..window.rows {
        let Some(cells) = row_of(values, width, window, row) else {
            return Ok(None);
        };
        part.extend_from_slice(cells)?;
    }
    Ok(Some(part))
}

/// The values of a part of a grid of so many columns, one at least, row by row. Refused where it reaches beyond the grid.
pub(crate) fn window_values(
    alloc: Global,
    values: &[u32],
    width: u32,
    window: Window,
) -> Result<Vec<u32>, Ending> {
    let width = width.max(1) as usize;
    match values_in(alloc, values, width, window)? {
        Some(part) => Ok(part),
        None => Err(no_part(alloc, width, values.len() / width)),
    }
}
