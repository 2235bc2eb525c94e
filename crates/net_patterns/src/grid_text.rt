//! The values of a grid's nodes, written as a pattern.
ghost use Rattle.std.specs.Prelude.{◌≡◌, ◌≢◌, ◌≤◌, true, length, nat_le, IfOk, IfErr, Ok, Err};
ghost use Rattle.std.specs.List.{list_all};
ghost use Rattle.std.specs.Option.{option_map};
ghost use Rattle.net_patterns.specs.declared.grid_text.ValueFault.TheVariants.{Memory};
ghost use Rattle.net_patterns.specs.OnGrids.{first_above, grid_cells, grid_text, kind_of, most_of, rows_filled, too_great, written_grid};
ghost use Rattle.net_patterns.specs.Texts.{IsPattern};

use crate::spelling::{Kind, PatternFormat, put_opening};
use crate::writer::Writer;
use std::alloc::{AllocError, Global};
use thiserror::Error;

/// Why values are no pattern. Where several hold, the first in this order.
#[derive(Clone, Copy, Debug, PartialEq, Eq, Error)]
pub enum ValueFault {
    /// There are more than 65,536 values.
    #[error("TooMany")]
    TooMany,
    /// The first node whose value is greater than the greatest state: 255 in runs, 1 in rows.
    #[error("node {node}: TooGreat")]
    TooGreat { node: u32, value: u32 },
    /// Memory ran out; nothing else is at fault.
    #[error("Memory")]
    Memory,
}

impl From<AllocError> for ValueFault {
    ghost from_gives = { λ _ e. e ≡ Memory };

    fn from(_error: AllocError) -> ValueFault {
        ValueFault::Memory
    }
}

/// The greatest number of values.
const MOST_VALUES: usize = 65536;

/// The greatest state that a format writes.
fn most_of(format: PatternFormat) -> u32
    ensures { result ≡ most_of format }
{
    match format {
        PatternFormat::Runs => 255,
        PatternFormat::Rows => 1,
    }
}

/// The fault of the first node whose value is greater, where one is.
fn first_above(values: &[u32], most: u32) -> Option<ValueFault>
    requires nodes { length values.now ≤ 65536 }
    ensures { result ≡ option_map too_great (first_above most 0 values.now) }
{
    for (node, value) in values.iter().enumerate() {
        if *value > most {
            return Some(ValueFault::TooGreat {
                node: node as u32,
                value: *value,
            });
        }
    }
    None
}

/// Whether no value is above 1.
fn are_of_two(values: &[u32]) -> bool
    ensures { result ≡ list_all (λ v. nat_le v 1) values.now }
{
    for value in values {
        if *value > 1 {
            return false;
        }
    }
    true
}

/// The kind of text of values.
fn kind_of(format: PatternFormat, values: &[u32]) -> Kind
    ensures { result ≡ kind_of format values.now }
{
    match format {
        PatternFormat::Runs if are_of_two(values) => Kind::TwoStates,
        PatternFormat::Runs => Kind::ManyStates,
        PatternFormat::Rows => Kind::Plain,
    }
}

/// How many rows so many values fill.
fn rows_filled(width: u32, count: u32) -> u32
    requires width { 1 ≤ width }
    ensures { result ≡ rows_filled width count }
{
    count.div_ceil(width)
}

/// The text of values none of which is too great.
fn text_of(
    alloc: Global,
    format: PatternFormat,
    width: u32,
    values: &[u32],
) -> Result<Vec<u8>, AllocError>
    requires width { 1 ≤ width }
    requires nodes { length values.now ≤ 65536 }
    requires states { list_all (λ v. nat_le v 255) values.now ≡ true }
    ensures text { IfOk result (λ text. text.items ≡ grid_text format width values.now) }
{
    let kind = kind_of(format, values);
    let mut writer = Writer {
        out: String::new(alloc),
        kind,
        column: 0,
        row: 0,
    };
    let height = rows_filled(width, values.len() as u32);
    put_opening(&mut writer.out, kind, width, height)?;
    writer.put_cells(values, width)?;
    Ok(writer.out.into_bytes())
}

/// The values of the nodes of a grid of this width as a pattern: a value of 0 is a dead cell, and another a live one of
/// that state. Live cells of one state side by side in a row are one run.
///
/// Runs stand after the header `x = WIDTH, y = HEIGHT`, in lines of their rows; they are of two states, `b` and `o`,
/// where no value is above 1, else `.` and letters. Rows stand after a comment that says how many columns and rows
/// there are.
///
/// `TooMany` comes where there are more than 65,536 values, and else `TooGreat` names the first node whose value is no
/// state: above 255 in runs, above 1 in rows. `Memory` comes only where memory runs out and nothing else is at fault.
///
/// What is written is read back: it is the text of a pattern whose live cells are those of the values.
pub fn grid_pattern(
    alloc: Global,
    values: &[u32],
    width: u32,
    format: PatternFormat,
) -> Result<Vec<u8>, ValueFault>
    requires width { 1 ≤ width }
    ensures text { IfOk result (λ text. written_grid format width values.now ≡ Ok text.items) }
    ensures fault { IfErr result (λ fault. fault ≢ Memory → written_grid format width values.now ≡ Err fault) }
    ensures refused { IfErr (written_grid format width values.now) (λ fault. result ≡ Err fault) }
    ensures reads_back { IfOk result (λ text. IsPattern text.items (Ok (grid_cells width 0 values.now))) }
{
    if values.len() > MOST_VALUES {
        return Err(ValueFault::TooMany);
    }
    if let Some(fault) = first_above(values, most_of(format)) {
        return Err(fault);
    }
    let text = text_of(alloc, format, width, values)?;
    Ok(text)
}
