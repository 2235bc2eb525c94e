//! The edge that a line says.
ghost use Rattle.std.specs.Prelude.{◌≡◌, IfOk};
ghost use Rattle.std.specs.Option.{option_copied};
ghost use Rattle.import_formats.specs.edges.Edges.{weight_in, edge_in, edge_of};

use crate::edges::columns::edge_parts;
use crate::edges::fault::{EdgeFault, LineFault};
use crate::edges::places::has_gap;
use crate::edges::reader::Reading;
use import_lines::{Edge, Weight, WeightFault, line_text, read_weight};

/// The weight of an edge, 1 times the factor where no word says it.
fn part_weight(word: Option<&str>, factor: Option<u32>) -> Result<Weight, WeightFault>
    ensures { result ≡ weight_in factor (option_copied word.entry) }
{
    match word {
        Some(word) => read_weight(word, factor),
        None => Ok(Weight {
            value: factor.unwrap_or(1),
            exact: true,
        }),
    }
}

/// The edge that a line says.
fn line_edge<'a>(number: u64, line: &'a [u8], reading: &Reading) -> Result<Edge<'a>, LineFault>
    ensures edge { result ≡ edge_in reading.now number line.now }
    ensures line { IfOk result (λ edge. edge.line ≡ number) }
{
    let text = line_text(line).map_err(LineFault::Words)?;
    if !reading.gaps && has_gap(text) {
        return Err(LineFault::EmptyPlace);
    }
    let parts = edge_parts(text, reading.columns)?;
    let weight = part_weight(parts.third, reading.factor).map_err(LineFault::Weight)?;
    Ok(Edge::new(parts.first, parts.second, weight, number))
}

/// The edge that the line of this number says: `a b` or `a b weight`, as `read_edges` reads it; or what is wrong with it,
/// as `BadLine` with its number. It is the fault that comes first in the order of [`LineFault`], of which none is
/// `Heading`.
pub fn read_line<'a>(number: u64, line: &'a [u8], reading: &Reading) -> Result<Edge<'a>, EdgeFault>
    ensures edge { result ≡ edge_of reading.now (number, line.now) }
    ensures line { IfOk result (λ edge. edge.line ≡ number) }
{
    match line_edge(number, line, reading) {
        Ok(edge) => Ok(edge),
        Err(fault) => Err(EdgeFault::BadLine {
            line: number,
            fault,
        }),
    }
}
