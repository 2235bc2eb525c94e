//! The edge that a line says.
ghost use Rattle.std.specs.Prelude.{◌≡◌, ◌≤◌, IfOk};
ghost use Rattle.std.specs.Option.{option_copied};
ghost use Rattle.import_lines.specs.Weights.{is_whole};
ghost use Rattle.large_pack.specs.Lines.{most_node, node_of, end_in, weight_in, edge_in, turned, edge_of};

use crate::fault::{End, LineFault, NodeFault, PackFault};
use crate::options::PackOptions;
use import_lines::{WeightFault, all_digits, line_parts, line_text, read_weight};

/// The greatest number of a node.
const MOST_NODE: u32 = 4_294_967_294;

/// An edge of a text: the numbers of its two ends, its weight, and the line where it stands, counted from 1.
#[derive(Clone, Copy, Debug, PartialEq, Eq)]
pub struct EdgeLine {
    pub first: u32,
    pub second: u32,
    pub weight: u32,
    pub line: u64,
}

/// Whether the bytes are a whole number: digits alone, one or more.
fn is_whole(bytes: &[u8]) -> bool
    ensures { result ≡ is_whole bytes.now }
{
    !bytes.is_empty() && all_digits(bytes)
}

/// The number of the node that a word says.
fn read_node(word: &str) -> Result<u32, NodeFault>
    ensures node { result ≡ node_of word.now }
    ensures small { IfOk result (λ node. node ≤ most_node) }
{
    if !is_whole(word.as_bytes()) {
        return Err(NodeFault::BadNode);
    }
    let Ok(node) = word.parse::<u32>() else {
        return Err(NodeFault::NodeTooLarge);
    };
    if node > MOST_NODE {
        return Err(NodeFault::NodeTooLarge);
    }
    Ok(node)
}

/// The number of the node at an end.
fn end_node(end: End, word: &str) -> Result<u32, LineFault>
    ensures node { result ≡ end_in end word.now }
    ensures small { IfOk result (λ node. node ≤ most_node) }
{
    match read_node(word) {
        Ok(node) => Ok(node),
        Err(fault) => Err(LineFault::Node { end, fault }),
    }
}

/// The weight of an edge, 1 times the factor where no word says it.
fn part_weight(word: Option<&str>, factor: Option<u32>) -> Result<u32, WeightFault>
    ensures { result ≡ weight_in factor (option_copied word.entry) }
{
    match word {
        Some(word) => match read_weight(word, factor) {
            Ok(weight) => Ok(weight.value),
            Err(fault) => Err(fault),
        },
        None => Ok(factor.unwrap_or(1)),
    }
}

/// The edge that a line says: two nodes, each a whole number from 0 to 4,294,967,294 in decimal digits, and a weight or
/// none, parted by blanks, tabs or commas.
///
/// Without a factor a weight is a whole number up to 4,294,967,295 in decimal digits. With one it is any number, whole
/// or decimal: the weight, the 1 of an edge without one too, is multiplied by the factor and rounded to the nearest
/// whole number, the greater one where two are as near.
pub fn line_edge(number: u64, line: &[u8], factor: Option<u32>) -> Result<EdgeLine, LineFault>
    ensures edge { result ≡ edge_in factor number line.now }
    ensures first { IfOk result (λ edge. edge.first ≤ most_node) }
    ensures second { IfOk result (λ edge. edge.second ≤ most_node) }
{
    let text = line_text(line).map_err(LineFault::Words)?;
    let parts = line_parts(text).map_err(LineFault::Words)?;
    let first = end_node(End::First, parts.first)?;
    let second = end_node(End::Second, parts.second)?;
    let weight = part_weight(parts.third, factor).map_err(LineFault::Weight)?;
    Ok(EdgeLine {
        first,
        second,
        weight,
        line: number,
    })
}

/// The edge, or where edges are turned round the one from its second end to its first.
fn turned(edge: EdgeLine, reverse: bool) -> EdgeLine
    ensures { result ≡ turned reverse edge }
{
    if reverse {
        return EdgeLine {
            first: edge.second,
            second: edge.first,
            ..edge
        };
    }
    edge
}

/// The edge that a line says, turned round where that is asked, or its fault with its number.
pub(crate) fn read_line(
    number: u64,
    line: &[u8],
    options: &PackOptions,
) -> Result<EdgeLine, PackFault>
    ensures edge { result ≡ edge_of options.now (number, line.now) }
    ensures first { IfOk result (λ edge. edge.first ≤ most_node) }
    ensures second { IfOk result (λ edge. edge.second ≤ most_node) }
{
    match line_edge(number, line, options.factor) {
        Ok(edge) => Ok(turned(edge, options.reverse)),
        Err(fault) => Err(PackFault::BadLine {
            line: number,
            fault,
        }),
    }
}
