//! Lists of edges that are read.
ghost use Rattle.std.specs.Prelude.{◌≡◌, ◌+◌, ◌<◌, ◌^◌, length, map, IfOk, IfErr, Ok, Err};
ghost use Rattle.std.specs.Option.{unwrap_or};
ghost use Rattle.std.specs.Result.{result_err};
ghost use Rattle.import_formats.specs.declared.edges.fault.EdgeFault.TheVariants.{Memory};
ghost use Rattle.import_lines.specs.Texts.{edge_lines, told_from};
ghost use Rattle.import_formats.specs.edges.Headings.{words_in};
ghost use Rattle.import_formats.specs.edges.Edges.{IsAnswer, edges_in, edges_of, unsaid_heading};

use crate::edges::columns::Columns;
use crate::edges::fault::{EdgeFault, LineFault};
use crate::edges::heading::heading_line;
use crate::edges::line_edge::read_line;
use import_lines::{Edge, Lines, edge_lines};
use std::alloc::Global;

/// How a text is read.
#[derive(Clone, Copy, Default)]
pub struct Reading {
    /// Whether the first line that says something is a header. A header is passed over, whatever stands in it.
    pub header: bool,
    /// Which words of a line are meant, where that is said. None: all, of which there are two or three.
    pub columns: Option<Columns>,
    /// Whether places between commas may be empty: any number of blanks, tabs and commas part two words.
    pub gaps: bool,
    /// What each weight is multiplied by, and whether decimal ones are taken. None: a weight is a whole number. Some: it
    /// is any number, times this, rounded to the nearest whole number.
    pub factor: Option<u32>,
}

/// The edges of the lines that are left.
fn collect<'a>(
    alloc: Global,
    from: Lines<'a>,
    reading: &Reading,
) -> Result<Vec<Edge<'a>>, EdgeFault>
    requires room { from.passed + length from.bytes.now < 2 ^ 64 }
    ensures { IfOk result (λ v. edges_in reading.now (told_from (from.entry.passed + 1) from.entry.bytes.now) ≡ Ok v.items) }
{
    let mut lines = from;
    let mut edges = Vec::new(alloc);
    while let Some((number, line)) = lines.next_told() {
        let edge = read_line(number, line, reading)?;
        edges.push(edge)?;
    }
    Ok(edges)
}

/// The fault of the first line that is bad, of those that are left; `Memory` where none is.
fn first_fault(from: Lines<'_>, reading: &Reading) -> EdgeFault
    requires room { from.passed + length from.bytes.now < 2 ^ 64 }
    ensures { result ≡ unwrap_or (result_err (edges_in reading.now (told_from (from.entry.passed + 1) from.entry.bytes.now))) Memory }
{
    let mut lines = from;
    while let Some((number, line)) = lines.next_told() {
        if let Err(fault) = read_line(number, line, reading) {
            return fault;
        }
    }
    EdgeFault::Memory
}

/// The number of the first line of a text, where it looks like headings and nothing says that it is one, or which columns
/// are meant.
fn unsaid_heading(text: &[u8], reading: &Reading) -> Option<u64>
    ensures { result ≡ unsaid_heading reading.now.header reading.now.columns (map words_in (edge_lines reading.now.header text.now)) }
{
    if reading.header || reading.columns.is_some() {
        return None;
    }
    heading_line(edge_lines(text, reading.header))
}

/// The edges of a text, in the order of their lines: `a b` or `a b weight` in each, parted by blanks, tabs or commas.
///
/// A line without words, or whose first word begins with `#` or `%`, is passed over, whatever bytes stand in it and
/// however long it is. Other lines say an edge: the names of its two ends, which may be any words, and its weight, or 1
/// where no weight stands there. A line ends at LF or at the end of the text; a CR is taken as a blank. Where columns are
/// named, their words are the ends and the weight, and others are passed over.
///
/// Without a factor a weight is a whole number up to 4,294,967,295 in decimal digits. With one it is any number, whole
/// or decimal: each weight, the 1 of an edge without one too, is multiplied by the factor and rounded to the nearest
/// whole number, the greater one where two are as near, and each edge tells whether its weight is exact.
///
/// `BadLine` names the first line where it looks like headings, and neither a header nor columns are said; else the first
/// line that says no edge; and what is wrong with it, also where memory runs out before that line. `Memory` comes only
/// where memory runs out.
pub fn read_edges<'a>(
    alloc: Global,
    text: &'a [u8],
    reading: &Reading,
) -> Result<Vec<Edge<'a>>, EdgeFault>
    ensures answer { IsAnswer (λ v. v.items) (edges_of reading.now text.now) result }
    ensures refused { IfErr (edges_of reading.now text.now) (λ fault. result ≡ Err fault) }
{
    if let Some(line) = unsaid_heading(text, reading) {
        return Err(EdgeFault::BadLine {
            line,
            fault: LineFault::Heading,
        });
    }
    match collect(alloc, edge_lines(text, reading.header), reading) {
        Ok(edges) => Ok(edges),
        Err(_) => Err(first_fault(edge_lines(text, reading.header), reading)),
    }
}
