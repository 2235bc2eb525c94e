//! What stands before the entries.
ghost use Rattle.std.specs.Prelude.{◌≡◌, ◌+◌, ◌<◌, ◌≤◌, ◌^◌, length, IfOk, MatchResult, Ok, Err};
ghost use Rattle.std.specs.List.{before_first, after_first};
ghost use Rattle.import_lines.specs.Texts.{is_line_feed};
ghost use Rattle.import_formats.specs.matrix_market.Steps.{and_then, at_line};
ghost use Rattle.import_formats.specs.matrix_market.Headers.{header_in};
ghost use Rattle.import_formats.specs.matrix_market.Sizes.{size_in};
ghost use Rattle.import_formats.specs.matrix_market.Matrices.{links_left, matrix_links, entries_of};

use crate::matrix_market::entries::Entries;
use crate::matrix_market::entry::EntryForm;
use crate::matrix_market::fault::MatrixFault;
use crate::matrix_market::header::{Header, read_header};
use crate::matrix_market::matrix::{Direction, EntryReading};
use crate::matrix_market::size::{Size, read_size};
use import_lines::{Lines, split_line};

/// The first line, and the lines after it.
fn first_line(text: &[u8]) -> (&[u8], Lines<'_>)
    ensures line { result.0.now ≡ before_first is_line_feed text.now }
    ensures passed { result.1.passed ≡ 1 }
    ensures bytes { result.1.bytes.now ≡ after_first is_line_feed text.now }
    ensures room { result.1.passed + length result.1.bytes.now < 2 ^ 64 }
{
    let (line, bytes) = split_line(text);
    (line, Lines { passed: 1, bytes })
}

/// What the header, which is the first line, says, or its fault with its number.
fn told_header(line: &[u8], direction: Direction) -> Result<Header, MatrixFault>
    ensures { result ≡ at_line 1 (header_in direction line.now) }
{
    match read_header(line, direction) {
        Ok(header) => Ok(header),
        Err(fault) => Err(MatrixFault::BadLine { line: 1, fault }),
    }
}

/// The size that a line says, or its fault with its number.
fn told_size(most_nodes: u32, number: u64, line: &[u8]) -> Result<Size, MatrixFault>
    ensures size { result ≡ at_line number (size_in most_nodes line.now) }
    ensures some { IfOk result (λ size. 1 ≤ size.nodes) }
{
    match read_size(most_nodes, line) {
        Ok(size) => Ok(size),
        Err(fault) => Err(MatrixFault::BadLine {
            line: number,
            fault,
        }),
    }
}

/// The entries of a Matrix Market file of the coordinate format, or what is wrong before them.
///
/// The first line is the header `%%MatrixMarket matrix coordinate FIELD SYMMETRY`, in letters of any case. FIELD is
/// `pattern`, `integer` or `real`, and SYMMETRY is `symmetric` or `general`. Edges of the latter have a direction: it is
/// refused as `Directed`, left aside or kept, as the reading says. After the header a line without words, or whose first
/// word begins with `#` or `%`, is passed over. The first other line says rows, columns and entries, as many columns as
/// rows: these are the nodes, from 1 to the most. Each line after it is an entry: a row and a column, counted from 1,
/// and after them a value, but for `pattern`. It is the link between these nodes, counted from 0. Its weight is the
/// value, as `read_weight` reads it with the factor; where entries have no value 1, or the factor where one is given.
/// Words are parted by blanks, tabs or commas. A line ends at LF or at the end of the text; a CR is taken as a blank.
///
/// Faults are those of [`MatrixFault`] but for `Memory`, of the lines before the entries; the entries tell the others.
pub fn find_entries<'a>(text: &'a [u8], reading: &EntryReading) -> Result<Entries<'a>, MatrixFault>
    ensures room { IfOk result (λ from. from.lines.passed + length from.lines.bytes.now < 2 ^ 64) }
    ensures most { IfOk result (λ from. from.found ≤ from.said) }
    ensures some { IfOk result (λ from. 1 ≤ from.form.nodes) }
    ensures rest { MatchResult result
        (λ from. entries_of reading.now text.now ≡ and_then (links_left from) (λ links. Ok (matrix_links from.form links)))
        (λ fault. entries_of reading.now text.now ≡ Err fault) }
{
    let (header, mut lines) = first_line(text);
    let header = told_header(header, reading.direction)?;
    let Some((number, line)) = lines.next_told() else {
        return Err(MatrixFault::NoSize);
    };
    let size = told_size(reading.most_nodes, number, line)?;
    let form = EntryForm {
        nodes: size.nodes,
        is_directed: header.is_directed,
        has_values: header.has_values,
        factor: reading.factor,
    };
    Ok(Entries {
        form,
        said: size.entries,
        found: 0,
        lines,
    })
}
