//! The line that says how many nodes and entries there are.
ghost use Rattle.std.specs.Prelude.{◌≡◌, ◌≤◌, IfOk};
ghost use Rattle.import_lines.specs.Texts.{words_of};
ghost use Rattle.import_formats.specs.matrix_market.Sizes.{number_in, sized, size_of, size_in};

use crate::matrix_market::fault::MatrixLineFault;
use crate::matrix_market::number::read_number;
use import_lines::{line_parts, line_text};

/// How many nodes and entries a text says that it has.
#[derive(Clone, Copy)]
pub(crate) struct Size {
    pub(crate) nodes: u32,
    pub(crate) entries: u64,
}

/// The number that a word of a size line says.
fn size_number(word: &str) -> Result<u64, MatrixLineFault>
    ensures { result ≡ number_in word.now }
{
    match read_number(word) {
        Some(number) => Ok(number),
        None => Err(MatrixLineFault::BadSize),
    }
}

/// The size of so many rows, columns and entries, where there are no more nodes than the most.
fn checked_size(
    most_nodes: u32,
    rows: u64,
    columns: u64,
    entries: u64,
) -> Result<Size, MatrixLineFault>
    ensures size { result ≡ sized most_nodes rows columns entries }
    ensures some { IfOk result (λ size. 1 ≤ size.nodes) }
{
    if rows != columns {
        return Err(MatrixLineFault::NotSquare);
    }
    if rows == 0 {
        return Err(MatrixLineFault::NoNodes);
    }
    if rows > most_nodes as u64 {
        return Err(MatrixLineFault::TooManyNodes);
    }
    Ok(Size {
        nodes: rows as u32,
        entries,
    })
}

/// The size that a text of a line says.
fn text_size(most_nodes: u32, text: &str) -> Result<Size, MatrixLineFault>
    ensures size { result ≡ size_of most_nodes (words_of text.now) }
    ensures some { IfOk result (λ size. 1 ≤ size.nodes) }
{
    let Ok(parts) = line_parts(text) else {
        return Err(MatrixLineFault::BadSize);
    };
    let Some(third) = parts.third else {
        return Err(MatrixLineFault::BadSize);
    };
    let rows = size_number(parts.first)?;
    let columns = size_number(parts.second)?;
    let entries = size_number(third)?;
    checked_size(most_nodes, rows, columns, entries)
}

/// The size that a line says, where there are no more nodes than the most.
pub(crate) fn read_size(most_nodes: u32, line: &[u8]) -> Result<Size, MatrixLineFault>
    ensures size { result ≡ size_in most_nodes line.now }
    ensures some { IfOk result (λ size. 1 ≤ size.nodes) }
{
    let text = line_text(line)?;
    text_size(most_nodes, text)
}
