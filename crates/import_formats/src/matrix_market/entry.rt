//! The link that a line says.
ghost use Rattle.std.specs.Prelude.{◌≡◌, ◌<◌, IfOk};
ghost use Rattle.std.specs.Option.{option_copied};
ghost use Rattle.import_formats.specs.matrix_market.Entries.{index_in, value_in, entry_in};

use crate::matrix_market::fault::MatrixLineFault;
use crate::matrix_market::number::read_number;
use import_lines::{Weight, line_parts, line_text, read_weight};
use import_links::PlacedLink;

/// What the entries of a text are like.
#[derive(Clone, Copy, Debug)]
pub struct EntryForm {
    /// How many rows there are, and as many columns.
    pub nodes: u32,
    /// Whether the edges have a direction.
    pub is_directed: bool,
    /// Whether each entry has a value.
    pub has_values: bool,
    /// What values are multiplied by.
    pub factor: Option<u32>,
}

/// The node of a row or a column.
fn read_index(nodes: u32, word: &str) -> Result<u32, MatrixLineFault>
    ensures index { result ≡ index_in nodes word.now }
    ensures node { IfOk result (λ node. node < nodes) }
{
    match read_number(word) {
        Some(number) if 1 <= number && number <= nodes as u64 => Ok((number - 1) as u32),
        _ => Err(MatrixLineFault::BadIndex { nodes }),
    }
}

/// The weight of an entry.
fn read_value(form: EntryForm, word: Option<&str>) -> Result<Weight, MatrixLineFault>
    ensures { result ≡ value_in form (option_copied word.entry) }
{
    match word {
        None if form.has_values => Err(MatrixLineFault::NoValue),
        None => Ok(Weight {
            value: form.factor.unwrap_or(1),
            exact: true,
        }),
        Some(word) if form.has_values => read_weight(word, form.factor).map_err(
            MatrixLineFault::Value,
        ),
        Some(_) => Err(MatrixLineFault::ValueInPattern),
    }
}

/// The link that a line says.
pub(crate) fn read_entry(
    form: EntryForm,
    number: u64,
    line: &[u8],
) -> Result<PlacedLink, MatrixLineFault>
    ensures link { result ≡ entry_in form number line.now }
    ensures first { IfOk result (λ link. link.link.0 < form.nodes) }
    ensures second { IfOk result (λ link. link.link.1 < form.nodes) }
    ensures line { IfOk result (λ link. link.line ≡ number) }
{
    let text = line_text(line)?;
    let parts = line_parts(text)?;
    let row = read_index(form.nodes, parts.first)?;
    let column = read_index(form.nodes, parts.second)?;
    let weight = read_value(form, parts.third)?;
    Ok(PlacedLink {
        link: (row, column, weight.value),
        line: number,
        exact: weight.exact,
    })
}
