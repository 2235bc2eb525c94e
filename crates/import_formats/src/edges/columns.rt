//! The words of a line by their columns.
ghost use Rattle.std.specs.Prelude.{◌≡◌, slice_get};
ghost use Rattle.std.specs.Option.{option_copied};
ghost use Rattle.import_lines.specs.Parts.{IsGiven};
ghost use Rattle.import_lines.specs.Texts.{words_of};
ghost use Rattle.import_formats.specs.declared.edges.fault.LineFault.TheVariants.{Words as BadWords, NoColumn};
ghost use Rattle.import_formats.specs.edges.Columns.{column_where, parts_at, parts_in};

use crate::edges::fault::LineFault;
use import_lines::{Parts, line_parts, next_word};

/// Which columns of a line are the two ends of its edge and its weight, counted from 0.
#[derive(Clone, Copy, Debug, PartialEq, Eq)]
pub struct Columns {
    /// The column of the first end.
    pub first: usize,
    /// The column of the second end.
    pub second: usize,
    /// The column of the weight. None: no column says it.
    pub weight: Option<usize>,
}

/// The word in a column.
fn word_in(text: &str, column: usize) -> Option<&str>
    ensures { option_copied result ≡ slice_get (words_of text.now) column }
{
    let mut rest = text;
    let mut left = column;
    while left > 0 {
        let Some((_, behind)) = next_word(rest) else {
            return None;
        };
        rest = behind;
        left -= 1;
    }
    match next_word(rest) {
        Some((word, _)) => Some(word),
        None => None,
    }
}

/// The word in a column, where there is such a column.
fn weight_in(text: &str, column: Option<usize>) -> Option<&str>
    ensures { option_copied result ≡ column_where column (words_of text.now) }
{
    match column {
        Some(column) => word_in(text, column),
        None => None,
    }
}

/// The words of a line in these columns.
fn column_parts(text: &str, columns: Columns) -> Result<Parts<'_>, LineFault>
    ensures { IsGiven (λ p. (p.first.now, p.second.now, option_copied p.third)) (parts_at NoColumn columns (words_of text.now)) result }
{
    let Some(first) = word_in(text, columns.first) else {
        return Err(LineFault::NoColumn);
    };
    let Some(second) = word_in(text, columns.second) else {
        return Err(LineFault::NoColumn);
    };
    Ok(Parts {
        first,
        second,
        third: weight_in(text, columns.weight),
    })
}

/// The words of a line that are the ends of its edge and its weight: those in these columns, or all of two or three.
pub(crate) fn edge_parts(text: &str, columns: Option<Columns>) -> Result<Parts<'_>, LineFault>
    ensures { IsGiven (λ p. (p.first.now, p.second.now, option_copied p.third)) (parts_in BadWords NoColumn columns (words_of text.now)) result }
{
    match columns {
        Some(columns) => column_parts(text, columns),
        None => match line_parts(text) {
            Ok(parts) => Ok(parts),
            Err(fault) => Err(LineFault::Words(fault)),
        },
    }
}
