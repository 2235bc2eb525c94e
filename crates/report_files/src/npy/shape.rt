//! The axes of an array.
ghost use Rattle.std.specs.Prelude.{◌≡◌, ◌≢◌, ◌<◌, ◌^◌, ℕ, ◌↔◌, IsTrue, MatchOption, IfOk, string_bytes};
ghost use Rattle.report_files.specs.npy.Arrays.{shape_text};
ghost use Rattle.report_files.specs.npy.Written.{axes_text, element_count};
ghost use Rattle.report_files.specs.npy.Parts.{IsSmall};

use report_text::read_number;
use std::alloc::{AllocError, Global};

/// The axes of an array that is written.
#[derive(Clone, Copy)]
pub enum ArrayShape {
    /// One axis of so many elements.
    Row { count: usize },
    /// Rows of so many columns each; the elements of a row stand together.
    Table { rows: usize, columns: usize },
}

impl ArrayShape {
    /// Whether the shape has so many elements.
    pub(crate) fn has(self, words: usize) -> bool
        ensures { IsTrue result ↔ (words ≡ element_count self) }
    {
        match self {
            ArrayShape::Row { count } => count == words,
            ArrayShape::Table { rows, columns } => rows.checked_mul(columns) == Some(words),
        }
    }

    /// The shape as a tuple of Python, without its parentheses.
    pub(crate) fn text(self, alloc: Global) -> Result<String, AllocError>
        ensures text { IfOk result (λ text. string_bytes text ≡ axes_text self) }
        ensures small { IfOk result (λ _. IsSmall self) }
    {
        match self {
            ArrayShape::Row { count } => format!(in alloc; "{count},"),
            ArrayShape::Table { rows, columns } => format!(in alloc; "{rows}, {columns}"),
        }
    }
}

/// How many elements the shape of one axis has.
pub(crate) fn count_in(shape: &[u8]) -> Option<u32>
    ensures { MatchOption result ((n : ℕ) → n < 2 ^ 32 → shape.now ≢ shape_text n) (λ n. shape.now ≡ shape_text n) }
{
    let (count, rest) = read_number(shape)?;
    if rest == b",".as_slice() {
        Some(count)
    } else {
        None
    }
}
