//! Why a table has no list of edges.
ghost use Rattle.std.specs.Prelude.{◌≡◌};
ghost use Rattle.import_formats.specs.declared.edges.row_fault.TableFault.TheVariants.{Memory};

use import_lines::{WeightFault, WordsFault};
use std::alloc::{AllocError, AllocFailed};
use thiserror::Error;

/// What is wrong with a row. Where several things are, the first in this order, but for `NotUtf8`, `ControlCharacter` and
/// `LongLine` of a field, which come field by field after the number of fields.
#[derive(Clone, Copy, Debug, PartialEq, Eq, Error)]
pub enum RowFault {
    /// The row is the first, and looks like headings: neither of its first two fields is a whole number, and both of the
    /// next row's are.
    #[error("Heading")]
    Heading,
    /// A field begins with a quote, and no quote ends it in its line.
    #[error("UnclosedQuote")]
    UnclosedQuote,
    /// There are not two or three fields, which are `OneWord` and `TooManyWords`; or a field may not be shown.
    #[error("{0}")]
    Words(WordsFault),
    /// There are fewer fields than the columns of the ends ask for.
    #[error("NoColumn")]
    NoColumn,
    /// The field of the weight says none.
    #[error("{0}")]
    Weight(WeightFault),
}

/// Why a table has no list of edges.
#[derive(Clone, Copy, Debug, PartialEq, Eq, Error)]
pub enum TableFault {
    /// The line of the first bad row, counted from 1, and what is wrong with it.
    #[error("line {line}: {fault}")]
    BadRow { line: u64, fault: RowFault },
    /// Memory ran out.
    #[error("Memory")]
    Memory,
}

impl From<AllocError> for TableFault {
    ghost from_gives = { λ _ e. e ≡ Memory };

    fn from(_error: AllocError) -> TableFault {
        TableFault::Memory
    }
}

impl<T: Drop> From<AllocFailed<T>> for TableFault {
    ghost from_gives = { λ _ e. e ≡ Memory };

    fn from(_error: AllocFailed<T>) -> TableFault {
        TableFault::Memory
    }
}
