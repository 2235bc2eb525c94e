//! Why a text has no table.
ghost use Rattle.std.specs.Prelude.{◌≡◌};
ghost use Rattle.report_files.specs.declared.tables.fault.TableFault.TheVariants.{Memory};

use std::alloc::{AllocError, AllocFailed};
use thiserror::Error;

/// Why a text is no report and no replay report.
#[derive(Clone, Copy, Debug, PartialEq, Eq, Error)]
pub enum TableFault {
    /// This line, counted from 1, can't stand after those before it, or is missing.
    #[error("line {line}: no line of a report")]
    BadLine { line: u64 },
    /// Behind the lines of 4,294,967,295 nodes there is something, from this line on, counted from 1.
    #[error("line {line}: there are more than 4294967295 nodes")]
    TooManyNodes { line: u64 },
    /// Memory ran out.
    #[error("not enough memory")]
    Memory,
}

impl From<AllocError> for TableFault {
    ghost from_gives = { λ _ e. e ≡ Memory };

    fn from(_error: AllocError) -> TableFault {
        TableFault::Memory
    }
}

impl<T: Drop> From<AllocFailed<T>> for TableFault {
    ghost from_gives = { λ _ e. e ≡ Memory };

    fn from(_error: AllocFailed<T>) -> TableFault {
        TableFault::Memory
    }
}
