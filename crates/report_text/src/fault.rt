//! Why a report is refused.
ghost use Rattle.std.specs.Prelude.{◌≡◌};
ghost use Rattle.report_text.specs.declared.fault.ReportFault.TheVariants.{Memory};

use std::alloc::{AllocError, AllocFailed};
use thiserror::Error;

/// Why a text is not read as a report: `BadLine` before `TooManyRounds`, and running out of memory outside that order.
#[derive(Clone, Copy, Debug, PartialEq, Eq, Error)]
pub enum ReportFault {
    /// The line of this number, counted from 1, is the first that cannot stand at its place in a report of the
    /// plan's nodes and fields, or the first that is missing.
    #[error("line {line} is not that of a report of this plan")]
    BadLine { line: u64 },
    /// The round is above 1,000,000,000.
    #[error("the round of the report is above 1000000000")]
    TooManyRounds,
    /// Out of memory.
    #[error("not enough memory")]
    Memory,
}

impl From<AllocError> for ReportFault {
    ghost from_gives = { λ _ e. e ≡ Memory };

    fn from(_error: AllocError) -> ReportFault {
        ReportFault::Memory
    }
}

impl<T: Drop> From<AllocFailed<T>> for ReportFault {
    ghost from_gives = { λ _ e. e ≡ Memory };

    fn from(_error: AllocFailed<T>) -> ReportFault {
        ReportFault::Memory
    }
}
