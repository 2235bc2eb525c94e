//! Why bytes are no pattern.
ghost use Rattle.std.specs.Prelude.{◌≡◌};
ghost use Rattle.net_patterns.specs.declared.fault.PatternFault.TheVariants.{Memory};

use std::alloc::{AllocError, AllocFailed};
use thiserror::Error;

/// Why bytes are no pattern. A line is counted from 1; where several things are wrong, the first in the text counts.
#[derive(Clone, Copy, Debug, PartialEq, Eq, Error)]
pub enum PatternFault {
    /// No line says anything: each is blank, or begins with `#`.
    #[error("NoPattern")]
    NoPattern,
    /// A character that has no meaning there.
    #[error("line {line}: BadCell")]
    BadCell { line: u64 },
    /// A number that is 0 or greater than 999,999,999, or that no tag follows, but a blank, `!` or the text's end.
    #[error("line {line}: BadCount")]
    BadCount { line: u64 },
    /// The text ends without `!`.
    #[error("NoEnd")]
    NoEnd,
    /// A live cell whose column or row is 65,536 or more, or that follows 65,536 live cells.
    #[error("line {line}: TooLarge")]
    TooLarge { line: u64 },
    /// Memory ran out.
    #[error("Memory")]
    Memory,
}

impl From<AllocError> for PatternFault {
    ghost from_gives = { λ _ e. e ≡ Memory };

    fn from(_error: AllocError) -> PatternFault {
        PatternFault::Memory
    }
}

impl<T: Drop> From<AllocFailed<T>> for PatternFault {
    ghost from_gives = { λ _ e. e ≡ Memory };

    fn from(_error: AllocFailed<T>) -> PatternFault {
        PatternFault::Memory
    }
}
