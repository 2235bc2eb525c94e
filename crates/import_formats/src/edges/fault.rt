//! Why a text has no list of edges.
ghost use Rattle.std.specs.Prelude.{◌≡◌};
ghost use Rattle.import_formats.specs.declared.edges.fault.EdgeFault.TheVariants.{Memory};

use import_lines::{WeightFault, WordsFault};
use std::alloc::{AllocError, AllocFailed};
use thiserror::Error;

/// What is wrong with a line. Where several things are, the first in this order.
#[derive(Clone, Copy, Debug, PartialEq, Eq, Error)]
pub enum LineFault {
    /// The line is the first, and looks like headings: neither of its first two words is a whole number, and both of the
    /// next line's are.
    #[error("Heading")]
    Heading,
    /// The line may not be shown; or, which comes after `EmptyPlace`, it is not two or three words.
    #[error("{0}")]
    Words(WordsFault),
    /// A place between commas is empty, and a word stands after it.
    #[error("EmptyPlace")]
    EmptyPlace,
    /// The line has fewer words than the columns of its ends ask for.
    #[error("NoColumn")]
    NoColumn,
    /// The word of the weight says none.
    #[error("{0}")]
    Weight(WeightFault),
}

/// Why a text has no list of edges.
#[derive(Clone, Copy, Debug, PartialEq, Eq, Error)]
pub enum EdgeFault {
    /// The first bad line, counted from 1, and what is wrong with it.
    #[error("line {line}: {fault}")]
    BadLine { line: u64, fault: LineFault },
    /// Memory ran out; no line of the text is bad.
    #[error("Memory")]
    Memory,
}

impl From<AllocError> for EdgeFault {
    ghost from_gives = { λ _ e. e ≡ Memory };

    fn from(_error: AllocError) -> EdgeFault {
        EdgeFault::Memory
    }
}

impl<T: Drop> From<AllocFailed<T>> for EdgeFault {
    ghost from_gives = { λ _ e. e ≡ Memory };

    fn from(_error: AllocFailed<T>) -> EdgeFault {
        EdgeFault::Memory
    }
}
