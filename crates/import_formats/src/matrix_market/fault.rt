//! Why a text has no matrix.
ghost use Rattle.std.specs.Prelude.{◌≡◌};
ghost use Rattle.import_formats.specs.declared.matrix_market.fault.MatrixFault.TheVariants.{Memory};
ghost use Rattle.import_formats.specs.declared.matrix_market.fault.MatrixLineFault.TheVariants.{Words};

use import_lines::{WeightFault, WordsFault};
use std::alloc::{AllocError, AllocFailed};
use thiserror::Error;

/// What is wrong with a line. Where several things are, the first in this order that may be said of such a line.
#[derive(Clone, Copy, Debug, PartialEq, Eq, Error)]
pub enum MatrixLineFault {
    /// The line is no text of words; `OneWord` and `TooManyWords` are said of entries alone.
    #[error("{0}")]
    Words(WordsFault),
    /// The first line is no header: `%%MatrixMarket matrix coordinate FIELD SYMMETRY`.
    #[error("NoHeader")]
    NoHeader,
    /// The header says the format `array`, which has a value for each two nodes.
    #[error("ArrayFormat")]
    ArrayFormat,
    /// The header says another field than `pattern`, `integer` or `real`.
    #[error("UnknownField")]
    UnknownField,
    /// The header says another symmetry than `general` or `symmetric`.
    #[error("UnknownSymmetry")]
    UnknownSymmetry,
    /// The header says `general`: the edges have a direction, and it was not asked to leave that aside.
    #[error("Directed")]
    Directed,
    /// The size line is not three whole numbers below 2 to the power of 64.
    #[error("BadSize")]
    BadSize,
    /// The size line says another number of columns than of rows.
    #[error("NotSquare")]
    NotSquare,
    /// The size line says 0 rows.
    #[error("NoNodes")]
    NoNodes,
    /// The size line says more rows than the most nodes that are read.
    #[error("TooManyNodes")]
    TooManyNodes,
    /// The row or the column of an entry is no number from 1 to the number of nodes.
    #[error("BadIndex")]
    BadIndex { nodes: u32 },
    /// An entry has no value, and the field is not `pattern`.
    #[error("NoValue")]
    NoValue,
    /// An entry has a value, and the field is `pattern`.
    #[error("ValueInPattern")]
    ValueInPattern,
    /// The value of an entry is no weight.
    #[error("{0}")]
    Value(WeightFault),
}

/// Why a text has no matrix.
#[derive(Clone, Copy, Debug, PartialEq, Eq, Error)]
pub enum MatrixFault {
    /// The first bad line, counted from 1, and what is wrong with it.
    #[error("line {line}: {fault}")]
    BadLine { line: u64, fault: MatrixLineFault },
    /// No line after the header says something.
    #[error("NoSize")]
    NoSize,
    /// The first line of those after as many entries as the size line says, none of which is bad.
    #[error("line {line}: TooManyEntries")]
    TooManyEntries { line: u64, said: u64 },
    /// There are fewer entries than the size line says, and none of them is bad.
    #[error("TooFewEntries")]
    TooFewEntries { said: u64, found: u64 },
    /// Memory ran out; nothing is wrong with the text.
    #[error("Memory")]
    Memory,
}

impl From<WordsFault> for MatrixLineFault {
    ghost from_gives = { λ words fault. fault ≡ Words words };

    fn from(words: WordsFault) -> MatrixLineFault {
        MatrixLineFault::Words(words)
    }
}

impl From<AllocError> for MatrixFault {
    ghost from_gives = { λ _ e. e ≡ Memory };

    fn from(_error: AllocError) -> MatrixFault {
        MatrixFault::Memory
    }
}

impl<T: Drop> From<AllocFailed<T>> for MatrixFault {
    ghost from_gives = { λ _ e. e ≡ Memory };

    fn from(_error: AllocFailed<T>) -> MatrixFault {
        MatrixFault::Memory
    }
}
