//! Why a text is no schedule.
ghost use Rattle.std.specs.Prelude.{◌≡◌};
ghost use Rattle.run_steps.specs.declared.script.fault.StepTextFault.TheVariants.{Memory};

use std::alloc::{AllocError, AllocFailed};
use thiserror::Error;

/// Why a text says no steps: the fault of the first line that can't stand after those before it. Lines are counted from
/// 1. Where several hold of a line, the first in this order.
#[derive(Clone, Copy, Debug, PartialEq, Eq, Error)]
pub enum StepTextFault {
    /// The line is not UTF-8.
    #[error("line {line}: expected UTF-8")]
    NotUtf8 { line: u64 },
    /// A control character stands in the line: a byte below 32 other than TAB and CR, or the byte 127.
    #[error("line {line}: expected no control character but TAB and CR")]
    ControlCharacter { line: u64 },
    /// The line has more than 65,536 bytes, its LF not counted.
    #[error("line {line}: expected at most 65536 bytes")]
    LongLine { line: u64 },
    /// The line has none of the forms.
    #[error("line {line}: expected `NODE reads NODE`, `NODE reads all`, `NODE moves`, `NODE turn`, `sweep`, `repeat COUNT {{` or `}}`")]
    NoSuchLine { line: u64 },
    /// The count of a `repeat` is no number from 1 to 1,000,000.
    #[error("line {line}: expected a count from 1 to 1000000 between `repeat` and `{{`")]
    BadCount { line: u64 },
    /// A word calls no node of the network: the first of the line, or the third. Words are counted from 1.
    #[error("line {line}: expected a node of the network as word {word}")]
    NoNode { line: u64, word: u32 },
    /// The node that is to be read is no neighbour of the one that is to read it.
    #[error("line {line}: expected a neighbour of the node that reads as word 3")]
    NotNeighbour { line: u64 },
    /// The line begins a `repeat` inside 64 others.
    #[error("line {line}: expected no `repeat` inside 64 others")]
    TooDeep { line: u64 },
    /// The line is a `}` that ends no `repeat`.
    #[error("line {line}: expected a `repeat` for this `}}`")]
    EndWithoutRepeat { line: u64 },
    /// With the line there are more than 1,000,000 steps, where a `repeat` counts once as long as its `}` has not come.
    #[error("line {line}: expected at most 1000000 steps in all")]
    TooManySteps { line: u64 },
    /// At the end of the text this `repeat` has no `}`: the last of those that have none.
    #[error("line {line}: expected a `}}` for this `repeat`")]
    RepeatWithoutEnd { line: u64 },
    /// Memory ran out.
    #[error("not enough memory")]
    Memory,
}

impl From<AllocError> for StepTextFault {
    ghost from_gives = { λ _ e. e ≡ Memory };

    fn from(_error: AllocError) -> StepTextFault {
        StepTextFault::Memory
    }
}

impl<T: Drop> From<AllocFailed<T>> for StepTextFault {
    ghost from_gives = { λ _ e. e ≡ Memory };

    fn from(_error: AllocFailed<T>) -> StepTextFault {
        StepTextFault::Memory
    }
}
