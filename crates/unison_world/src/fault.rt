//! Why a world isn't opened or finished.
ghost use Rattle.std.specs.Prelude.{◌≡◌};
ghost use Rattle.unison_world.specs.declared.fault.OpenFault.TheVariants.{Memory};
ghost use Rattle.unison_world.specs.declared.fault.FinishFault.TheVariants.{Memory as FinishMemory};

use std::alloc::{AllocError, AllocFailed};
use thiserror::Error;

/// Why no world was opened. `StopTooLarge` comes before `StopBelowStart`, and both before anything is done.
#[derive(Clone, Copy, Debug, PartialEq, Eq, Error)]
pub enum OpenFault {
    /// The stop is above 1,000,000,000.
    #[error("the stop is above 1000000000")]
    StopTooLarge,
    /// Out of memory.
    #[error("not enough memory")]
    Memory,
    /// The stop lies before the plan's start.
    #[error("the stop lies before the start of the plan")]
    StopBelowStart,
}

impl From<AllocError> for OpenFault {
    ghost from_gives = { λ _ e. e ≡ Memory };

    fn from(_error: AllocError) -> OpenFault {
        OpenFault::Memory
    }
}

impl<T: Drop> From<AllocFailed<T>> for OpenFault {
    ghost from_gives = { λ _ e. e ≡ Memory };

    fn from(_error: AllocFailed<T>) -> OpenFault {
        OpenFault::Memory
    }
}

/// Why a world gave no configuration. `Foreign` comes before `Unfinished`.
#[derive(Clone, Copy, Debug, PartialEq, Eq, Error)]
pub enum FinishFault {
    /// The plan or the stop isn't the world's.
    #[error("the world has another plan or another stop")]
    Foreign,
    /// The least node below the stop, and its moves.
    #[error("node {node} has moved {moves} times and stands below the stop")]
    Unfinished { node: u32, moves: u32 },
    /// Out of memory.
    #[error("not enough memory")]
    Memory,
}

impl From<AllocError> for FinishFault {
    ghost from_gives = { λ _ e. e ≡ FinishMemory };

    fn from(_error: AllocError) -> FinishFault {
        FinishFault::Memory
    }
}

impl<T: Drop> From<AllocFailed<T>> for FinishFault {
    ghost from_gives = { λ _ e. e ≡ FinishMemory };

    fn from(_error: AllocFailed<T>) -> FinishFault {
        FinishFault::Memory
    }
}
