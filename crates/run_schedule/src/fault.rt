//! Why there is no list.
ghost use Rattle.std.specs.Prelude.{◌≡◌};
ghost use Rattle.run_schedule.specs.declared.fault.ListFault.TheVariants.{Memory};
ghost use Rattle.run_schedule.specs.declared.fault.Halt.TheVariants.{Memory as HaltMemory};

use std::alloc::{AllocError, AllocFailed};
use thiserror::Error;

/// Why there is no list of steps. Where several hold, the first in this order; `Memory` comes only where no other holds.
#[derive(Clone, Copy, Debug, PartialEq, Eq, Error)]
pub enum ListFault {
    /// The stop is above 1,000,000,000.
    #[error("the stop is above 1000000000")]
    StopTooLarge,
    /// The stop lies before the plan's start.
    #[error("the stop lies before the start of the plan")]
    StopBelowStart,
    /// The network has no node of this number.
    #[error("there is no node {node}")]
    NoNode { node: u32 },
    /// The network has no link between these two nodes.
    #[error("there is no link between nodes {node} and {other}")]
    NotLinked { node: u32, other: u32 },
    /// Out of memory.
    #[error("not enough memory")]
    Memory,
}

impl From<AllocError> for ListFault {
    ghost from_gives = { λ _ e. e ≡ Memory };

    fn from(_error: AllocError) -> ListFault {
        ListFault::Memory
    }
}

/// Why a walk goes no further.
#[derive(Clone, Copy)]
pub(crate) enum Halt {
    /// There are as many steps as there may be.
    Full,
    /// Out of memory.
    Memory,
}

impl From<AllocError> for Halt {
    ghost from_gives = { λ _ e. e ≡ HaltMemory };

    fn from(_error: AllocError) -> Halt {
        Halt::Memory
    }
}

impl<T: Drop> From<AllocFailed<T>> for Halt {
    ghost from_gives = { λ _ e. e ≡ HaltMemory };

    fn from(_error: AllocFailed<T>) -> Halt {
        Halt::Memory
    }
}
