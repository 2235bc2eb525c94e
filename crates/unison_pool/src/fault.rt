//! Why a run gave no configuration.
ghost use Rattle.std.specs.Prelude.{◌≡◌};
ghost use Rattle.unison_pool.specs.declared.fault.RunFault.TheVariants.{Memory};
ghost use Rattle.unison_pool.specs.Faults.{fault_at_opening, fault_at_finish};

use std::alloc::AllocError;
use thiserror::Error;
use unison_world::{FinishFault, OpenFault};

/// Why a run gave no configuration. `WorkerCount`, `StopTooLarge` and `StopBelowStart` come in this order, before
/// anything is done.
#[derive(Clone, Copy, Debug, PartialEq, Eq, Error)]
pub enum RunFault {
    /// No worker, or more than 64.
    #[error("there must be 1 to 64 workers")]
    WorkerCount,
    /// The stop is above 1,000,000,000.
    #[error("the stop is above 1000000000")]
    StopTooLarge,
    /// The start of a thread was refused.
    #[error("no thread could be started")]
    NoThread,
    /// The trace needs more steps than its limit allows.
    #[error("{limit} steps are stored, and no more may be")]
    TraceFull { limit: u32 },
    /// What came out of the lock is of another plan or another stop, or has a trace where none was asked or none where
    /// one was.
    #[error("the workers left another world")]
    Foreign,
    /// The least node below the stop after the workers ended, and its moves.
    #[error("node {node} has moved {moves} times and stands below the stop")]
    Unfinished { node: u32, moves: u32 },
    /// Out of memory.
    #[error("not enough memory")]
    Memory,
    /// The stop lies before the plan's start.
    #[error("the stop lies before the start of the plan")]
    StopBelowStart,
}

impl From<AllocError> for RunFault {
    ghost from_gives = { λ _ e. e ≡ Memory };

    fn from(_error: AllocError) -> RunFault {
        RunFault::Memory
    }
}

impl From<OpenFault> for RunFault {
    ghost from_gives = { λ fault e. e ≡ fault_at_opening fault };

    fn from(fault: OpenFault) -> RunFault {
        match fault {
            OpenFault::StopTooLarge => RunFault::StopTooLarge,
            OpenFault::Memory => RunFault::Memory,
            OpenFault::StopBelowStart => RunFault::StopBelowStart,
        }
    }
}

impl From<FinishFault> for RunFault {
    ghost from_gives = { λ fault e. e ≡ fault_at_finish fault };

    fn from(fault: FinishFault) -> RunFault {
        match fault {
            FinishFault::Foreign => RunFault::Foreign,
            FinishFault::Unfinished { node, moves } => RunFault::Unfinished { node, moves },
            FinishFault::Memory => RunFault::Memory,
        }
    }
}
