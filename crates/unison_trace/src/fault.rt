//! Why a step isn't stored, why a text is no schedule, and why there is no replay.
ghost use Rattle.std.specs.Prelude.{◌≡◌};
ghost use Rattle.unison_trace.specs.declared.fault.LogFault.TheVariants.{Memory as LogMemory};
ghost use Rattle.unison_trace.specs.declared.fault.ScheduleFault.TheVariants.{Memory as ScheduleMemory};
ghost use Rattle.unison_trace.specs.declared.fault.ReplayFault.TheVariants.{Read, Write, Memory as ReplayMemory};
ghost use Rattle.unison_trace.specs.ReplayFaults.{from_opening, from_schedule};

use report_text::{Cut, DeviceFault};
use std::alloc::{AllocError, AllocFailed};
use thiserror::Error;
use unison_world::OpenFault;

/// Why a step or a result that would change the world was refused. Neither comes without a limit.
#[derive(Clone, Copy, Debug, PartialEq, Eq, Error)]
pub enum LogFault {
    /// As many steps are stored as the limit allows.
    #[error("{limit} steps are stored, and no more may be")]
    TraceFull { limit: u32 },
    /// Out of memory.
    #[error("not enough memory")]
    Memory,
}

impl From<AllocError> for LogFault {
    ghost from_gives = { λ _ e. e ≡ LogMemory };

    fn from(_error: AllocError) -> LogFault {
        LogFault::Memory
    }
}

impl<T: Drop> From<AllocFailed<T>> for LogFault {
    ghost from_gives = { λ _ e. e ≡ LogMemory };

    fn from(_error: AllocFailed<T>) -> LogFault {
        LogFault::Memory
    }
}

/// Why a text is no schedule. `BadLine` comes before `TooManySteps`.
#[derive(Clone, Copy, Debug, PartialEq, Eq, Error)]
pub enum ScheduleFault {
    /// The first line that is no step's, counted from 1.
    #[error("line {line} is no line of a schedule")]
    BadLine { line: u64 },
    /// There are more than 1,000,000 steps.
    #[error("there are more than 1000000 steps")]
    TooManySteps,
    /// Out of memory.
    #[error("not enough memory")]
    Memory,
}

impl From<AllocError> for ScheduleFault {
    ghost from_gives = { λ _ e. e ≡ ScheduleMemory };

    fn from(_error: AllocError) -> ScheduleFault {
        ScheduleFault::Memory
    }
}

impl<T: Drop> From<AllocFailed<T>> for ScheduleFault {
    ghost from_gives = { λ _ e. e ≡ ScheduleMemory };

    fn from(_error: AllocFailed<T>) -> ScheduleFault {
        ScheduleFault::Memory
    }
}

/// Why there is no replay, in the order in which the work is done.
#[derive(Clone, Copy, Debug, PartialEq, Eq, Error)]
pub enum ReplayFault {
    /// The reader failed.
    #[error("the schedule could not be read")]
    Read,
    /// 27,000,001 reads gave bytes.
    #[error("more than 27000000 reads gave bytes")]
    TooManyTurns,
    /// The bytes are no schedule.
    #[error("{0}")]
    Schedule(ScheduleFault),
    /// There is no such world.
    #[error("{0}")]
    Opening(OpenFault),
    /// The writer failed: only the first `written` bytes of the report went out.
    #[error("only the first {written} bytes were written")]
    Write { written: u64 },
    /// Out of memory.
    #[error("not enough memory")]
    Memory,
}

impl From<AllocError> for ReplayFault {
    ghost from_gives = { λ _ e. e ≡ ReplayMemory };

    fn from(_error: AllocError) -> ReplayFault {
        ReplayFault::Memory
    }
}

impl<T: Drop> From<AllocFailed<T>> for ReplayFault {
    ghost from_gives = { λ _ e. e ≡ ReplayMemory };

    fn from(_error: AllocFailed<T>) -> ReplayFault {
        ReplayFault::Memory
    }
}

impl From<DeviceFault> for ReplayFault {
    ghost from_gives = { λ _ e. e ≡ Read };

    fn from(_fault: DeviceFault) -> ReplayFault {
        ReplayFault::Read
    }
}

impl From<ScheduleFault> for ReplayFault {
    ghost from_gives = { λ fault e. e ≡ from_schedule fault };

    fn from(fault: ScheduleFault) -> ReplayFault {
        match fault {
            ScheduleFault::Memory => ReplayFault::Memory,
            _ => ReplayFault::Schedule(fault),
        }
    }
}

impl From<OpenFault> for ReplayFault {
    ghost from_gives = { λ fault e. e ≡ from_opening fault };

    fn from(fault: OpenFault) -> ReplayFault {
        match fault {
            OpenFault::Memory => ReplayFault::Memory,
            _ => ReplayFault::Opening(fault),
        }
    }
}

impl From<Cut> for ReplayFault {
    ghost from_gives = { λ cut e. e ≡ Write cut.written };

    fn from(cut: Cut) -> ReplayFault {
        ReplayFault::Write {
            written: cut.written,
        }
    }
}
