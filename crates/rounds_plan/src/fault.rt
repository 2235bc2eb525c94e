//! Why a plan or a round is refused.
ghost use Rattle.std.specs.Prelude.{◌≡◌};
ghost use Rattle.rounds_plan.specs.declared.fault.PlanFault.TheVariants.{Memory};
ghost use Rattle.rounds_plan.specs.declared.fault.ResumeFault.TheVariants.{Memory as ResumeMemory};
ghost use Rattle.rounds_plan.specs.declared.fault.RoundFault.TheVariants.{Memory as RoundMemory};

use std::alloc::{AllocError, AllocFailed};
use thiserror::Error;

/// Why a program and a network make no plan: the first of these that holds, and running out of memory outside that
/// order.
#[derive(Clone, Copy, Debug, PartialEq, Eq, Error)]
pub enum PlanFault {
    /// A key of `set` is no field of the program.
    #[error("a key of `set` is no field of the program")]
    UnknownField,
    /// A number in `set` is no node.
    #[error("a number in `set` is no node of the network")]
    BadNode,
    /// A value in `set` lies outside 0 to 4294967295.
    #[error("a value in `set` lies outside 0 to 4294967295")]
    BadValue,
    /// A node stands twice in the list of one field.
    #[error("a node stands twice in the list of one field of `set`")]
    SetTwice,
    /// Out of memory.
    #[error("not enough memory")]
    Memory,
}

impl From<AllocError> for PlanFault {
    ghost from_gives = { λ _ e. e ≡ Memory };

    fn from(_error: AllocError) -> PlanFault {
        PlanFault::Memory
    }
}

impl<T: Drop> From<AllocFailed<T>> for PlanFault {
    ghost from_gives = { λ _ e. e ≡ Memory };

    fn from(_error: AllocFailed<T>) -> PlanFault {
        PlanFault::Memory
    }
}

/// Why a plan does not go on from a configuration.
#[derive(Clone, Copy, Debug, PartialEq, Eq, Error)]
pub enum ResumeFault {
    /// The configuration has another number of nodes or of fields than the plan.
    #[error("the configuration has another number of nodes or of fields than the plan")]
    Foreign,
    /// Out of memory.
    #[error("not enough memory")]
    Memory,
}

impl From<AllocError> for ResumeFault {
    ghost from_gives = { λ _ e. e ≡ ResumeMemory };

    fn from(_error: AllocError) -> ResumeFault {
        ResumeFault::Memory
    }
}

impl<T: Drop> From<AllocFailed<T>> for ResumeFault {
    ghost from_gives = { λ _ e. e ≡ ResumeMemory };

    fn from(_error: AllocFailed<T>) -> ResumeFault {
        ResumeFault::Memory
    }
}

/// Why no rounds were made. `TooManyRounds` comes before `RoundsBelowStart`, and both before anything is done.
#[derive(Clone, Copy, Debug, PartialEq, Eq, Error)]
pub enum RoundFault {
    /// More than 1,000,000,000 rounds.
    #[error("more than 1000000000 rounds")]
    TooManyRounds,
    /// Out of memory.
    #[error("not enough memory")]
    Memory,
    /// The round asked for lies before the plan's start.
    #[error("the round asked for lies before the start of the plan")]
    RoundsBelowStart,
}

impl From<AllocError> for RoundFault {
    ghost from_gives = { λ _ e. e ≡ RoundMemory };

    fn from(_error: AllocError) -> RoundFault {
        RoundFault::Memory
    }
}

impl<T: Drop> From<AllocFailed<T>> for RoundFault {
    ghost from_gives = { λ _ e. e ≡ RoundMemory };

    fn from(_error: AllocFailed<T>) -> RoundFault {
        RoundFault::Memory
    }
}

/// Why a program, rows and states make no plan: the first of these that holds.
#[derive(Clone, Copy, Debug, PartialEq, Eq, Error)]
pub enum StartFault {
    /// There is no node.
    #[error("the network has no node")]
    NoNodes,
    /// There are more or fewer states than nodes.
    #[error("there are more or fewer states than nodes")]
    StateCount,
    /// A state has a word other than 0 after the fields of the program.
    #[error("a state has a value in a field that the program does not have")]
    NotPlain,
    /// The start is above 1,000,000,000.
    #[error("the start is above round 1000000000")]
    TooManyRounds,
}
