//! Why there is no answer.
ghost use Rattle.std.specs.Prelude.{◌≡◌};
ghost use Rattle.run_settle.specs.declared.fault.SettleFault.TheVariants.{Memory};

use std::alloc::AllocError;
use thiserror::Error;

/// Why there is no answer. Where several hold, the first in this order; `Memory` comes only where no other holds.
#[derive(Clone, Copy, Debug, PartialEq, Eq, Error)]
pub enum SettleFault {
    /// The program reads the number of the round, so that equal states need not lead to equal states.
    #[error("the program reads the number of the round")]
    ReadsRound,
    /// The limit is above 1,000,000,000.
    #[error("the limit is above 1000000000")]
    LimitTooLarge,
    /// The limit lies before the plan's start.
    #[error("the limit lies before the start of the plan")]
    LimitBelowStart,
    /// Out of memory.
    #[error("not enough memory")]
    Memory,
}

impl From<AllocError> for SettleFault {
    ghost from_gives = { λ _ e. e ≡ Memory };

    fn from(_error: AllocError) -> SettleFault {
        SettleFault::Memory
    }
}
