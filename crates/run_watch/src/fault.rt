//! Why rounds are not watched.
ghost use Rattle.std.specs.Prelude.{◌≡◌};
ghost use Rattle.run_watch.specs.declared.fault.WatchFault.TheVariants.{Memory};

use std::alloc::AllocError;
use thiserror::Error;

/// Why rounds are not watched. Where several hold, the first in this order; `Memory` comes only where no other holds.
#[derive(Clone, Copy, Debug, PartialEq, Eq, Error)]
pub enum WatchFault {
    /// The last round is above 1,000,000,000.
    #[error("TooManyRounds")]
    TooManyRounds,
    /// The first round lies before the plan's start.
    #[error("RoundsBelowStart")]
    RoundsBelowStart,
    /// The program has no field at this place.
    #[error("NoField")]
    NoField { place: u32 },
    /// Out of memory.
    #[error("Memory")]
    Memory,
}

impl From<AllocError> for WatchFault {
    ghost from_gives = { λ _ e. e ≡ Memory };

    fn from(_error: AllocError) -> WatchFault {
        WatchFault::Memory
    }
}
