//! Why there is no data.
ghost use Rattle.std.specs.Prelude.{◌≡◌};
ghost use Rattle.run_page.specs.declared.fault.PageFault.TheVariants.{Memory};
ghost use Rattle.run_page.specs.Refusals.{from_opening};

use std::alloc::AllocError;
use thiserror::Error;
use unison_world::OpenFault;

/// Why there is no data of a run. Where several hold, the first in this order; `Memory` comes only where no other holds,
/// but for the `TooManyValues` of steps, which is known only after the steps.
#[derive(Clone, Copy, Debug, PartialEq, Eq, Error)]
pub enum PageFault {
    /// The last round is above 1,000,000,000.
    #[error("TooManyRounds")]
    TooManyRounds,
    /// The first round lies before the plan's start.
    #[error("RoundsBelowStart")]
    RoundsBelowStart,
    /// The stop of the steps is above 1,000,000,000.
    #[error("StopTooLarge")]
    StopTooLarge,
    /// The stop of the steps lies before the plan's start.
    #[error("StopBelowStart")]
    StopBelowStart,
    /// The program has no field at this place.
    #[error("NoField")]
    NoField { place: u32 },
    /// The data has more than 20,000,000 values.
    #[error("TooManyValues")]
    TooManyValues,
    /// Out of memory.
    #[error("Memory")]
    Memory,
}

impl From<AllocError> for PageFault {
    ghost from_gives = { λ _ e. e ≡ Memory };

    fn from(_error: AllocError) -> PageFault {
        PageFault::Memory
    }
}

impl From<OpenFault> for PageFault {
    ghost from_gives = { λ fault e. e ≡ from_opening fault };

    fn from(fault: OpenFault) -> PageFault {
        match fault {
            OpenFault::StopTooLarge => PageFault::StopTooLarge,
            OpenFault::StopBelowStart => PageFault::StopBelowStart,
            OpenFault::Memory => PageFault::Memory,
        }
    }
}
