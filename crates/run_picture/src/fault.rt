//! Why there is no picture.
ghost use Rattle.std.specs.Prelude.{◌≡◌};
ghost use Rattle.run_picture.specs.declared.fault.PictureFault.TheVariants.{Memory};

use std::alloc::{AllocError, AllocFailed};
use thiserror::Error;

/// Why there is no picture. Where several hold, the first in this order, but that of pictures for each round `NoWidth` comes
/// after `TooManyFrames`; `Memory` comes only where no other holds, but for `TooManyValues`, which is known only after the
/// rounds.
#[derive(Clone, Copy, Debug, PartialEq, Eq, Error)]
pub enum PictureFault {
    /// The last round is above 1,000,000,000.
    #[error("TooManyRounds")]
    TooManyRounds,
    /// The first round lies before the plan's start.
    #[error("RoundsBelowStart")]
    RoundsBelowStart,
    /// The program has no field at this place.
    #[error("NoField")]
    NoField { place: u32 },
    /// The rows are to have no cells.
    #[error("NoWidth")]
    NoWidth,
    /// There would be more than 1,000,000 cells.
    #[error("TooManyCells")]
    TooManyCells,
    /// A moving picture would have more than 10,000 frames, or more than 10,000 rounds a picture of their own.
    #[error("TooManyFrames")]
    TooManyFrames,
    /// Networks would be drawn with more than 1,000,000 lines of links in all.
    #[error("TooManyLinks")]
    TooManyLinks,
    /// There would be a single round, of which no curve is drawn.
    #[error("OneRound")]
    OneRound,
    /// A curve would have more than 10,000 points.
    #[error("TooManyPoints")]
    TooManyPoints,
    /// There would be more than 64 curves, one for each value that occurs.
    #[error("TooManyValues")]
    TooManyValues,
    /// Out of memory.
    #[error("Memory")]
    Memory,
}

impl From<AllocError> for PictureFault {
    ghost from_gives = { λ _ e. e ≡ Memory };

    fn from(_error: AllocError) -> PictureFault {
        PictureFault::Memory
    }
}
