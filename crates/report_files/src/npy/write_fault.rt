//! Why words are not written as an array.
ghost use Rattle.std.specs.Prelude.{◌≡◌};
ghost use Rattle.report_files.specs.declared.npy.write_fault.WriteFault.TheVariants.{Memory};

use std::alloc::{AllocError, AllocFailed};
use thiserror::Error;

/// Why words are not written as an array.
#[derive(Clone, Copy, Debug, PartialEq, Eq, Error)]
pub enum WriteFault {
    /// The words are not as many as the shape has elements.
    #[error("the array has not as many elements as its shape")]
    Count,
    /// Memory ran out; the words are as many as the shape has elements.
    #[error("memory ran out")]
    Memory,
}

impl From<AllocError> for WriteFault {
    ghost from_gives = { λ _ e. e ≡ Memory };

    fn from(_error: AllocError) -> WriteFault {
        WriteFault::Memory
    }
}

impl<T: Drop> From<AllocFailed<T>> for WriteFault {
    ghost from_gives = { λ _ e. e ≡ Memory };

    fn from(_error: AllocFailed<T>) -> WriteFault {
        WriteFault::Memory
    }
}
