//! Why bytes are not read as an array.
ghost use Rattle.std.specs.Prelude.{◌≡◌};
ghost use Rattle.report_files.specs.declared.npy.fault.NpyFault.TheVariants.{Memory};

use std::alloc::{AllocError, AllocFailed};
use thiserror::Error;

/// Why bytes are not read as an array. Where several hold, the first in this order.
#[derive(Clone, Copy, Debug, PartialEq, Eq, Error)]
pub enum NpyFault {
    /// The first six bytes are not 147 and `NUMPY`.
    #[error("the file does not begin as NumPy's files do")]
    Magic,
    /// The version is neither 1.0 nor 2.0.
    #[error("the version of the file is neither 1.0 nor 2.0")]
    Version,
    /// The header is cut off, or is not spelled as NumPy spells it, with a plain type.
    #[error("the header is cut off or not spelled as NumPy spells it")]
    Header,
    /// The type is none of those that are read.
    #[error("the type is none of '|u1', '<u2', '<u4', '<u8', '<i4' and '<i8'")]
    Kind,
    /// The array has not one axis, or one with more than 4,294,967,295 elements.
    #[error("the array has not one axis of 4294967295 elements at most")]
    Shape,
    /// Behind the header stand so many bytes, and not as many as it asks for.
    #[error("{found} bytes stand behind the header, which asks for {expected}")]
    Length { expected: u64, found: u64 },
    /// The element at this place, counted from 0, is below 0 or above 4,294,967,295.
    #[error("element {place} is not from 0 to 4294967295")]
    Value { place: u32 },
    /// Memory ran out; nothing else is wrong with the file.
    #[error("memory ran out")]
    Memory,
}

impl From<AllocError> for NpyFault {
    ghost from_gives = { λ _ e. e ≡ Memory };

    fn from(_error: AllocError) -> NpyFault {
        NpyFault::Memory
    }
}

impl<T: Drop> From<AllocFailed<T>> for NpyFault {
    ghost from_gives = { λ _ e. e ≡ Memory };

    fn from(_error: AllocFailed<T>) -> NpyFault {
        NpyFault::Memory
    }
}
