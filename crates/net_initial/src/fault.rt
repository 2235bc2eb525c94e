//! Why openings make no network file.
ghost use Rattle.std.specs.Prelude.{◌≡◌};
ghost use Rattle.net_initial.specs.declared.fault.OpenFault.TheVariants.{Memory};

use std::alloc::{AllocError, AllocFailed};
use thiserror::Error;

/// Why openings make no network file. Where several hold, the first in this order; memory is taken only where none of the
/// first four holds.
#[derive(Clone, Copy, Debug, PartialEq, Eq, Error)]
pub enum OpenFault {
    /// The phase that is asked for is not 0, 1 or 2.
    #[error("BadPhase")]
    BadPhase,
    /// The name of a field of an opening is no name that a program can declare.
    #[error("BadName")]
    BadName,
    /// The name of a field that is to be cleared is no name that a program can declare.
    #[error("BadClear")]
    BadClear,
    /// An opening has a value for a node that the network does not have.
    #[error("NoNode")]
    NoNode,
    /// The file gives a field that an opening names, and that is not cleared, a number that is no node, a value outside 0 to 4,294,967,295, or one
    /// node twice.
    #[error("BadSet")]
    BadSet,
    /// Memory ran out.
    #[error("Memory")]
    Memory,
}

impl From<AllocError> for OpenFault {
    ghost from_gives = { λ _ e. e ≡ Memory };

    fn from(_error: AllocError) -> OpenFault {
        OpenFault::Memory
    }
}

impl<T: Drop> From<AllocFailed<T>> for OpenFault {
    ghost from_gives = { λ _ e. e ≡ Memory };

    fn from(_error: AllocFailed<T>) -> OpenFault {
        OpenFault::Memory
    }
}
