//! Why named nodes have no numbers.
ghost use Rattle.std.specs.Prelude.{◌≡◌};
ghost use Rattle.import_links.specs.declared.join_fault.JoinFault.TheVariants.{Memory};

use std::alloc::{AllocError, AllocFailed};
use thiserror::Error;

/// Why named nodes have no numbers: the first name that is refused.
#[derive(Clone, Copy, Debug, PartialEq, Eq, Error)]
pub enum JoinFault {
    /// It is no name: it is empty, has more than 65,536 bytes, or has a control character.
    #[error("line {line}: not a name")]
    BadName { line: u64 },
    /// With it there are more names than there may be.
    #[error("line {line}: there are more nodes than there may be")]
    TooManyNodes { line: u64 },
    /// Memory ran out.
    #[error("not enough memory")]
    Memory,
}

impl From<AllocError> for JoinFault {
    ghost from_gives = { λ _ e. e ≡ Memory };

    fn from(_error: AllocError) -> JoinFault {
        JoinFault::Memory
    }
}

impl<T: Drop> From<AllocFailed<T>> for JoinFault {
    ghost from_gives = { λ _ e. e ≡ Memory };

    fn from(_error: AllocFailed<T>) -> JoinFault {
        JoinFault::Memory
    }
}
