//! Why a random network is not drawn.
ghost use Rattle.std.specs.Prelude.{◌≡◌};
ghost use Rattle.net_random.specs.declared.fault.RandomFault.TheVariants.{Memory};

use std::alloc::{AllocError, AllocFailed};
use thiserror::Error;

/// Why a random network is not drawn. Where several hold, the first in this order.
#[derive(Clone, Copy, Debug, PartialEq, Eq, Error)]
pub enum RandomFault {
    /// There is no node, or there are more than the bounds allow: of a network file, 65,536.
    #[error("NodeCount")]
    NodeCount,
    /// There are to be more links than the bounds allow, of a network file 262,144, or than there are pairs of nodes.
    #[error("TooManyLinks")]
    TooManyLinks,
    /// A regular network of an odd number of nodes, each with an odd number of neighbours: links have two ends.
    #[error("OddEnds")]
    OddEnds,
    /// A node of the links that were drawn has more than 4,096 neighbours.
    #[error("TooManyNeighbours")]
    TooManyNeighbours,
    /// Links that were drawn by trial make no regular network; another seed may draw such ones.
    #[error("Undrawn")]
    Undrawn,
    /// Memory ran out.
    #[error("Memory")]
    Memory,
}

impl From<AllocError> for RandomFault {
    ghost from_gives = { λ _ e. e ≡ Memory };

    fn from(_error: AllocError) -> RandomFault {
        RandomFault::Memory
    }
}

impl<T: Drop> From<AllocFailed<T>> for RandomFault {
    ghost from_gives = { λ _ e. e ≡ Memory };

    fn from(_error: AllocFailed<T>) -> RandomFault {
        RandomFault::Memory
    }
}
