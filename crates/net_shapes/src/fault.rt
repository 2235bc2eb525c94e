//! Why a shape has no network.
ghost use Rattle.std.specs.Prelude.{◌≡◌};
ghost use Rattle.net_shapes.specs.declared.fault.ShapeFault.TheVariants.{Memory};

use std::alloc::AllocError;
use thiserror::Error;

/// Why a shape has no network. Where several hold, the first in this order.
#[derive(Clone, Copy, Debug, PartialEq, Eq, Error)]
pub enum ShapeFault {
    /// The shape is smaller than it needs to be, as a ring of two nodes, or has more than 65,536 nodes.
    #[error("NodeCount")]
    NodeCount,
    /// The shape has more than 262,144 links.
    #[error("TooManyLinks")]
    TooManyLinks,
    /// A node of the shape has more than 4,096 neighbours.
    #[error("TooManyNeighbours")]
    TooManyNeighbours,
    /// Memory ran out.
    #[error("Memory")]
    Memory,
}

impl From<AllocError> for ShapeFault {
    ghost from_gives = { λ _ e. e ≡ Memory };

    fn from(_error: AllocError) -> ShapeFault {
        ShapeFault::Memory
    }
}
