//! Why a shape has no network.
ghost use Rattle.std.specs.Prelude.{◌≡◌};
ghost use Rattle.net_shapes.specs.declared.large.fault.LargeShapeFault.TheVariants.{Memory};

use std::alloc::AllocError;
use thiserror::Error;

/// Why a shape has no network. Where several hold, the first in this order; `Memory` comes only where no other holds.
#[derive(Clone, Copy, Debug, PartialEq, Eq, Error)]
pub enum LargeShapeFault {
    /// The shape has no node, or is a ring of fewer than three nodes, a torus with a side of fewer than three, a bipartite
    /// network with an empty side, or a tree of arity 0.
    #[error("the shape has too few nodes")]
    TooFewNodes,
    /// The shape has more than 4,294,967,295 nodes.
    #[error("the shape has more than 4294967295 nodes")]
    TooManyNodes,
    /// Out of memory.
    #[error("not enough memory")]
    Memory,
}

impl From<AllocError> for LargeShapeFault {
    ghost from_gives = { λ _ e. e ≡ Memory };

    fn from(_error: AllocError) -> LargeShapeFault {
        LargeShapeFault::Memory
    }
}
