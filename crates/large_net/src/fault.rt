//! Why bytes are no network file.
ghost use Rattle.std.specs.Prelude.{◌≡◌};
ghost use Rattle.large_net.specs.declared.fault.LargeFault.TheVariants.{Memory};

use std::alloc::{AllocError, AllocFailed};
use thiserror::Error;

/// Why bytes are no network file. Where several hold, the first in this order. Nodes, and the neighbours of all nodes
/// together, are counted from 0.
#[derive(Clone, Copy, Debug, PartialEq, Eq, Error)]
pub enum LargeFault {
    /// The first eight bytes are not `UNISONW1`.
    #[error("the file does not begin with UNISONW1")]
    Magic,
    /// There are fewer than 32 bytes, or the flags, bytes 24 to 31, are above 3.
    #[error("the header is cut off or its flags are above 3")]
    Header,
    /// The number of nodes is not from 1 to 4,294,967,295.
    #[error("{nodes} nodes: there may be 1 to 4294967295")]
    NodeCount { nodes: u64 },
    /// The file has so many bytes, and not as many as its header asks for, or fewer where something follows. Where that is more than
    /// 18,446,744,073,709,551,615, that number stands for it.
    #[error("the file has {found} bytes, and its header asks for {expected}")]
    Length { expected: u64, found: u64 },
    /// The offsets of this node are bad: node 0 does not begin at 0, or the next offset is lower than this one; or, at
    /// the number after the last node, the last offset is not the number of neighbours.
    #[error("the offsets are bad at node {node}")]
    Offsets { node: u64 },
    /// This node has more than 4,294,967,295 neighbours.
    #[error("node {node} has more than 4294967295 neighbours")]
    TooManyNeighbours { node: u64 },
    /// At this place in the list of all neighbours stands a number that is no node.
    #[error("entry {end} of the list of neighbours is no node")]
    Neighbour { end: u64 },
    /// Memory ran out; nothing else is wrong with the file.
    #[error("memory ran out")]
    Memory,
}

impl From<AllocError> for LargeFault {
    ghost from_gives = { λ _ e. e ≡ Memory };

    fn from(_error: AllocError) -> LargeFault {
        LargeFault::Memory
    }
}

impl<T: Drop> From<AllocFailed<T>> for LargeFault {
    ghost from_gives = { λ _ e. e ≡ Memory };

    fn from(_error: AllocFailed<T>) -> LargeFault {
        LargeFault::Memory
    }
}
