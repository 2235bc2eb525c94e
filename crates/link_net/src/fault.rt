//! Why a network file is refused.
ghost use Rattle.std.specs.Prelude.{◌≡◌};
ghost use Rattle.link_net.specs.declared.fault.NetFault.TheVariants.{Memory};

use std::alloc::{AllocError, AllocFailed};
use thiserror::Error;

/// Why a network file is refused. Where several hold, the first in this order, and `BadWeight` last.
#[derive(Clone, Copy, Debug, PartialEq, Eq, Error)]
pub enum NetFault {
    /// The bytes are no TOML document.
    #[error("NotToml")]
    NotToml,
    /// A key at the top is none of `nodes`, `links`, `phase` and `set`.
    #[error("UnknownKey")]
    UnknownKey,
    /// `nodes` or `links` is missing, or a value has another shape than its key wants.
    #[error("BadShape")]
    BadShape,
    /// The number of nodes is not from 1 to 65,536.
    #[error("NodeCount")]
    NodeCount,
    /// An end of a link is no node.
    #[error("BadLink")]
    BadLink,
    /// A link joins a node with itself.
    #[error("SelfLink")]
    SelfLink,
    /// Two links join the same two nodes, either way round and whatever their weights.
    #[error("LinkTwice")]
    LinkTwice,
    /// There are more than 262,144 links.
    #[error("TooManyLinks")]
    TooManyLinks,
    /// A node has more than 4,096 neighbours.
    #[error("TooManyNeighbours")]
    TooManyNeighbours,
    /// The phase is not 0, 1 or 2.
    #[error("BadPhase")]
    BadPhase,
    /// Memory ran out.
    #[error("Memory")]
    Memory,
    /// The weight of a link is not from 0 to 4,294,967,295.
    #[error("BadWeight")]
    BadWeight,
}

impl From<AllocError> for NetFault {
    ghost from_gives = { λ _ e. e ≡ Memory };

    fn from(_error: AllocError) -> NetFault {
        NetFault::Memory
    }
}

impl<T: Drop> From<AllocFailed<T>> for NetFault {
    ghost from_gives = { λ _ e. e ≡ Memory };

    fn from(_error: AllocFailed<T>) -> NetFault {
        NetFault::Memory
    }
}
