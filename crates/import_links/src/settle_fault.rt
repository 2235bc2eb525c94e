//! Why links make no network.
ghost use Rattle.std.specs.Prelude.{◌≡◌};
ghost use Rattle.import_links.specs.declared.settle_fault.SettleFault.TheVariants.{Memory};

use link_net::NetFault;
use std::alloc::{AllocError, AllocFailed};
use thiserror::Error;

/// Why links make no network. Where several hold, the first in this order.
#[derive(Clone, Copy, Debug, PartialEq, Eq, Error)]
pub enum SettleFault {
    /// A link joins a node with itself, and such links are refused: the line of the first one.
    #[error("line {line}: a node is joined with itself")]
    SelfLoop { line: u64 },
    /// A link joins the same two nodes as an earlier one, and such links are refused: the line of the first one, and that
    /// of the first link that joins these nodes.
    #[error("line {line}: the two nodes are joined on line {first} already")]
    ParallelEdge { line: u64, first: u64 },
    /// The links that are left are not within the bounds of a network: `NodeCount`, `BadLink`, `TooManyLinks` or
    /// `TooManyNeighbours`, in this order.
    #[error("{0}")]
    Net(NetFault),
    /// Memory ran out.
    #[error("not enough memory")]
    Memory,
}

impl From<AllocError> for SettleFault {
    ghost from_gives = { λ _ e. e ≡ Memory };

    fn from(_error: AllocError) -> SettleFault {
        SettleFault::Memory
    }
}

impl<T: Drop> From<AllocFailed<T>> for SettleFault {
    ghost from_gives = { λ _ e. e ≡ Memory };

    fn from(_error: AllocFailed<T>) -> SettleFault {
        SettleFault::Memory
    }
}
