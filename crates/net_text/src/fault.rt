//! Why rows have no network file.
ghost use Rattle.std.specs.Prelude.{◌≡◌};
ghost use Rattle.net_text.specs.declared.fault.RowsFault.TheVariants.{Memory};
ghost use Rattle.net_text.specs.Faults.{fault_as};

use link_net::NetFault;
use std::alloc::AllocError;
use thiserror::Error;

/// Why no network file has rows of neighbours. Where several hold, the first in this order; `Memory` comes only where
/// memory runs out.
#[derive(Clone, Copy, Debug, PartialEq, Eq, Error)]
pub enum RowsFault {
    /// The links, each taken from the lower of its ends, are none of a network file, for this reason: `NodeCount`,
    /// `SelfLink`, `LinkTwice`, `TooManyLinks` or `TooManyNeighbours`.
    #[error("{0}")]
    Links(NetFault),
    /// A neighbour has the link not at all, with another weight, or at another place than by rising number.
    #[error("a link leads one way, has two weights, or stands at another place than by rising number")]
    OneWay,
    /// Out of memory.
    #[error("not enough memory")]
    Memory,
}

impl From<AllocError> for RowsFault {
    ghost from_gives = { λ _ e. e ≡ Memory };

    fn from(_error: AllocError) -> RowsFault {
        RowsFault::Memory
    }
}

impl From<NetFault> for RowsFault {
    ghost from_gives = { λ fault e. e ≡ fault_as fault };

    fn from(fault: NetFault) -> RowsFault {
        match fault {
            NetFault::Memory => RowsFault::Memory,
            fault => RowsFault::Links(fault),
        }
    }
}
