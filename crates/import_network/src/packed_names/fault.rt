//! Why a list of edges between named nodes is not packed.
ghost use Rattle.std.specs.Prelude.{◌≡◌};
ghost use Rattle.import_network.specs.declared.packed_names.fault.NamesPackFault.TheVariants.{Memory};
ghost use Rattle.import_network.specs.NamesFaults.{lines_fault, names_fault, edges_fault};

use import_formats::edges::EdgeFault;
use large_pack::PackFault;
use net_names::NameListFault;
use std::alloc::{AllocError, AllocFailed};
use thiserror::Error;

/// Why a list of edges between named nodes is not packed. Where several things are wrong, the first in this order, but for
/// `NoNode` and `SelfLoop` of the edges, which stand before `TooManyNames`. Running out of memory is `Memory`; the faults
/// that stand here are never their own `Memory`.
#[derive(Clone, Copy, Debug, PartialEq, Eq, Error)]
pub enum NamesPackFault {
    /// The text is no list of edges.
    #[error("{0}")]
    Lines(EdgeFault),
    /// There are more than 4,294,967,295 names.
    #[error("TooManyNames")]
    TooManyNames,
    /// The edges are not packed: `NoNode` where there is none, `SelfLoop`, `ParallelEdge` or `TooManyEdges`.
    #[error("{0}")]
    Edges(PackFault),
    /// Memory ran out.
    #[error("Memory")]
    Memory,
}

impl From<EdgeFault> for NamesPackFault {
    ghost from_gives = { λ fault e. e ≡ lines_fault fault };

    fn from(fault: EdgeFault) -> NamesPackFault {
        match fault {
            EdgeFault::Memory => NamesPackFault::Memory,
            _ => NamesPackFault::Lines(fault),
        }
    }
}

impl From<NameListFault> for NamesPackFault {
    ghost from_gives = { λ fault e. e ≡ names_fault fault };

    fn from(fault: NameListFault) -> NamesPackFault {
        match fault {
            NameListFault::TooManyNames => NamesPackFault::TooManyNames,
            NameListFault::Memory => NamesPackFault::Memory,
        }
    }
}

impl From<PackFault> for NamesPackFault {
    ghost from_gives = { λ fault e. e ≡ edges_fault fault };

    fn from(fault: PackFault) -> NamesPackFault {
        match fault {
            PackFault::Memory => NamesPackFault::Memory,
            _ => NamesPackFault::Edges(fault),
        }
    }
}

impl From<AllocError> for NamesPackFault {
    ghost from_gives = { λ _ e. e ≡ Memory };

    fn from(_error: AllocError) -> NamesPackFault {
        NamesPackFault::Memory
    }
}

impl<T: Drop> From<AllocFailed<T>> for NamesPackFault {
    ghost from_gives = { λ _ e. e ≡ Memory };

    fn from(_error: AllocFailed<T>) -> NamesPackFault {
        NamesPackFault::Memory
    }
}
