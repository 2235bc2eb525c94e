//! Why a table is not printed with names.
ghost use Rattle.std.specs.Prelude.{◌≡◌};
ghost use Rattle.report_files.specs.declared.tables.csv_fault.CsvFault.TheVariants.{Memory};

use std::alloc::AllocError;
use thiserror::Error;

/// Why a table is not printed with names. Where several hold, the first in this order.
#[derive(Clone, Copy, Debug, PartialEq, Eq, Error)]
pub enum CsvFault {
    /// There are so many names, and another number of nodes.
    #[error("NameCount")]
    NameCount { names: u32, nodes: usize },
    /// The field at this place of those that are asked to hold nodes, counted from 0, is none of the table's.
    #[error("UnknownField")]
    UnknownField { place: usize },
    /// A field that is asked to hold nodes, by its place in the table, has at this node a value that is no node's number
    /// and not 4294967295.
    #[error("NoNode")]
    NoNode { node: u32, field: usize, value: u32 },
    /// Memory ran out.
    #[error("Memory")]
    Memory,
}

impl From<AllocError> for CsvFault {
    ghost from_gives = { λ _ e. e ≡ Memory };

    fn from(_error: AllocError) -> CsvFault {
        CsvFault::Memory
    }
}
