//! Why a text makes no network.
ghost use Rattle.std.specs.Prelude.{◌≡◌};
ghost use Rattle.import_network.specs.declared.fault.ImportFault.TheVariants.{Memory};
ghost use Rattle.import_network.specs.Faults.{edge_fault, table_fault, matrix_fault, dot_fault, json_fault, join_fault, number_fault, settle_fault};

use import_formats::dot::DotFault;
use import_formats::edges::{EdgeFault, TableFault};
use import_formats::json::JsonFault;
use import_formats::matrix_market::MatrixFault;
use import_links::{JoinFault, NumberFault, SettleFault};
use large_pack::PackFault;
use std::alloc::AllocError;
use thiserror::Error;

/// Why a text makes no network: the fault of the first step that fails. Running out of memory is `Memory`,
/// whichever step it comes in; the faults of the steps that stand here are never their own `Memory`.
#[derive(Clone, Copy, Debug, PartialEq, Eq, Error)]
pub enum ImportFault {
    /// The text is no list of edges.
    #[error("{0}")]
    Edges(EdgeFault),
    /// The text is no table of edges.
    #[error("{0}")]
    Table(TableFault),
    /// The text is no matrix.
    #[error("{0}")]
    Matrix(MatrixFault),
    /// The text is no graph in Graphviz's language.
    #[error("{0}")]
    Dot(DotFault),
    /// The text is no graph in node-link JSON.
    #[error("{0}")]
    Json(JsonFault),
    /// The end of an edge is no name, or there are too many names.
    #[error("{0}")]
    Join(JoinFault),
    /// The end of an edge is no number of a node.
    #[error("{0}")]
    Numbers(NumberFault),
    /// The links make no network.
    #[error("{0}")]
    Settle(SettleFault),
    /// The links are not packed: `NoNode` or `TooManyEdges`.
    #[error("{0}")]
    Packing(PackFault),
    /// Memory ran out.
    #[error("not enough memory")]
    Memory,
}

impl From<AllocError> for ImportFault {
    ghost from_gives = { λ _ e. e ≡ Memory };

    fn from(_error: AllocError) -> ImportFault {
        ImportFault::Memory
    }
}

impl From<EdgeFault> for ImportFault {
    ghost from_gives = { λ fault e. e ≡ edge_fault fault };

    fn from(fault: EdgeFault) -> ImportFault {
        match fault {
            EdgeFault::Memory => ImportFault::Memory,
            _ => ImportFault::Edges(fault),
        }
    }
}

impl From<TableFault> for ImportFault {
    ghost from_gives = { λ fault e. e ≡ table_fault fault };

    fn from(fault: TableFault) -> ImportFault {
        match fault {
            TableFault::Memory => ImportFault::Memory,
            _ => ImportFault::Table(fault),
        }
    }
}

impl From<MatrixFault> for ImportFault {
    ghost from_gives = { λ fault e. e ≡ matrix_fault fault };

    fn from(fault: MatrixFault) -> ImportFault {
        match fault {
            MatrixFault::Memory => ImportFault::Memory,
            _ => ImportFault::Matrix(fault),
        }
    }
}

impl From<DotFault> for ImportFault {
    ghost from_gives = { λ fault e. e ≡ dot_fault fault };

    fn from(fault: DotFault) -> ImportFault {
        match fault {
            DotFault::Memory => ImportFault::Memory,
            _ => ImportFault::Dot(fault),
        }
    }
}

impl From<JsonFault> for ImportFault {
    ghost from_gives = { λ fault e. e ≡ json_fault fault };

    fn from(fault: JsonFault) -> ImportFault {
        match fault {
            JsonFault::Memory => ImportFault::Memory,
            _ => ImportFault::Json(fault),
        }
    }
}

impl From<JoinFault> for ImportFault {
    ghost from_gives = { λ fault e. e ≡ join_fault fault };

    fn from(fault: JoinFault) -> ImportFault {
        match fault {
            JoinFault::Memory => ImportFault::Memory,
            _ => ImportFault::Join(fault),
        }
    }
}

impl From<NumberFault> for ImportFault {
    ghost from_gives = { λ fault e. e ≡ number_fault fault };

    fn from(fault: NumberFault) -> ImportFault {
        match fault {
            NumberFault::Memory => ImportFault::Memory,
            _ => ImportFault::Numbers(fault),
        }
    }
}

impl From<SettleFault> for ImportFault {
    ghost from_gives = { λ fault e. e ≡ settle_fault fault };

    fn from(fault: SettleFault) -> ImportFault {
        match fault {
            SettleFault::Memory => ImportFault::Memory,
            _ => ImportFault::Settle(fault),
        }
    }
}
