//! Why a matrix is not packed.
ghost use Rattle.std.specs.Prelude.{◌≡◌};
ghost use Rattle.import_network.specs.declared.packed_matrix.fault.MatrixPackFault.TheVariants.{Memory};
ghost use Rattle.import_network.specs.MatrixFaults.{matrix_fault, edges_fault};

use import_formats::matrix_market::MatrixFault;
use large_pack::PackFault;
use std::alloc::{AllocError, AllocFailed};
use thiserror::Error;

/// Why a matrix is not packed. Where several things are wrong, the first in this order. Running out of memory is `Memory`;
/// the faults that stand here are never their own `Memory`.
#[derive(Clone, Copy, Debug, PartialEq, Eq, Error)]
pub enum MatrixPackFault {
    /// The text is no matrix.
    #[error("{0}")]
    Matrix(MatrixFault),
    /// The edges of its entries are not packed: `SelfLoop`, `ParallelEdge` or `TooManyEdges`.
    #[error("{0}")]
    Edges(PackFault),
    /// Memory ran out.
    #[error("Memory")]
    Memory,
}

impl From<MatrixFault> for MatrixPackFault {
    ghost from_gives = { λ fault e. e ≡ matrix_fault fault };

    fn from(fault: MatrixFault) -> MatrixPackFault {
        match fault {
            MatrixFault::Memory => MatrixPackFault::Memory,
            _ => MatrixPackFault::Matrix(fault),
        }
    }
}

impl From<PackFault> for MatrixPackFault {
    ghost from_gives = { λ fault e. e ≡ edges_fault fault };

    fn from(fault: PackFault) -> MatrixPackFault {
        match fault {
            PackFault::Memory => MatrixPackFault::Memory,
            _ => MatrixPackFault::Edges(fault),
        }
    }
}

impl From<AllocError> for MatrixPackFault {
    ghost from_gives = { λ _ e. e ≡ Memory };

    fn from(_error: AllocError) -> MatrixPackFault {
        MatrixPackFault::Memory
    }
}

impl<T: Drop> From<AllocFailed<T>> for MatrixPackFault {
    ghost from_gives = { λ _ e. e ≡ Memory };

    fn from(_error: AllocFailed<T>) -> MatrixPackFault {
        MatrixPackFault::Memory
    }
}
