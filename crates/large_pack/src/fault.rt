//! Why a list of edges is not packed.
ghost use Rattle.std.specs.Prelude.{◌≡◌};
ghost use Rattle.large_pack.specs.declared.fault.PackFault.TheVariants.{Memory};

use import_lines::{WeightFault, WordsFault};
use std::alloc::{AllocError, AllocFailed};
use thiserror::Error;

/// One of the two ends of an edge, as they stand in its line.
#[derive(Clone, Copy, Debug, PartialEq, Eq)]
pub enum End {
    First,
    Second,
}

/// What is wrong with a word that is to say the number of a node. Where several things are, the first in this order.
#[derive(Clone, Copy, Debug, PartialEq, Eq, Error)]
pub enum NodeFault {
    /// The word is no whole number: decimal digits alone.
    #[error("BadNode")]
    BadNode,
    /// The number is greater than 4,294,967,294.
    #[error("NodeTooLarge")]
    NodeTooLarge,
}

/// What is wrong with a line. Where several things are, the first in this order, the first end before the second.
#[derive(Clone, Copy, Debug, PartialEq, Eq, Error)]
pub enum LineFault {
    /// The line is not two or three words that may be shown.
    #[error("{0}")]
    Words(WordsFault),
    /// The word at this end says no number of a node.
    #[error("{end:?} {fault}")]
    Node { end: End, fault: NodeFault },
    /// The third word says no weight.
    #[error("{0}")]
    Weight(WeightFault),
}

/// Why a list of edges is not packed. Where several things are, the first in this order.
#[derive(Clone, Copy, Debug, PartialEq, Eq, Error)]
pub enum PackFault {
    /// The first bad line, counted from 1, and what is wrong with it.
    #[error("line {line}: {fault}")]
    BadLine { line: u64, fault: LineFault },
    /// There is no node: the number of nodes is given as 0, or it is not given and there is no edge.
    #[error("NoNode")]
    NoNode,
    /// The first line with an end that is not below the given number of nodes, and that end, the first of the two.
    #[error("line {line}: NodeOutside {node}")]
    NodeOutside { line: u64, node: u32 },
    /// The first line that joins a node with itself, where that is refused.
    #[error("line {line}: SelfLoop")]
    SelfLoop { line: u64 },
    /// The first line that joins two nodes that an earlier one joins, where that is refused, and the first such line.
    #[error("line {line}: ParallelEdge of line {earlier}")]
    ParallelEdge { line: u64, earlier: u64 },
    /// The nodes would have more than 4,294,967,295 neighbours together.
    #[error("TooManyEdges")]
    TooManyEdges,
    /// Memory ran out.
    #[error("Memory")]
    Memory,
}

impl From<AllocError> for PackFault {
    ghost from_gives = { λ _ e. e ≡ Memory };

    fn from(_error: AllocError) -> PackFault {
        PackFault::Memory
    }
}

impl<T: Drop> From<AllocFailed<T>> for PackFault {
    ghost from_gives = { λ _ e. e ≡ Memory };

    fn from(_error: AllocFailed<T>) -> PackFault {
        PackFault::Memory
    }
}
