//! Why a text has no graph.
ghost use Rattle.std.specs.Prelude.{◌≡◌};
ghost use Rattle.import_formats.specs.declared.dot.fault.DotFault.TheVariants.{Memory};

use crate::dot::token_kind::TokenKind;
use import_lines::WeightFault;
use std::alloc::{AllocError, AllocFailed};
use thiserror::Error;

/// What is wrong in a line: with the token, the string or the comment that begins there.
#[derive(Clone, Copy, Debug, PartialEq, Eq, Error)]
pub enum DotLineFault {
    /// A byte with which no token begins, as `+` or a lone `/`.
    #[error("BadByte")]
    BadByte { byte: u8 },
    /// A run of digits, letters and points that begins as a numeral does, and is none.
    #[error("BadNumeral")]
    BadNumeral,
    /// A name or a string is not UTF-8.
    #[error("NotUtf8")]
    NotUtf8,
    /// A string in double quotes that no quote ends.
    #[error("UnclosedString")]
    UnclosedString,
    /// A comment that no `*/` ends.
    #[error("UnclosedComment")]
    UnclosedComment,
    /// A string in angle brackets that no bracket ends.
    #[error("UnclosedHtml")]
    UnclosedHtml,
    /// A token that may not stand here.
    #[error("Syntax")]
    Syntax { found: TokenKind },
    /// The text ends before the graph does.
    #[error("UnclosedGraph")]
    UnclosedGraph,
    /// A directed graph, where it is not to be read as an undirected one.
    #[error("Directed")]
    Directed,
    /// `->` in a graph, or `--` in a digraph.
    #[error("WrongEdge")]
    WrongEdge,
    /// A subgraph is an end of an edge.
    #[error("SubgraphEnd")]
    SubgraphEnd,
    /// Subgraphs are nested more than 64 deep.
    #[error("TooDeep")]
    TooDeep,
    /// No `=` stands after an attribute's name.
    #[error("NoValue")]
    NoValue,
    /// A weight for all edges after it.
    #[error("DefaultWeight")]
    DefaultWeight,
    /// A string in angle brackets as a node's name.
    #[error("HtmlName")]
    HtmlName,
    /// A backslash in a node's name.
    #[error("Escape")]
    Escape,
    /// A control character in a node's name: a byte below 32, or the byte 127.
    #[error("ControlCharacter")]
    ControlCharacter,
    /// The weight is none.
    #[error("{0}")]
    Weight(WeightFault),
}

/// Why a text has no graph.
#[derive(Clone, Copy, Debug, PartialEq, Eq, Error)]
pub enum DotFault {
    /// The first fault of the text, and the line where it stands, counted from 1.
    #[error("line {line}: {fault}")]
    BadLine { line: u64, fault: DotLineFault },
    /// Memory ran out; the text has no fault.
    #[error("Memory")]
    Memory,
}

impl From<AllocError> for DotFault {
    ghost from_gives = { λ _ e. e ≡ Memory };

    fn from(_error: AllocError) -> DotFault {
        DotFault::Memory
    }
}

impl<T: Drop> From<AllocFailed<T>> for DotFault {
    ghost from_gives = { λ _ e. e ≡ Memory };

    fn from(_error: AllocFailed<T>) -> DotFault {
        DotFault::Memory
    }
}
