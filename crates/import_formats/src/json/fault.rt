//! Why a text has no graph.
ghost use Rattle.std.specs.Prelude.{◌≡◌};
ghost use Rattle.import_formats.specs.declared.json.fault.JsonFault.TheVariants.{Memory};
ghost use Rattle.import_formats.specs.json.Graphs.{key_of, list_key};

use import_lines::WeightFault;
use std::alloc::{AllocError, AllocFailed};
use thiserror::Error;

/// An end of a link.
#[derive(Clone, Copy, Debug, PartialEq, Eq)]
pub enum LinkEnd {
    Source,
    Target,
}

impl LinkEnd {
    /// The name of the member that says it.
    pub fn key(self) -> &'static str
        ensures key { result.now ≡ key_of self }
    {
        match self {
            LinkEnd::Source => "source",
            LinkEnd::Target => "target",
        }
    }
}

/// The member of a graph that lists its links.
#[derive(Clone, Copy, Debug, PartialEq, Eq)]
pub enum LinkList {
    Links,
    Edges,
}

impl LinkList {
    /// The name of the member.
    pub fn key(self) -> &'static str
        ensures key { result.now ≡ list_key self }
    {
        match self {
            LinkList::Links => "links",
            LinkList::Edges => "edges",
        }
    }
}

/// What is wrong with the id of a node.
#[derive(Clone, Copy, Debug, PartialEq, Eq, Error)]
pub enum IdFault {
    /// There is no such member.
    #[error("NoId")]
    NoId,
    /// It is no string and no whole number from 0 to 2 to the power of 64, less 1.
    #[error("BadId")]
    BadId,
}

/// What is wrong with a node. Where several things are, the first in this order.
#[derive(Clone, Copy, Debug, PartialEq, Eq, Error)]
pub enum NodeFault {
    /// Its `id` is none.
    #[error("{0}")]
    Id(IdFault),
    /// An earlier node is called so too.
    #[error("SameName")]
    SameName,
    /// Its `id` is no name: it is empty, has more than 65,536 bytes, or has a control character.
    #[error("BadName")]
    BadName,
    /// With it there are more nodes than there may be.
    #[error("TooManyNodes")]
    TooManyNodes,
}

/// What is wrong with a link. Where several things are, the first in this order, and of its ends `source` before `target`.
#[derive(Clone, Copy, Debug, PartialEq, Eq, Error)]
pub enum LinkFault {
    /// An end is no id.
    #[error("{fault}")]
    End { end: LinkEnd, fault: IdFault },
    /// No node has the id of an end.
    #[error("NoNode")]
    NoNode { end: LinkEnd },
    /// The weight is none.
    #[error("{0}")]
    Weight(WeightFault),
}

/// Why a text has no graph. Where several things are wrong, the first in this order.
#[derive(Clone, Copy, Debug, PartialEq, Eq, Error)]
pub enum JsonFault {
    /// The text is not UTF-8.
    #[error("NotUtf8")]
    NotUtf8,
    /// The text is no JSON. About where: the line, counted from 1, and the column.
    #[error("line {line}: no JSON")]
    NotJson {
        line: u64,
        column: u64,
    },
    /// The graph is directed, and is not to be read as an undirected one.
    #[error("Directed")]
    Directed,
    /// There is no list `nodes`.
    #[error("NoNodes")]
    NoNodes,
    /// There is no list `links` and no list `edges`.
    #[error("NoLinks")]
    NoLinks,
    /// The first bad node: its place in `nodes`, counted from 0, and what is wrong with it.
    #[error("nodes[{place}]: {fault}")]
    BadNode {
        place: u64,
        fault: NodeFault,
    },
    /// The first bad link: the list, its place there, counted from 0, and what is wrong with it.
    #[error("links[{place}]: {fault}")]
    BadLink {
        list: LinkList,
        place: u64,
        fault: LinkFault,
    },
    /// Memory ran out.
    #[error("Memory")]
    Memory,
}

impl From<AllocError> for JsonFault {
    ghost from_gives = { λ _ e. e ≡ Memory };

    fn from(_error: AllocError) -> JsonFault {
        JsonFault::Memory
    }
}

impl<T: Drop> From<AllocFailed<T>> for JsonFault {
    ghost from_gives = { λ _ e. e ≡ Memory };

    fn from(_error: AllocFailed<T>) -> JsonFault {
        JsonFault::Memory
    }
}
