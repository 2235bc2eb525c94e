//! Why a network file is refused, with the place.
ghost use Rattle.std.specs.Prelude.{◌≡◌};
ghost use Rattle.link_net.specs.Causes.{fault_of};

use crate::NetFault;

/// Why a network file is refused, with the place. Links, and entries of arrays, are counted from 0 in the file's order.
#[derive(Drop)]
pub enum NetCause {
    /// The bytes are no TOML document: the byte at which the reader of TOML stopped, counted from 0, and what it says.
    NotToml { at: usize, message: String },
    /// This key at the top is none of `nodes`, `links`, `phase` and `set`.
    UnknownKey { key: String },
    /// `nodes` is missing.
    NodesMissing,
    /// `nodes` is no integer.
    NodesShape,
    /// `links` is missing.
    LinksMissing,
    /// `links` is no array.
    LinksShape,
    /// This entry of `links` is no array of two or three integers.
    LinkShape { link: usize },
    /// `phase` is no integer.
    PhaseShape,
    /// `set` is no table.
    SetShape,
    /// The value of this key of `set` is no array.
    SetValueShape { key: String },
    /// This entry of the value of this key of `set` is no array of two integers.
    PairShape { key: String, entry: usize },
    /// The number of nodes is not from 1 to 65,536.
    NodeCount { nodes: i64 },
    /// An end of this link is no node.
    BadLink { link: usize },
    /// This link joins a node with itself.
    SelfLink { link: usize },
    /// This link joins the same two nodes as an earlier one.
    LinkTwice { link: usize, earlier: usize },
    /// There are so many links, more than 262,144.
    TooManyLinks { links: usize },
    /// This node has so many neighbours, more than 4,096.
    TooManyNeighbours { node: u32, neighbours: usize },
    /// The phase is not 0, 1 or 2.
    BadPhase { phase: i64 },
    /// The weight of this link is not from 0 to 4,294,967,295.
    BadWeight { link: usize },
}

impl NetCause {
    /// The fault that `read_network` answers for this cause.
    pub fn fault(&self) -> NetFault
        ensures exact { result ≡ fault_of self.now }
    {
        match self {
            NetCause::NotToml { .. } => NetFault::NotToml,
            NetCause::UnknownKey { .. } => NetFault::UnknownKey,
            NetCause::NodesMissing => NetFault::BadShape,
            NetCause::NodesShape => NetFault::BadShape,
            NetCause::LinksMissing => NetFault::BadShape,
            NetCause::LinksShape => NetFault::BadShape,
            NetCause::LinkShape { .. } => NetFault::BadShape,
            NetCause::PhaseShape => NetFault::BadShape,
            NetCause::SetShape => NetFault::BadShape,
            NetCause::SetValueShape { .. } => NetFault::BadShape,
            NetCause::PairShape { .. } => NetFault::BadShape,
            NetCause::NodeCount { .. } => NetFault::NodeCount,
            NetCause::BadLink { .. } => NetFault::BadLink,
            NetCause::SelfLink { .. } => NetFault::SelfLink,
            NetCause::LinkTwice { .. } => NetFault::LinkTwice,
            NetCause::TooManyLinks { .. } => NetFault::TooManyLinks,
            NetCause::TooManyNeighbours { .. } => NetFault::TooManyNeighbours,
            NetCause::BadPhase { .. } => NetFault::BadPhase,
            NetCause::BadWeight { .. } => NetFault::BadWeight,
        }
    }
}
