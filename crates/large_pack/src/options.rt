//! How a list of edges is packed.

/// What is done with edges that join a node with itself.
#[derive(Clone, Copy, Debug, PartialEq, Eq)]
pub enum SelfLoops {
    /// The first one is a fault.
    Refuse,
    /// They are left out.
    Drop,
    /// They stay. A node with one is a neighbour of its own, once.
    Keep,
}

/// What is done with edges that join the same two nodes: in the same direction where edges have one, either way round
/// where they have none.
#[derive(Clone, Copy, Debug, PartialEq, Eq)]
pub enum Parallel {
    /// The first one that joins what an earlier one joins is a fault.
    Refuse,
    /// They stay, each a neighbour.
    Keep,
    /// One of the least weight stays.
    Least,
    /// One of the greatest weight stays.
    Greatest,
    /// The one that stands first stays.
    First,
}

/// How a list of edges is read and packed.
#[derive(Clone, Copy, Debug)]
pub struct PackOptions {
    /// How many nodes there are. None: one more than the greatest number of an end.
    pub nodes: Option<u32>,
    /// Whether an edge `a b` makes b a neighbour of a alone, and not a one of b too.
    pub is_directed: bool,
    /// Whether each edge is turned round: `a b` is read as `b a`.
    pub reverse: bool,
    /// What each weight is multiplied by, and whether decimal ones are taken. None: a weight is a whole number. Some: it
    /// is any number, times this, rounded to the nearest whole number.
    pub factor: Option<u32>,
    /// Whether the first line that says something is a header. A header is passed over, whatever stands in it.
    pub header: bool,
    /// What is done with self-loops.
    pub self_loops: SelfLoops,
    /// What is done with edges that join the same two nodes.
    pub parallel: Parallel,
}
