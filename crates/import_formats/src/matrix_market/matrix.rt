//! Networks of texts, and how they are read.

use import_links::PlacedLink;

/// What is done with the direction that edges of a general matrix have.
#[derive(Clone, Copy, Debug, PartialEq, Eq)]
pub enum Direction {
    /// The matrix is refused.
    Refused,
    /// It is left aside: the edges have none.
    LeftAside,
    /// It is kept.
    Kept,
}

/// How the entries of a text are read.
#[derive(Clone, Copy, Debug)]
pub struct EntryReading {
    /// The most nodes that there may be.
    pub most_nodes: u32,
    /// What is done with the direction of edges.
    pub direction: Direction,
    /// What values are multiplied by. Without it a value is a whole number.
    pub factor: Option<u32>,
}

/// A network of a text.
#[derive(Drop)]
pub struct Matrix {
    /// How many nodes there are.
    pub nodes: u32,
    /// Whether the edges have a direction: from the row of an entry to its column.
    pub is_directed: bool,
    /// The links of the entries, in the order of their lines.
    pub links: Vec<PlacedLink>,
}
