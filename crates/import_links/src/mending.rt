//! What becomes of links that no network has.
use crate::kept::Kept;

/// What becomes of links of a node with itself.
#[derive(Clone, Copy)]
pub enum SelfLoops {
    /// They are refused.
    Refused,
    /// They are dropped.
    Dropped,
}

/// What becomes of links that join the same two nodes.
#[derive(Clone, Copy)]
pub enum ParallelLinks {
    /// They are refused.
    Refused,
    /// One link stands in their place.
    Merged(Kept),
}

/// What becomes of links that no network has.
#[derive(Clone, Copy)]
pub struct Mending {
    pub self_loops: SelfLoops,
    pub parallel: ParallelLinks,
}
