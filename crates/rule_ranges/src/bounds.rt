//! What bounds the numbers that a program reads beside states.

/// The greatest numbers that the nodes of a network have in a run.
#[derive(Clone, Copy)]
pub struct Bounds {
    /// The greatest number of a node.
    pub id: u32,
    /// The greatest number of neighbours of a node.
    pub degree: u32,
    /// The greatest weight of a link; 0 where there are no links.
    pub weight: u32,
    /// The greatest round that a step starts from.
    pub round: u32,
}
