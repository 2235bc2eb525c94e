//! Openings: values that fields get at nodes.
use link_net::Name;

/// Which nodes get a value.
#[derive(Drop)]
pub enum Chosen {
    /// All nodes of the network.
    Every,
    /// One node.
    One(u32),
    /// The nodes from one to another, both included; none where the first comes after the last.
    Range { first: u32, last: u32 },
    /// These nodes, in any order.
    These(Vec<u32>),
}

/// Which values nodes get, each from 0 to 4,294,967,295.
#[derive(Drop)]
pub enum Values {
    /// The same value at some nodes.
    Same { nodes: Chosen, value: u32 },
    /// A value for each node from node 0 on, in the order of their numbers.
    Each(Vec<u32>),
}

/// The values that a field gets at some nodes.
#[derive(Drop)]
pub struct Opening {
    pub field: Name,
    pub values: Values,
}
