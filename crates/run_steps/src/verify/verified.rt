//! What is found of a trace that holds.

/// What is found of a trace that holds.
#[derive(Drop)]
pub struct Verified {
    /// How many lines say a step.
    pub lines: u64,
    /// How many of them give a value of some field.
    pub valued: u64,
    /// For each node by rising number its count: how often it has moved, the rounds before the start included.
    pub counts: Vec<u32>,
}
