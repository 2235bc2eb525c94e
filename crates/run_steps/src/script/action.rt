//! Actions that lines say.

/// What a line lets nodes do.
#[derive(Clone, Copy)]
pub(crate) enum Action {
    /// A node reads the neighbour at one of its slots.
    ReadSlot { node: u32, slot: u32 },
    /// A node reads all its slots by rising number.
    ReadAll { node: u32 },
    /// A node moves.
    Move { node: u32 },
    /// A node reads all its slots and then moves.
    Turn { node: u32 },
    /// A turn of each node by rising number.
    Sweep,
}
