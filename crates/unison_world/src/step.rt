//! Steps, and what a world answers.

/// One event: a node reads the register of the neighbour at one of its slots, or writes its own.
#[derive(Clone, Copy, Debug, PartialEq, Eq)]
pub enum Step {
    Read { node: u32, slot: u32 },
    Write { node: u32 },
}

/// What a world answers to a step.
#[derive(Clone, Copy, Debug, PartialEq, Eq)]
pub enum Answer {
    /// The slot is marked now, and the neighbour's state is in the sums.
    Taken,
    /// The neighbour has moved less often than the node.
    Behind,
    /// The slot was marked before.
    Already,
    /// The node has moved, and has no slot marked.
    Moved,
    /// Some slot of the node isn't marked.
    NotReady,
    /// The node stands at the stop.
    Stopped,
    /// There is no such node.
    NoNode,
    /// The node has no such slot.
    NoSlot,
}

/// What a world answers to a whole turn of a node.
#[derive(Clone, Copy, Debug, PartialEq, Eq)]
pub enum TurnAnswer {
    /// Each slot was read, and the node has moved.
    Moved,
    /// Some neighbour has moved less often than the node.
    Behind,
    /// The node stands at the stop.
    Stopped,
    /// There is no such node.
    NoNode,
}

/// What a world answers to a result.
#[derive(Clone, Copy, Debug, PartialEq, Eq)]
pub enum WriteAnswer {
    /// The node has moved to the result.
    Moved,
    /// Some slot of the node isn't marked.
    NotReady,
    /// The result was computed from other things than stand here for the node.
    Stale,
    /// The node stands at the stop.
    Stopped,
    /// There is no such node.
    NoNode,
}
