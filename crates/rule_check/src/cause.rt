//! Why a program is refused, with the items at fault.

/// Why a program is refused, with the item at fault; items are counted from 0, in the text's order.
#[derive(Drop)]
pub enum CheckCause {
    /// The ninth `field` item.
    TooManyFields { item: usize },
    /// A `field` item with the name of an earlier one (the first such).
    FieldTwice { item: usize, earlier: usize },
    /// A `next` item with the name of an earlier one (the first such).
    NextTwice { item: usize, earlier: usize },
    /// A `next` item whose own name no `field` item declares, where it is the first item with an
    /// unknown name.
    UnknownTarget { item: usize },
    /// The first `next` item with an unknown name, and the first name from the left in its
    /// expression that no `field` item declares.
    UnknownName { item: usize, name: String },
    /// The first `next` item with a form of the neighbour outside an aggregate.
    NeighbourOutside { item: usize },
    /// The first `next` item with an aggregate in an aggregate.
    NestedAggregate { item: usize },
    /// The `next` item with the seventeenth aggregate.
    TooManyAggregates { item: usize },
}
