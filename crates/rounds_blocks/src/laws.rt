//! Laws of rounds.
ghost use Rattle.rounds_blocks.specs.Walks.{RestsWhereNothingMoved};

/// Where a program doesn't read the number of the round, and neither a node nor a neighbour of it changed in the last
/// round, the node's next state is its state.
pub fn rests_where_nothing_moved()
    ensures rests { RestsWhereNothingMoved }
{}
