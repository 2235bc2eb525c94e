//! Laws of lockstep rounds.
ghost use Rattle.rounds_walk.specs.GoingOn.{GoesOnFromStates};
ghost use Rattle.rounds_walk.specs.Stays.{StaysAsItIs, RestsWhereNothingMoved};

/// Where a plan's program doesn't read the number of the round, and a round changes no state, no later round does.
pub fn stays_as_it_is()
    ensures still { StaysAsItIs }
{}

/// Where a plan's program doesn't read the number of the round, and neither a node nor a neighbour of it changed in a
/// round, the node doesn't change in the next one.
pub fn rests_where_nothing_moved()
    ensures rests { RestsWhereNothingMoved }
{}

/// A plan that opens with the states that another plan of its program on its rows has after a round, at this round, has
/// the states of the other one after every later round.
pub fn goes_on_from_states()
    ensures law { GoesOnFromStates }
{}
