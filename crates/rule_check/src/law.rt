//! What holds of next states by their definition.

ghost use Rattle.rule_check.specs.Order.{OrderPlaysNoPart};
ghost use Rattle.rule_check.specs.Rounds.{RoundPlaysNoPart};

/// The law that the order of the neighbours plays no part in the next state.
pub fn order_of_neighbours()
    ensures order { OrderPlaysNoPart }
{}

/// The law that the number of the round plays no part in the next state of a program that doesn't read it.
pub fn round_plays_no_part()
    ensures round { RoundPlaysNoPart }
{}
