//! Laws of rounds of parts.
ghost use Rattle.rounds_walk.specs.part_rounds.Parts.{PartsMakeTheRound};

use rule_check::order_of_neighbours;

/// The next states of a part's own nodes are those of a round of the whole network, where the part has, under their
/// numbers in the whole network, the neighbours and weights of these nodes in some order, and the states of all its
/// nodes are those of the nodes with their numbers.
pub fn parts_make_the_round()
    ensures law { PartsMakeTheRound }
{
    // For the proof: the order of the neighbours plays no part.
    order_of_neighbours();
}
