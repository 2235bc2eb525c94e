//! Laws of nodes that do not wait.
ghost use Rattle.run_naive.specs.Differences.{RightCopiesKeepTheRound};
ghost use Rattle.run_naive.specs.Phases.{PhasesKeepTheRounds};

/// A law, which does nothing when it runs: a node that has its lockstep state, and copies that are its neighbours' states of
/// the node's own round, has its lockstep state after a move too. So only copies of other rounds lead away from it.
pub fn right_copies_keep_the_round()
    ensures kept { RightCopiesKeepTheRound }
{}

/// A law, which does nothing when it runs: nothing goes wrong where all nodes read all their neighbours, in any order, before
/// any moves, round by round.
pub fn phases_keep_the_rounds()
    ensures kept { PhasesKeepTheRounds }
{}
