//! Ways to make rounds: sequentially, or shared among threads.
ghost use Rattle.std.specs.Prelude.{◌≡◌, ◌≢◌, ◌<◌, ◌≤◌, ℕ, false, true, length};
ghost use denote.Param.Send.{IsSync};
ghost use Rattle.rule_check.specs.Rounds.{reads_round};
ghost use Rattle.rounds_plan.specs.Rounds.{round_from};
ghost use Rattle.rounds_blocks.specs.Walks.{state_by};
ghost use Rattle.rounds_walk.specs.Walking.{GoesOn};

use rounds_blocks::Walk;
use std::thread::Threads;

/// A way to make a round.
pub trait Way {
    // What it asks for beside.
    ghost serves: { Self → Type 0 };

    /// Moves the states of all nodes one round on, in the step from a round. Answers whether a state changed, where the
    /// program doesn't read the number of the round, and else true.
    fn make(&self, walk: &mut Walk<'_>, round: u32) -> bool
        requires way { serves self.now }
        ensures rules { walk.new.rules ≡ walk.old.rules }
        ensures network { walk.new.network ≡ walk.old.network }
        ensures next { (u : ℕ) → u < length walk.old.network → state_by walk.new.words u ≡ round_from walk.old.rules walk.old.network round (state_by walk.old.words) u }
        ensures rests { result ≡ false → (u : ℕ) → u < length walk.old.network → state_by walk.new.words u ≡ state_by walk.old.words u }
        ensures unread { result ≡ false → reads_round walk.old.rules ≡ false }
        ensures moves { result ≡ true → reads_round walk.old.rules ≡ false → (u : ℕ) × (u < length walk.old.network) × (state_by walk.new.words u ≢ state_by walk.old.words u) };
}

/// Sequentially.
#[derive(Drop)]
pub struct InTurn;

impl Way for InTurn {
    ghost serves = { λ way. Unit {0} };

    fn make(&self, walk: &mut Walk<'_>, round: u32) -> bool {
        walk.round(round)
    }
}

/// Shared among the threads that the walk was given shares for, where a round has enough to compute for them.
#[derive(Drop)]
pub struct InThreads<'a, R> {
    /// What starts them.
    pub rt: &'a R,
}

impl<R: Threads + Sync> Way for InThreads<'_, R> {
    ghost serves = { λ way. IsSync R.row };

    fn make(&self, walk: &mut Walk<'_>, round: u32) -> bool {
        walk.round_shared(self.rt, round)
    }
}

/// Moves the states from those of a round to those of a later one, each round made in this way. Where the program doesn't
/// read the number of the round, a round that changes nothing is the last one made.
pub(crate) fn walk_to<W: Way>(way: &W, walk: &mut Walk<'_>, from: u32, rounds: u32)
    requires way { W.serves way.now }
    requires late { from ≤ rounds }
    ensures there { GoesOn from rounds walk.old walk.new }
{
    for round in from..rounds {
        if !way.make(walk, round) {
            return;
        }
    }
}
