//! Walks over the rounds that a start leads to.
ghost use Rattle.std.specs.Prelude.{◌≡◌, ◌↔◌, ◌<◌, ◌≤◌, ◌+◌, ◌^◌, ℕ, IfOk, IsTrue, All, true, false, length, slice_index_or};
ghost use Rattle.rule_check.specs.declared.state.State.{State};
ghost use Rattle.rule_check.specs.Rounds.{reads_round};
ghost use Rattle.rounds_plan.specs.Configs.{IsPlain, most_rounds};
ghost use Rattle.rounds_plan.specs.Lockstep.{lockstep_config, lockstep_states};
ghost use Rattle.rounds_blocks.specs.Walks.{state_by};
ghost use Rattle.rounds_plan.specs.Starts.{IsStart};
ghost use Rattle.rounds_walk.specs.Walking.{AreAlike};

use crate::start::Start;
use crate::way::{InThreads, InTurn, Way, walk_to};
use rounds_blocks::{PackedStates, Walk};
use rounds_plan::{Config, Plan, RoundStates};
use rule_check::{Program, State};
use std::alloc::{AllocError, Global};
use std::marker::Model;
use std::thread::Threads;

/// All nodes of a start, which stand at a round and are moved on. A contract sees the start, as a plan, and the round.
#[derive(Drop)]
pub struct RoundWalk<'a> {
    start: &'a Start<'a>,
    states: Walk<'a>,
    round: u32,
}

impl<'a> Model for RoundWalk<'a> {
    ghost use Rattle.std.specs.Coded.{codes};
    ghost use Rattle.rule_lang.specs.TreeCode.{coded_tree};
    ghost use Rattle.rounds_walk.specs.Walking.{RoundView, StandsAt};

    ghost Value = { RoundView };

    ghost coded = { Prim.hlevel (codes, coded_tree) };

    ghost view = { λ w. record { plan = w.start.now; round = w.round } };

    ghost invariant = { λ w. StandsAt w.start.now w.round w.states };
}

impl<'a> RoundWalk<'a> {
    /// The walk of a start whose nodes have their initial states.
    pub(crate) fn from_start(start: &'a Start<'a>, states: Walk<'a>) -> RoundWalk<'a>
        requires rules { states.rules ≡ start.now.program }
        requires network { states.network ≡ start.now.network }
        requires states { (u : ℕ) (d : State) → u < length start.now.network → state_by states.words u ≡ slice_index_or start.now.opening u d }
        ensures start { result ≡ record { plan = start.now; round = start.now.start } }
    {
        // For the proof: what holds of every start.
        let _nodes = start.nodes();
        RoundWalk {
            start,
            states,
            round: start.start(),
        }
    }

    /// The round, counted from round 0.
    pub fn round(&self) -> u32
        ensures round { result ≡ self.now.round }
        ensures late { self.now.plan.start ≤ self.now.round }
        ensures whole { IsStart self.now.plan }
    {
        self.round
    }

    /// The program.
    pub fn program(&self) -> &Program
        ensures program { result.now ≡ self.now.plan.program }
    {
        self.start.program()
    }

    /// Moves on to the next round in a way. Answers whether a state changed, where the program doesn't read the number
    /// of the round, and else true.
    pub fn step_by<W: Way>(&mut self, way: &W) -> bool
        requires way { W.serves way.now }
        requires room { self.old.round + 1 < 2 ^ 32 }
        ensures next { self.new ≡ record { plan = self.old.plan; round = self.old.round + 1 } }
        ensures rests { result ≡ false → AreAlike self.old.plan self.old.round (self.old.round + 1) }
        ensures unread { result ≡ false → reads_round self.old.plan.program ≡ false }
        ensures moves { result ≡ true → reads_round self.old.plan.program ≡ false → AreAlike self.old.plan self.old.round (self.old.round + 1) → ⊥ }
    {
        let moved = way.make(&mut self.states, self.round);
        self.round += 1;
        moved
    }

    /// Moves on to the next round, sequentially. Answers whether a state changed, where the program doesn't read the
    /// number of the round, and else true.
    pub fn step(&mut self) -> bool
        requires room { self.old.round + 1 < 2 ^ 32 }
        ensures next { self.new ≡ record { plan = self.old.plan; round = self.old.round + 1 } }
        ensures rests { result ≡ false → AreAlike self.old.plan self.old.round (self.old.round + 1) }
        ensures unread { result ≡ false → reads_round self.old.plan.program ≡ false }
        ensures moves { result ≡ true → reads_round self.old.plan.program ≡ false → AreAlike self.old.plan self.old.round (self.old.round + 1) → ⊥ }
    {
        self.step_by(&InTurn)
    }

    /// What `step` does, the round shared among threads where it has enough to compute for them.
    pub fn step_shared(&mut self, rt: &(impl Threads + Sync)) -> bool
        requires room { self.old.round + 1 < 2 ^ 32 }
        ensures next { self.new ≡ record { plan = self.old.plan; round = self.old.round + 1 } }
        ensures rests { result ≡ false → AreAlike self.old.plan self.old.round (self.old.round + 1) }
        ensures unread { result ≡ false → reads_round self.old.plan.program ≡ false }
        ensures moves { result ≡ true → reads_round self.old.plan.program ≡ false → AreAlike self.old.plan self.old.round (self.old.round + 1) → ⊥ }
    {
        self.step_by(&InThreads { rt })
    }

    /// Moves on to a round in a way, one by one. Where the program doesn't read the number of the round, none is made
    /// after the first one that changes nothing.
    pub fn go_by<W: Way>(&mut self, way: &W, round: u32)
        requires way { W.serves way.now }
        requires late { self.old.round ≤ round }
        ensures there { self.new ≡ record { plan = self.old.plan; round = round } }
    {
        walk_to(way, &mut self.states, self.round, round);
        self.round = round;
    }

    /// Moves on to a round, one by one. Where the program doesn't read the number of the round, none is made after
    /// the first one that changes nothing.
    pub fn go_to(&mut self, round: u32)
        requires late { self.old.round ≤ round }
        ensures there { self.new ≡ record { plan = self.old.plan; round = round } }
    {
        self.go_by(&InTurn, round);
    }

    /// What `go_to` does, each round shared among threads where it has enough to compute for them.
    pub fn go_to_shared(&mut self, rt: &(impl Threads + Sync), round: u32)
        requires late { self.old.round ≤ round }
        ensures there { self.new ≡ record { plan = self.old.plan; round = round } }
    {
        self.go_by(&InThreads { rt }, round);
    }

    /// The states of all nodes after the round, by rising number of the node.
    pub fn states(&self, alloc: Global) -> Result<Vec<State>, AllocError>
        ensures exact { IfOk result (λ states. states.items ≡ lockstep_states self.now.plan self.now.round (length self.now.plan.network)) }
        ensures plain { IfOk result (λ states. All (IsPlain (length self.now.plan.program.fields)) states.items) }
    {
        let states = self.states.states(alloc)?;
        Ok(states)
    }

    /// The states of all nodes after the round, by rising number of the node, packed. What else the walk needs is dropped.
    pub fn into_packed(self) -> PackedStates
        ensures exact { result ≡ lockstep_states self.entry.plan self.entry.round (length self.entry.plan.network) }
    {
        self.states.into_packed()
    }

    /// The states of all nodes after the round, however many there are, with the round.
    pub fn round_states(&self, alloc: Global) -> Result<RoundStates, AllocError>
        requires few { self.now.round ≤ most_rounds }
        ensures exact { IfOk result (λ states. states ≡ lockstep_config self.now.plan self.now.round) }
    {
        let round = self.round();
        let program = self.program();
        let states = self.states(alloc)?;
        Ok(RoundStates::of(program, round, states))
    }

    /// The configuration of the round, where the start is that of a plan.
    pub fn config(&self, alloc: Global, plan: &Plan) -> Result<Config, AllocError>
        requires plan { self.now.plan ≡ plan.now }
        requires few { self.now.round ≤ most_rounds }
        ensures exact { IfOk result (λ config. config ≡ lockstep_config self.now.plan self.now.round) }
    {
        let round = self.round();
        let states = self.states(alloc)?;
        Ok(Config::of(plan, round, states))
    }

    /// Whether all nodes have the states that they have in another walk of the same plan.
    pub fn is_like(&self, other: &RoundWalk<'_>) -> bool
        requires plan { other.now.plan ≡ self.now.plan }
        ensures exact { IsTrue result ↔ AreAlike self.now.plan self.now.round other.now.round }
    {
        self.states.is_like(&other.states)
    }
}
