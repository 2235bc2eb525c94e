//! Worlds of plans that are lent.
ghost use Rattle.std.specs.Prelude.{◌≡◌, ℕ, ◌<◌, ◌≤◌, length, IfErr, Ok};
ghost use Rattle.rounds_plan.specs.Answer.{IsAnswer};
ghost use Rattle.rounds_plan.specs.Configs.{most_rounds};
ghost use Rattle.rounds_plan.specs.Starts.{IsSimplePlan};
ghost use Rattle.unison_world.specs.Counting.{moves_of, HasShape, InStep};
ghost use Rattle.unison_world.specs.Opening.{opening_of};
ghost use Rattle.unison_world.specs.View.{answer_in, world_after, state_of, opened};

use crate::events::{ask, make};
use crate::fault::OpenFault;
use crate::node::Node;
use crate::opening::opening_nodes;
use crate::step::{Answer, Step};
use rounds_plan::{MOST_ROUNDS, SimplePlan};
use rule_check::State;
use std::alloc::Global;
use std::marker::Model;

/// The nodes of a plan that is lent, on a simple network of any size, each with its register and its desk, which move up to
/// a stop: what [`crate::World`] is for the plan of a network file. A contract sees the same.
#[derive(Drop)]
pub struct WorldRef<'a> {
    plan: SimplePlan<'a>,
    stop: u32,
    nodes: Vec<Node>,
}

impl<'a> Model for WorldRef<'a> {
    ghost use Rattle.std.specs.Coded.{codes};
    ghost use Rattle.rule_lang.specs.TreeCode.{coded_tree};
    ghost use Rattle.unison_world.specs.View.{WorldView};
    ghost use Rattle.unison_world.specs.Pictures.{IsPicture, counts_of};

    ghost Value = { WorldView };

    ghost coded = { Prim.hlevel (codes, coded_tree) };

    ghost view = { λ w. record { plan = w.plan; stop = w.stop; counts = counts_of w.nodes.items } };

    ghost invariant = { λ w. IsPicture w.plan w.stop w.nodes.items };
}

impl<'a> WorldRef<'a> {
    /// A world of a plan before any step, whose nodes move up to a stop. `StopTooLarge` comes above 1,000,000,000, and
    /// else `StopBelowStart` below the plan's start, both before anything is done, so also before running out of
    /// memory.
    pub fn new(alloc: Global, plan: SimplePlan<'a>, stop: u32) -> Result<WorldRef<'a>, OpenFault>
        ensures exact { IsAnswer OpenFault.Memory (opening_of plan.entry stop) result }
        ensures memory { IfErr result (λ fault. fault ≡ OpenFault.Memory → opening_of plan.entry stop ≡ Ok (opened plan.entry stop)) }
    {
        if stop > MOST_ROUNDS {
            return Err(OpenFault::StopTooLarge);
        }
        if stop < plan.start() {
            return Err(OpenFault::StopBelowStart);
        }
        let nodes = opening_nodes(alloc, &plan)?;
        Ok(WorldRef { plan, stop, nodes })
    }

    /// The answer that a step would have now.
    pub fn ask(&self, step: Step) -> Answer
        ensures answer { result ≡ answer_in self.now step }
    {
        ask(&self.plan, self.stop, &self.nodes, step)
    }

    /// One event, with its answer.
    pub fn step(&mut self, step: Step) -> Answer
        ensures answer { result ≡ answer_in self.old step }
        ensures after { self.new ≡ world_after self.old step }
    {
        make(&self.plan, self.stop, &mut self.nodes, step)
    }

    /// How many nodes there are.
    pub fn nodes(&self) -> u32
        ensures count { result ≡ length self.now.plan.network }
        ensures plan { IsSimplePlan self.now.plan }
        ensures shape { HasShape self.now.plan.network self.now.counts }
        ensures in_step { InStep self.now.plan.network self.now.stop self.now.counts }
        ensures started { (u : ℕ) → u < length self.now.plan.network → self.now.plan.start ≤ moves_of self.now.counts u }
    {
        self.plan.nodes()
    }

    /// The plan that the world runs.
    pub fn plan(&self) -> &SimplePlan<'a>
        ensures plan { result.now ≡ self.now.plan }
    {
        &self.plan
    }

    /// The stop, counted from round 0.
    pub fn stop(&self) -> u32
        ensures stop { result ≡ self.now.stop }
        ensures limit { result ≤ most_rounds }
    {
        self.stop
    }

    /// How often a node has moved, the rounds before the plan's start included; 0 where there is no such node.
    pub fn moves(&self, node: u32) -> u32
        ensures count { result ≡ moves_of self.now.counts node }
        ensures limit { result ≤ most_rounds }
    {
        let place = node as usize;
        if place >= self.nodes.len() {
            return 0;
        }
        self.nodes[place].moves
    }

    /// The state that a node shows.
    pub fn state(&self, node: u32) -> State
        requires node { node < length self.now.plan.network }
        ensures state { result ≡ state_of self.now node }
    {
        self.nodes[node as usize].register.now()
    }
}
