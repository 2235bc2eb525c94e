//! Walks: steps that are made on a world, each of which changes something.
ghost use Rattle.std.specs.Prelude.{◌≡◌, ◌<◌, ◌≤◌, ◌==◌, nat_lt, true, [], length, Ok, IfOk, IfErr, IfSome, OnErr};
ghost use Rattle.std.specs.Arc.{arc_value};
ghost use Rattle.unison_world.specs.Counting.{moves_of};
ghost use Rattle.unison_world.specs.Opening.{opening_of};
ghost use Rattle.run_schedule.specs.Lists.{node_of};
ghost use Rattle.run_schedule.specs.Walks.{IsSound, IsWalk, is_open, is_other, walk_after};

use crate::fault::{Halt, ListFault};
use link_net::Network;
use rounds_plan::Plan;
use std::alloc::Global;
use std::marker::Model;
use std::sync::Arc;
use unison_trace::changes;
use unison_world::{Step, World};

/// A world, and the steps that were made on it, no more than a limit. One node may be still: it makes none.
#[derive(Drop)]
pub(crate) struct Walk {
    world: World,
    still: Option<u32>,
    limit: u32,
    steps: Vec<Step>,
}

impl Model for Walk {
    ghost use Rattle.std.specs.Coded.{codes};
    ghost use Rattle.rule_lang.specs.TreeCode.{coded_tree};
    ghost use Rattle.run_schedule.specs.Walks.{IsWalk, WalkView};

    ghost Value = { WalkView };

    ghost coded = { Prim.hlevel (codes, coded_tree) };

    ghost view = { λ w. record { world = w.world; still = w.still; limit = w.limit; steps = w.steps.items } };

    ghost invariant = { λ w. IsWalk (record { world = w.world; still = w.still; limit = w.limit; steps = w.steps.items }) };
}

/// The node that makes a step.
fn node_of(step: Step) -> u32
    ensures { result ≡ node_of step }
{
    match step {
        Step::Read { node, .. } => node,
        Step::Write { node } => node,
    }
}

/// Whether a step is not the still node's.
fn is_other(still: Option<u32>, step: Step) -> bool
    ensures { result ≡ is_other still step }
{
    match still {
        None => true,
        Some(node) => node_of(step) != node,
    }
}

impl Walk {
    /// A walk of no steps, on the world of a plan before any step.
    pub(crate) fn new(
        alloc: Global,
        plan: Arc<Plan>,
        stop: u32,
        still: Option<u32>,
        limit: u32,
    ) -> Result<Walk, ListFault>
        ensures begun { IfOk result (λ w. (w.still ≡ still) × (w.limit ≡ limit) × (w.steps ≡ [])) }
        ensures opened { IfOk result (λ w. opening_of (arc_value plan) stop ≡ Ok w.world) }
        ensures memory { IfErr result (λ fault. fault ≡ ListFault.Memory) }
    {
        let Ok(world) = World::new(alloc, plan, stop) else {
            return Err(ListFault::Memory);
        };
        Ok(Walk {
            world,
            still,
            limit,
            steps: Vec::new(alloc),
        })
    }

    /// Whether a step may be made: it is not the still node's, and would change something.
    pub(crate) fn is_open(&self, step: Step) -> bool
        ensures { result ≡ is_open self.now step }
    {
        is_other(self.still, step) && changes(self.world.ask(step))
    }

    /// Makes a step, where it is open; whether it is. `Full` comes where it is and as many steps as may be were made.
    pub(crate) fn make(&mut self, step: Step) -> Result<bool, Halt>
        ensures made { IfOk result (λ made. made ≡ is_open self.old step) }
        ensures after { IfOk result (λ made. self.new ≡ walk_after self.old step) }
        ensures full { IfErr result (λ halt. halt ≡ Halt.Full → (length self.old.steps ≡ self.old.limit) × (is_open self.old step ≡ true)) }
        ensures unchanged { OnErr result (self.new ≡ self.old) }
        ensures few { length self.new.steps ≤ self.new.limit }
    {
        if !self.is_open(step) {
            return Ok(false);
        }
        if self.steps.len() >= self.limit as usize {
            return Err(Halt::Full);
        }
        self.steps.push(step)?;
        self.world.step(step);
        Ok(true)
    }

    /// The network of the world.
    pub(crate) fn network(&self) -> &Network
        ensures network { result.now ≡ self.now.world.plan.network }
        ensures sound { IsSound self.now.world }
        ensures walk { IsWalk self.now }
    {
        // For the proof alone: the call tells what holds of every world.
        let _nodes = self.world.nodes();
        self.world.plan().network()
    }

    /// How often a node has moved; none where there is no such node.
    pub(crate) fn moves(&self, node: u32) -> Option<u32>
        ensures { IfSome result (λ moves. moves ≡ moves_of self.now.world.counts node) }
    {
        self.world.moves(node)
    }

    /// Whether a node stands at the stop.
    pub(crate) fn is_at_stop(&self, node: u32) -> bool
        requires { node < length self.now.world.plan.network }
        ensures { result ≡ (moves_of self.now.world.counts node == self.now.world.stop) }
    {
        match self.world.moves(node) {
            Some(moves) => moves == self.world.stop(),
            None => false,
        }
    }

    /// Whether a node has moved less often than another.
    pub(crate) fn is_behind(&self, node: u32, other: u32) -> bool
        requires node { node < length self.now.world.plan.network }
        requires other { other < length self.now.world.plan.network }
        ensures { result ≡ nat_lt (moves_of self.now.world.counts node) (moves_of self.now.world.counts other) }
    {
        match (self.world.moves(node), self.world.moves(other)) {
            (Some(moves), Some(others)) => moves < others,
            _ => false,
        }
    }

    /// The steps that were made, in order.
    pub(crate) fn into_steps(self) -> Vec<Step>
        ensures steps { result.items ≡ self.steps }
        ensures walk { IsWalk self }
        ensures sound { IsSound self.world }
    {
        // For the proof alone: the call tells what holds of every world.
        let _nodes = self.world.nodes();
        let Walk { steps, .. } = self;
        steps
    }
}
