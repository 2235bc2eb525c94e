//! Worlds.
ghost use Rattle.std.specs.Prelude.{◌≡◌, ℕ, ◌<◌, ◌%◌, ◌+◌, ◌≤◌, min, length, Some, None, if◌then◌else◌, IfOk, IfErr, IfSome, OnErr};
ghost use Rattle.std.specs.Arc.{arc_value};
ghost use Rattle.rounds_plan.specs.Answer.{IsAnswer};
ghost use Rattle.rounds_plan.specs.Configs.{most_rounds};
ghost use Rattle.rounds_plan.specs.Plans.{IsPlan};
ghost use Rattle.unison_world.specs.Counting.{at_start, moves_of, HasShape, InStep};
ghost use Rattle.unison_world.specs.Finishing.{IsOf, AtStopBelow, IsFinish};
ghost use Rattle.unison_world.specs.Opening.{opening_of};
ghost use Rattle.unison_world.specs.Progress.{steps_left};
ghost use Rattle.unison_world.specs.Turns.{AtLeast, moves_in_sweep, turn_answer, world_after_sweep, world_after_turn};
ghost use Rattle.unison_world.specs.View.{answer_in, with_counts, world_after, is_node, state_of, opened};
ghost use Rattle.unison_world.specs.Work.{GivesNextState, IsPutAnswer, after_put, work_in};

use crate::events::{ask, make};
use crate::fault::{FinishFault, OpenFault};
use crate::finishing::{first_below, states_of};
use crate::node::Node;
use crate::opening::opening_nodes;
use crate::results::{ask_put, put};
use crate::step::{Answer, Step, TurnAnswer, WriteAnswer};
use crate::turns::{run_sweeps, sweep, turn};
use crate::work::{Done, Work};
use phase_register::Phase;
use rounds_plan::{Config, MOST_ROUNDS, Plan, SimplePlan};
use rule_check::State;
use std::alloc::{AllocError, Global};
use std::marker::Model;
use std::sync::Arc;

/// The nodes of a plan, each with its register and its desk, which move up to a stop. Counts of moves and the stop
/// count from round 0, and the nodes begin at the plan's start.
#[derive(Drop)]
pub struct World {
    plan: Arc<Plan>,
    stop: u32,
    nodes: Vec<Node>,
}

impl Model for World {
    ghost use Rattle.std.specs.Coded.{codes};
    ghost use Rattle.std.specs.Arc.{arc_value};
    ghost use Rattle.rule_lang.specs.TreeCode.{coded_tree};
    ghost use Rattle.unison_world.specs.Progress.{steps_left};
    ghost use Rattle.unison_world.specs.Turns.{AtLeast, moves_in_sweep, turn_answer, world_after_sweep, world_after_turn};
    ghost use Rattle.unison_world.specs.View.{WorldView};
    ghost use Rattle.unison_world.specs.Pictures.{IsPicture, counts_of};

    ghost Value = { WorldView };

    ghost coded = { Prim.hlevel (codes, coded_tree) };

    ghost view = { λ w. record { plan = arc_value w.plan; stop = w.stop; counts = counts_of w.nodes.items } };

    ghost invariant = { λ w. IsPicture (arc_value w.plan) w.stop w.nodes.items };
}

impl World {
    /// A world of a plan before any step, whose nodes move up to a stop. `StopTooLarge` comes above 1,000,000,000, and
    /// else `StopBelowStart` below the plan's start, both before anything is done, so also before running out of
    /// memory.
    pub fn new(alloc: Global, plan: Arc<Plan>, stop: u32) -> Result<World, OpenFault>
        ensures exact { IsAnswer OpenFault.Memory (opening_of (arc_value plan) stop) result }
        ensures memory { IfErr result (λ fault. fault ≡ OpenFault.Memory → opening_of (arc_value plan) stop ≡ Ok (opened (arc_value plan) stop)) }
    {
        if stop > MOST_ROUNDS {
            return Err(OpenFault::StopTooLarge);
        }
        if stop < plan.start() {
            return Err(OpenFault::StopBelowStart);
        }
        let lent = SimplePlan::of_plan(&plan);
        let nodes = opening_nodes(alloc, &lent)?;
        Ok(World { plan, stop, nodes })
    }

    /// The answer that a step would have now.
    pub fn ask(&self, step: Step) -> Answer
        ensures answer { result ≡ answer_in self.now step }
    {
        let plan = SimplePlan::of_plan(&self.plan);
        ask(&plan, self.stop, &self.nodes, step)
    }

    /// One event, with its answer.
    pub fn step(&mut self, step: Step) -> Answer
        ensures answer { result ≡ answer_in self.old step }
        ensures after { self.new ≡ world_after self.old step }
    {
        let plan = SimplePlan::of_plan(&self.plan);
        make(&plan, self.stop, &mut self.nodes, step)
    }

    /// A whole turn of a node. `NoNode` comes where there is no such node, else `Stopped` where it stands at the stop,
    /// else `Behind` where a neighbour has moved less often; then nothing changes. Else every slot that is not marked
    /// is read by rising number, and the node moves.
    pub fn turn(&mut self, node: u32) -> TurnAnswer
        ensures answer { result ≡ turn_answer self.old.plan.network self.old.stop self.old.counts node }
        ensures after { self.new ≡ world_after_turn self.old node }
    {
        let plan = SimplePlan::of_plan(&self.plan);
        turn(&plan, self.stop, &mut self.nodes, node).answer
    }

    /// A sweep: a turn of each node by rising number; how many nodes moved.
    pub fn sweep(&mut self) -> u32
        ensures moves { result ≡ moves_in_sweep self.old }
        ensures after { self.new ≡ world_after_sweep self.old }
        ensures rises { (m : ℕ) → AtLeast self.old m → AtLeast self.new (min (m + 1) self.old.stop) }
    {
        // For the proof: what holds of every plan.
        let _phase = self.plan.phase();
        let plan = SimplePlan::of_plan(&self.plan);
        sweep(&plan, self.stop, &mut self.nodes).moves
    }

    /// Sweeps until every node stands at the stop; how many reads were taken and moves made.
    pub fn run_sweeps(&mut self) -> u64
        ensures after { self.new ≡ with_counts self.old (at_start self.old.plan.network self.old.stop) }
        ensures steps { result ≡ steps_left self.old.plan.network self.old.stop self.old.counts }
    {
        // For the proof: what holds of every plan.
        let _phase = self.plan.phase();
        let plan = SimplePlan::of_plan(&self.plan);
        run_sweeps(&plan, self.stop, &mut self.nodes)
    }

    /// What a node's next state is computed from; none where there is no such node, it stands at the stop or it
    /// isn't ready. To compute it gives the node's state of the lockstep round after its count. Only the clone of the
    /// plan's `Arc` can be refused, and it is made only where there is work.
    pub fn work(&self, node: u32) -> Result<Option<Work>, AllocError>
        ensures work { IfOk result (λ work. work ≡ work_in self.now node) }
        ensures next { IfOk result (λ work. IfSome work (GivesNextState self.now node)) }
        ensures memory { OnErr result (answer_in self.now (Step.Write node) ≡ Answer.Moved) }
    {
        let Answer::Moved = self.ask(Step::Write { node }) else {
            return Ok(None);
        };
        let this = &self.nodes[node as usize];
        let plan = Arc::try_clone(&self.plan)?;
        Ok(Some(Work {
            plan,
            node,
            degree: this.desk.degree(),
            own: this.register.now(),
            round: this.moves,
            sums: this.desk.sums(),
        }))
    }

    /// Takes a result, where it was computed from what stands here for its node.
    pub fn put(&mut self, done: &Done) -> WriteAnswer
        ensures answer { IsPutAnswer self.old done.now.work result }
        ensures after { self.new ≡ after_put self.old done.now.work result }
    {
        let plan = SimplePlan::of_plan(&self.plan);
        put(&plan, self.stop, &mut self.nodes, done)
    }

    /// The answer that `put` would give now.
    pub fn ask_put(&self, done: &Done) -> WriteAnswer
        ensures answer { IsPutAnswer self.now done.now.work result }
    {
        let plan = SimplePlan::of_plan(&self.plan);
        ask_put(&plan, self.stop, &self.nodes, done)
    }

    /// How many nodes there are.
    pub fn nodes(&self) -> u32
        ensures count { result ≡ length self.now.plan.network }
        ensures plan { IsPlan self.now.plan }
        ensures shape { HasShape self.now.plan.network self.now.counts }
        ensures in_step { InStep self.now.plan.network self.now.stop self.now.counts }
        ensures started { (u : ℕ) → u < length self.now.plan.network → self.now.plan.start ≤ moves_of self.now.counts u }
    {
        // For the proof: what holds of every plan.
        let _phase = self.plan.phase();
        self.plan.network().nodes()
    }

    /// The plan that the world runs.
    pub fn plan(&self) -> &Plan
        ensures plan { result.now ≡ self.now.plan }
    {
        &self.plan
    }

    /// The stop, counted from round 0.
    pub fn stop(&self) -> u32
        ensures stop { result ≡ self.now.stop }
        ensures limit { result ≤ most_rounds }
    {
        self.stop
    }

    /// How often a node has moved, the rounds before the plan's start included, or none where there is no such node.
    pub fn moves(&self, node: u32) -> Option<u32>
        ensures moves { result ≡ (if is_node self.now node then Some (moves_of self.now.counts node) else None) }
    {
        Some(self.nodes.get(node as usize)?.moves)
    }

    /// The state that a node shows, or none where there is no such node.
    pub fn state(&self, node: u32) -> Option<State>
        ensures state { result ≡ (if is_node self.now node then Some (state_of self.now node) else None) }
    {
        Some(self.nodes.get(node as usize)?.register.now())
    }

    /// The phase that a node shows, or none where there is no such node.
    pub fn phase(&self, node: u32) -> Option<Phase>
        ensures phase { result ≡ (if is_node self.now node then Some ((self.now.plan.phase + moves_of self.now.counts node) % 3) else None) }
    {
        Some(self.nodes.get(node as usize)?.register.phase())
    }

    /// The configuration of the stop, where the plan and the stop are the world's and every node stands at the stop.
    /// `Foreign` comes where the plan or the stop isn't the world's, and else `Unfinished` with the least node below
    /// the stop; `Memory` only where neither does.
    pub fn finish(self, alloc: Global, plan: &Plan, stop: u32) -> Result<Config, FinishFault>
        ensures answer { IsFinish self plan.now stop result }
        ensures memory { IfErr result (λ fault. fault ≡ FinishFault.Memory → IsOf self plan.now stop × AtStopBelow self (length self.plan.network)) }
    {
        if !self.plan.same(plan) {
            return Err(FinishFault::Foreign);
        }
        if self.stop != stop {
            return Err(FinishFault::Foreign);
        }
        // For the proof alone: the call tells that there are at most 65,536 nodes.
        let _nodes = self.plan.network().nodes();
        if let Some(node) = first_below(self.stop, &self.nodes) {
            let moves = self.nodes[node as usize].moves;
            return Err(FinishFault::Unfinished { node, moves });
        }
        let states = states_of(alloc, &self.nodes)?;
        Ok(Config::of(plan, stop, states))
    }
}
