//! A world beside the steps that changed it.
ghost use Rattle.std.specs.Prelude.{◌≡◌, Ok, IsTrue, IfOk, IfErr, OnOk, OnErr, IfSome, length, option_map};
ghost use Rattle.std.specs.Arc.{arc_value};
ghost use Rattle.rounds_plan.specs.Answer.{IsAnswer};
ghost use Rattle.unison_world.specs.Finishing.{AtStopBelow, IsFinish, IsOf};
ghost use Rattle.unison_world.specs.Opening.{opening_of};
ghost use Rattle.unison_world.specs.View.{answer_in, opened};
ghost use Rattle.unison_world.specs.Work.{GivesNextState, IsPutAnswer, work_in};
ghost use Rattle.unison_trace.specs.Histories.{HasRoom, History, IsHistory, history_after, history_after_put, is_change, is_move, with_log};
ghost use Rattle.unison_trace.specs.Refusals.{Refuses};
ghost use Rattle.unison_trace.specs.Traces.{IsNoLonger, IsWholeTrace, needed, steps_in};

use crate::fault::LogFault;
use crate::stored::{Stored, new_log, store, take_back};
use rounds_plan::{Config, Plan};
use std::alloc::{AllocError, Global};
use std::marker::Model;
use std::sync::Arc;
use unison_world::{Answer, Done, FinishFault, OpenFault, Step, Work, World, WriteAnswer};

/// A world and, where a limit was given, the steps that changed it so far.
#[derive(Drop)]
pub struct Logged {
    world: World,
    log: Option<Stored>,
}

impl Model for Logged {
    ghost use Rattle.std.specs.Coded.{codes};
    ghost use Rattle.rule_lang.specs.TreeCode.{coded_tree};
    ghost use Rattle.unison_trace.specs.Histories.{History, IsHistory};

    ghost Value = { History };

    ghost coded = { Prim.hlevel (codes, coded_tree) };

    ghost view = { λ l. record { world = l.world; log = l.log } };

    ghost invariant = { λ l. IsHistory (record { world = l.world; log = l.log }) };
}

/// What a finished world gives.
#[derive(Drop)]
pub struct Finished {
    /// The configuration of the stop.
    pub config: Config,
    /// The steps that led there, where a limit was given.
    pub trace: Option<Vec<Step>>,
}

/// Whether a step with this answer changes the world.
pub fn changes(answer: Answer) -> bool
    ensures { result ≡ is_change answer }
{
    matches!(answer, Answer::Taken | Answer::Moved)
}

/// Whether a result with this answer moves its node.
fn moves(answer: WriteAnswer) -> bool
    ensures { result ≡ is_move answer }
{
    matches!(answer, WriteAnswer::Moved)
}

/// How many steps that change a world of the plan it takes from its start to a stop: in each round two reads a link
/// and a write a node.
pub fn steps_needed(plan: &Plan, stop: u32) -> u64
    ensures count { result ≡ needed plan.now stop }
{
    let rounds = stop.saturating_sub(plan.start()) as u64;
    let links = plan.network().links() as u64;
    let nodes = plan.network().nodes() as u64;
    rounds * (2 * links + nodes)
}

impl Logged {
    /// A world of a plan before any step, whose nodes move up to a stop, with no steps stored. The limit is how many
    /// steps may be stored, and counts as 1,000,000 where it is above; without one none are stored. `StopTooLarge`
    /// comes above 1,000,000,000, and else `StopBelowStart` below the plan's start, both before anything is done, so
    /// also before running out of memory.
    pub fn new(
        alloc: Global,
        plan: Arc<Plan>,
        stop: u32,
        limit: Option<u32>,
    ) -> Result<Logged, OpenFault>
        ensures exact { IsAnswer OpenFault.Memory (with_log limit (opening_of (arc_value plan) stop)) result }
        ensures memory { IfErr result (λ fault. fault ≡ OpenFault.Memory → opening_of (arc_value plan) stop ≡ Ok (opened (arc_value plan) stop)) }
    {
        let world = World::new(alloc, plan, stop)?;
        let log = new_log(alloc, limit);
        Ok(Logged { world, log })
    }

    /// One event, with its answer, which is stored where it changes the world. `TraceFull` comes where it would
    /// change the world and as many steps are stored as the limit allows, `Memory` where it would change the world
    /// and no room for the step could be made; both leave the world and the steps as they were.
    pub fn step(&mut self, step: Step) -> Result<Answer, LogFault>
        ensures answer { IfOk result (λ answer. answer ≡ answer_in self.old.world step) }
        ensures change { OnOk result (self.new ≡ history_after self.old step) }
        ensures room { OnOk result (IsTrue (is_change (answer_in self.old.world step)) → HasRoom self.old.log) }
        ensures refused { IfErr result (λ fault. IsTrue (is_change (answer_in self.old.world step)) × Refuses self.old.log fault) }
        ensures unchanged { OnErr result (self.new ≡ self.old) }
    {
        if changes(self.world.ask(step)) {
            store(&mut self.log, step)?;
        }
        Ok(self.world.step(step))
    }

    /// Takes a result, where it was computed from what stands here for its node, and then stores a write of the
    /// node. The faults are those of `step`, and come where the node would move.
    pub fn put(&mut self, done: &Done) -> Result<WriteAnswer, LogFault>
        ensures answer { IfOk result (λ answer. IsPutAnswer self.old.world done.now.work answer) }
        ensures change { IfOk result (λ answer. self.new ≡ history_after_put self.old done.now.work answer) }
        ensures room { IfOk result (λ answer. IsTrue (is_move answer) → HasRoom self.old.log) }
        ensures refused { IfErr result (λ fault. IsPutAnswer self.old.world done.now.work WriteAnswer.Moved × Refuses self.old.log fault) }
        ensures unchanged { OnErr result (self.new ≡ self.old) }
    {
        // To compare a result is dear, and this is done under a lock: so the write is stored first, and taken back where
        // the node does not move.
        if let Err(fault) = store(&mut self.log, Step::Write { node: done.node() }) {
            let answer = self.world.ask_put(done);
            return if moves(answer) {
                Err(fault)
            } else {
                Ok(answer)
            };
        }
        let answer = self.world.put(done);
        if !moves(answer) {
            take_back(&mut self.log);
        }
        Ok(answer)
    }

    /// The world.
    pub fn world(&self) -> &World
        ensures world { result.now ≡ self.now.world }
    {
        &self.world
    }

    /// The stored steps, in order; none where no limit was given.
    pub fn steps(&self) -> Option<&[Step]>
        ensures steps { option_map (λ s. s.now) result ≡ steps_in self.now.log }
        ensures lead { IsHistory self.now }
        ensures no_longer { IsNoLonger self.now.world self.now.log }
    {
        // For the proof alone: the call tells how far the world has come.
        let _nodes = self.world.nodes();
        match &self.log {
            None => None,
            Some(log) => Some(log.steps()),
        }
    }

    /// What a node's next state is computed from; none where there is no such node, it stands at the stop or it
    /// isn't ready. To compute it gives the node's state of the lockstep round after its count. Only the clone of the
    /// plan's `Arc` can be refused, and it is made only where there is work.
    pub fn work(&self, node: u32) -> Result<Option<Work>, AllocError>
        ensures work { IfOk result (λ work. work ≡ work_in self.now.world node) }
        ensures next { IfOk result (λ work. IfSome work (GivesNextState self.now.world node)) }
        ensures memory { OnErr result (answer_in self.now.world (Step.Write node) ≡ Answer.Moved) }
    {
        self.world.work(node)
    }

    /// The configuration of the stop, where the plan and the stop are the world's and every node stands at the stop,
    /// and the stored steps. `Foreign` comes where the plan or the stop isn't the world's, and else `Unfinished` with
    /// the least node below the stop; `Memory` only where neither does.
    pub fn finish(self, alloc: Global, plan: &Plan, stop: u32) -> Result<Finished, FinishFault>
        ensures config { IfOk result (λ finished. IsFinish self.world plan.now stop (Ok finished.config)) }
        ensures trace { IfOk result (λ finished. option_map (λ v. v.items) finished.trace ≡ steps_in self.log) }
        ensures whole { IfOk result (λ finished. IfSome finished.trace (λ v. IsWholeTrace plan.now stop v.items)) }
        ensures refused { IfErr result (λ fault. IsFinish self.world plan.now stop (Err fault)) }
        ensures memory { IfErr result (λ fault. fault ≡ FinishFault.Memory → IsOf self.world plan.now stop × AtStopBelow self.world (length self.world.plan.network)) }
        ensures history { IsHistory self }
    {
        // For the proof alone: the call tells how far the world has come.
        let _nodes = self.world.nodes();
        let Logged { world, log } = self;
        let config = world.finish(alloc, plan, stop)?;
        let trace = match log {
            None => None,
            Some(log) => Some(log.into_steps()),
        };
        Ok(Finished { config, trace })
    }
}
