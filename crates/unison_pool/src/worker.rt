//! What one worker does.
ghost use Rattle.std.specs.Prelude.{◌≡◌, ◌<◌, ◌≤◌, ◌↔◌, All, IfErr, IfOk, length, map};
ghost use Rattle.unison_trace.specs.Histories.{is_move};
ghost use Rattle.unison_pool.specs.Parts.{both, moves_after, part_of};

use crate::gate::Gate;
use crate::team::Team;
use std::sync::Wait;
use std::thread;
use unison_trace::LogFault;
use unison_world::{Step, WriteAnswer};

/// The part of the nodes that a worker drives: those whose number leaves the worker's modulo the number of workers.
#[derive(Clone, Copy)]
pub struct Part {
    pub worker: u32,
    pub workers: u32,
    ghost one_of: { worker < workers },
}

/// A node that a worker drives, and how often it has moved.
#[derive(Clone, Copy)]
struct Driven {
    node: u32,
    moves: u32,
}

/// What came of one pass over nodes of a worker.
#[derive(Clone, Copy)]
enum Pass {
    /// All of them stood at the stop.
    Ended,
    /// Some stood below the stop, and none moved.
    Idle,
    /// Some moved.
    Moved,
}

impl Pass {
    /// What came of a pass over these nodes and then over others.
    fn and(self, others: Pass) -> Pass
        ensures { result ≡ both self others }
    {
        match (self, others) {
            (Pass::Moved, _) | (_, Pass::Moved) => Pass::Moved,
            (Pass::Ended, Pass::Ended) => Pass::Ended,
            _ => Pass::Idle,
        }
    }
}

/// Whether a result with this answer moved its node.
fn moved(answer: WriteAnswer) -> bool
    ensures { result ≡ is_move answer }
{
    matches!(answer, WriteAnswer::Moved)
}

impl<R: Wait, G: Gate> Team<'_, R, G> {
    /// Drives a worker's nodes until all of them stand at the stop or the workers are to end. A fault tells the other
    /// workers to end.
    pub fn drive(&self, part: Part) -> Result<(), LogFault> {
        let met = self.make_passes(part);
        if met.is_err() {
            self.shared.halt();
        }
        met
    }

    /// Makes passes until all of the worker's nodes stood at the stop in one. After a pass in which none moved the other
    /// threads come first.
    fn make_passes(&self, part: Part) -> Result<(), LogFault> {
        let mut nodes = self.nodes_of(part)?;
        for _ in self.rt.forever() {
            if self.shared.is_halted() {
                return Ok(());
            }
            match self.make_pass(part.worker, &mut nodes)? {
                Pass::Ended => return Ok(()),
                Pass::Idle => thread::yield_now(),
                Pass::Moved => {}
            }
        }
        unreachable!()
    }

    /// The nodes of a part by rising number, each at the start.
    fn nodes_of(&self, part: Part) -> Result<Vec<Driven>, LogFault>
        ensures nodes { IfOk result (λ nodes. map (λ d. d.node) nodes.items ≡ part_of (length self.now.plan.now.network) part.workers part.worker) }
        ensures at_start { IfOk result (λ nodes. All (λ d. d.moves ≡ self.now.plan.now.start) nodes.items) }
        ensures memory { IfErr result (λ fault. fault ≡ LogFault.Memory) }
    {
        let moves = self.plan.start();
        let mut nodes = Vec::new(self.alloc);
        for node in 0..self.plan.network().nodes() {
            if node % part.workers == part.worker {
                nodes.push(Driven { node, moves })?;
            }
        }
        Ok(nodes)
    }

    /// Goes through a worker's nodes by rising number.
    fn make_pass(&self, worker: u32, nodes: &mut Vec<Driven>) -> Result<Pass, LogFault>
        ensures ended { IfOk result (λ pass. pass ≡ Pass.Ended → All (λ d. self.now.stop ≤ d.moves) nodes.old.items) }
    {
        let mut pass = Pass::Ended;
        for driven in nodes.iter_mut() {
            pass = pass.and(self.attend(worker, driven)?);
        }
        Ok(pass)
    }

    /// Drives a node where it stands below the stop.
    fn attend(&self, worker: u32, driven: &mut Driven) -> Result<Pass, LogFault>
        ensures ended { IfOk result (λ pass. (pass ≡ Pass.Ended) ↔ (self.now.stop ≤ driven.old.moves)) }
        ensures node { driven.new.node ≡ driven.old.node }
        ensures moves { IfOk result (λ pass. driven.new.moves ≡ moves_after pass driven.old.moves) }
    {
        if driven.moves >= self.stop {
            return Ok(Pass::Ended);
        }
        if !self.advance(worker, driven.node)? {
            return Ok(Pass::Idle);
        }
        driven.moves += 1;
        Ok(Pass::Moved)
    }

    /// Reads each slot of a node, moves the node where it is ready then, and says whether it moved.
    fn advance(&self, worker: u32, node: u32) -> Result<bool, LogFault> {
        for slot in 0..self.plan.network().degree(node).unwrap_or(0) {
            self.shared.step(self.rt, Step::Read { node, slot })?;
        }
        let Some(work) = self.shared.work(self.rt, node)? else {
            return Ok(false);
        };
        self.gate.before_compute(worker, node);
        let done = work.compute();
        let answer = self.shared.put(self.rt, &done)?;
        Ok(moved(answer))
    }
}
