//! Plans.
ghost use Rattle.std.specs.Prelude.{◌≡◌, ◌≢◌, ◌↔◌, All, IsTrue, IfOk, IfErr, Ok, Err, length, slice_get, vec_len};
ghost use Rattle.rounds_plan.specs.Configs.{IsPlain};
ghost use Rattle.rounds_plan.specs.Plans.{IsPlan, plan_of};
ghost use Rattle.rounds_plan.specs.Resume.{from_config, resumed, GoesOnAs};
ghost use Rattle.rounds_plan.specs.Answer.{IsAnswer};

use crate::config::Config;
use crate::fault::{PlanFault, ResumeFault};
use crate::opening::opening_by;
use link_net::{NetFile, Network};
use rule_check::{Program, State};
use std::alloc::Global;
use std::marker::Model;

/// A program on a network, with the states, the round and the phase at which the nodes open.
#[derive(Drop)]
pub struct Plan {
    program: Program,
    network: Network,
    phase: u8,
    opening: Vec<State>,
    start: u32,
}

impl Model for Plan {
    ghost use Rattle.std.specs.Coded.{codes};
    ghost use Rattle.rule_lang.specs.TreeCode.{coded_tree};
    ghost use Rattle.rounds_plan.specs.Plans.{PlanView, IsPlan};

    ghost Value = { PlanView };

    ghost coded = { Prim.hlevel (codes, coded_tree) };

    ghost view = { λ p. record { program = p.program; network = p.network; phase = p.phase; opening = p.opening.items; start = p.start } };

    ghost invariant = { λ p. IsPlan (record { program = p.program; network = p.network; phase = p.phase; opening = p.opening.items; start = p.start }) };
}

impl Plan {
    /// The plan of a program on a network: each node opens with the program's initial values, replaced by those of the
    /// file's `set`; the start is round 0. The first fault of `set` is answered, and then both are dropped. All faults
    /// but `SetTwice`, which takes a mark for each node, are found before any memory is taken.
    pub fn new(alloc: Global, program: Program, file: NetFile) -> Result<Plan, PlanFault>
        ensures plan { IsAnswer PlanFault.Memory (plan_of program file) result }
        ensures at_once { IfErr (plan_of program file) (λ fault. fault ≢ PlanFault.SetTwice → result ≡ Err fault) }
    {
        let opening = opening_by(alloc, &program, &file)?;
        let phase = file.phase();
        let network = file.into_network();
        Ok(Plan {
            program,
            network,
            phase,
            opening,
            start: 0,
        })
    }

    /// This plan from a configuration on: its states are the opening and its round is the start, and all else
    /// stays. Where it is the configuration that the plan itself has at its round, both plans have the same
    /// rounds from there on.
    ///
    /// `Foreign` comes where the configuration has another number of nodes or of fields than the plan, before
    /// anything is done; then, and where memory ran out, the plan is dropped.
    pub fn resume(self, alloc: Global, config: &Config) -> Result<Plan, ResumeFault>
        ensures plan { IsAnswer ResumeFault.Memory (resumed self config.now) result }
        ensures at_once { IfErr (resumed self config.now) (λ fault. result ≡ Err fault) }
        ensures law { IfOk result (GoesOnAs self config.now) }
    {
        let start = config.rounds();
        let opening = self.states_of(alloc, config)?;
        Ok(Plan {
            program: self.program,
            network: self.network,
            phase: self.phase,
            opening,
            start,
        })
    }

    /// This plan with other initial states, one for each node; all else stays. Words of fields that the program does not
    /// declare are 0.
    pub fn with_openings(self, states: Vec<State>) -> Plan
        requires nodes { vec_len states ≡ length self.network }
        requires plain { All (IsPlain (length self.program.fields)) states.items }
        ensures plan { result ≡ record { program = self.program; network = self.network; phase = self.phase; opening = states.items; start = self.start } }
    {
        Plan {
            program: self.program,
            network: self.network,
            phase: self.phase,
            opening: states,
            start: self.start,
        }
    }

    /// The states of a configuration that has as many nodes and fields as the plan.
    fn states_of(&self, alloc: Global, config: &Config) -> Result<Vec<State>, ResumeFault>
        ensures states { IfOk result (λ v. v.items ≡ config.now.states) }
        ensures plan { IfOk result (λ _. resumed self.now config.now ≡ Ok (from_config self.now config.now)) }
        ensures whole { IfOk result (λ _. IsPlan (from_config self.now config.now)) }
        ensures fault { IfErr result (λ fault. fault ≢ ResumeFault.Memory → resumed self.now config.now ≡ Err fault) }
        ensures at_once { IfErr (resumed self.now config.now) (λ fault. result ≡ Err fault) }
    {
        // For the proof: what holds of every plan, and of every configuration.
        let _phase = self.phase();
        let _round = config.rounds();
        if config.nodes() != self.network.nodes() {
            return Err(ResumeFault::Foreign);
        }
        if config.fields() != self.program.field_count() {
            return Err(ResumeFault::Foreign);
        }
        let states = config.states().to_vec(alloc)?;
        Ok(states)
    }

    /// The program.
    pub fn program(&self) -> &Program
        ensures program { result.now ≡ self.now.program }
    {
        &self.program
    }

    /// The network.
    pub fn network(&self) -> &Network
        ensures network { result.now ≡ self.now.network }
    {
        &self.network
    }

    /// The phase at which all nodes open before round 0: 0, 1 or 2.
    pub fn phase(&self) -> u8
        ensures phase { result ≡ self.now.phase }
        ensures whole { IsPlan self.now }
    {
        self.phase
    }

    /// The round of the initial states, counted from round 0.
    pub fn start(&self) -> u32
        ensures start { result ≡ self.now.start }
    {
        self.start
    }

    /// The initial states by rising number of the node.
    pub fn openings(&self) -> &[State]
        ensures openings { result.now ≡ self.now.opening }
    {
        self.opening.as_slice()
    }

    /// The initial state of a node, or none where there is no such node.
    pub fn opening(&self, node: u32) -> Option<State>
        ensures opening { result ≡ slice_get self.now.opening node }
    {
        self.opening.get(node as usize).copied()
    }

    /// Whether the plans are equal: equal program, network, phase, initial states and start.
    pub fn same(&self, other: &Plan) -> bool
        ensures exact { IsTrue result ↔ (self.now ≡ other.now) }
    {
        if !self.program.same(&other.program) {
            return false;
        }
        if !self.network.same(&other.network) {
            return false;
        }
        if !are_same(&self.opening, &other.opening) {
            return false;
        }
        self.phase == other.phase && self.start == other.start
    }
}

/// Whether the states are equal, one by one.
fn are_same(left: &[State], right: &[State]) -> bool
    ensures { IsTrue result ↔ (left.now ≡ right.now) }
{
    left == right
}
