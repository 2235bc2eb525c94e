//! Plans on simple networks, as they are lent.
ghost use Rattle.std.specs.Prelude.{◌≡◌, ◌↔◌, ℕ, length, slice_get, IfOk, IfErr, Some};
ghost use Rattle.link_net.specs.Neighbours.{neighbour_at, row};
ghost use Rattle.link_net.specs.Simple.{simple_fault};
ghost use Rattle.rounds_plan.specs.Starts.{IsSimplePlan};

use crate::plan::Plan;
use crate::plan_ref::PlanRef;
use link_net::{NetRows, SimpleFault, check_simple};
use rule_check::{Program, State};
use std::marker::Model;

/// A plan, lent, on a simple network of any size: a link joins two different nodes, stands once, and shows the same weight
/// from both ends, so that nodes can move at their own pace. A contract sees it as a plan.
#[derive(Drop)]
pub struct SimplePlan<'a> {
    plan: PlanRef<'a>,
}

impl<'a> Model for SimplePlan<'a> {
    ghost use Rattle.std.specs.Coded.{codes};
    ghost use Rattle.rule_lang.specs.TreeCode.{coded_tree};
    ghost use Rattle.rounds_plan.specs.Plans.{PlanView};
    ghost use Rattle.rounds_plan.specs.Starts.{IsSimplePlan};

    ghost Value = { PlanView };

    ghost coded = { Prim.hlevel (codes, coded_tree) };

    ghost view = { λ p. p.plan };

    ghost invariant = { λ p. IsSimplePlan p.plan };
}

impl<'a> SimplePlan<'a> {
    /// A plan whose network is simple, or the first place at which it is not ([`SimpleFault`]). No memory is taken.
    pub fn new(plan: PlanRef<'a>) -> Result<SimplePlan<'a>, SimpleFault>
        ensures plan { IfOk result (λ simple. simple ≡ plan.entry) }
        ensures refused { IfErr result (λ fault. simple_fault plan.entry.network ≡ Some fault) }
    {
        // For the proof: what holds of every plan that is lent.
        let _nodes = plan.nodes();
        check_simple(&plan.rows())?;
        Ok(SimplePlan { plan })
    }

    /// The plan of a network file, whose network is simple.
    pub fn of_plan(plan: &'a Plan) -> SimplePlan<'a>
        ensures plan { result ≡ plan.now }
    {
        // For the proof: what holds of every plan.
        let _phase = plan.phase();
        SimplePlan {
            plan: PlanRef::of_plan(plan),
        }
    }

    /// The program.
    pub fn program(&self) -> &'a Program
        ensures program { result.now ≡ self.now.program }
    {
        self.plan.program()
    }

    /// The rows of the network.
    pub fn rows(&self) -> NetRows<'a>
        ensures rows { result ≡ self.now.network }
    {
        self.plan.rows()
    }

    /// How many nodes there are.
    pub fn nodes(&self) -> u32
        ensures count { result ≡ length self.now.network }
        ensures whole { IsSimplePlan self.now }
    {
        self.plan.nodes()
    }

    /// The phase at which all nodes open before round 0.
    pub fn phase(&self) -> u8
        ensures phase { result ≡ self.now.phase }
    {
        self.plan.phase()
    }

    /// The round of the initial states, counted from round 0.
    pub fn start(&self) -> u32
        ensures start { result ≡ self.now.start }
    {
        self.plan.start()
    }

    /// The initial states by rising number of the node.
    pub fn openings(&self) -> &'a [State]
        ensures openings { result.now ≡ self.now.opening }
    {
        self.plan.openings()
    }

    /// The initial state of a node, or none where there is no such node.
    pub fn opening(&self, node: u32) -> Option<State>
        ensures opening { result ≡ slice_get self.now.opening node }
    {
        self.plan.openings().get(node as usize).copied()
    }

    /// The neighbour at a slot of a node, and the weight of the link to it; none where there is no such node or slot.
    pub fn link(&self, node: u32, slot: u32) -> Option<(u32, u32)>
        ensures exact { result ≡ slice_get (row self.now.network node) slot }
    {
        let rows = self.rows();
        rows.neighbour(node, slot).zip(rows.weight(node, slot))
    }

    /// The slot of a node at which a neighbour stands, or none where it is no neighbour of the node.
    pub fn slot_of(&self, node: u32, neighbour: u32) -> Option<u32>
        ensures exact { (j : ℕ) → (result ≡ Some j) ↔ (neighbour_at self.now.network node j ≡ Some neighbour) }
    {
        // For the proof: what holds of every such plan.
        let _nodes = self.nodes();
        self.rows().slot_of(node, neighbour)
    }
}
