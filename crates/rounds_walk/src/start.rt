//! What rounds begin with.
ghost use Rattle.std.specs.Prelude.{◌≡◌, length, IfOk};
ghost use Rattle.rounds_plan.specs.Starts.{IsStart};

use crate::walk::RoundWalk;
use link_net::NetRows;
use rounds_blocks::{Layout, MOST_ENDS, Walk, costs_of, is_worth_sharing, most_ends_to_share};
use rounds_code::RowCode;
use rounds_plan::{Opening, PlanRef};
use rule_check::{Program, State};
use std::alloc::{AllocError, Global};
use std::marker::Model;

/// How many neighbours all nodes have together, stopped at the type's end.
fn ends_of(rows: &NetRows<'_>) -> u64 {
    let mut ends: u64 = 0;
    for node in 0..rows.nodes() {
        ends = ends.saturating_add(rows.degree(node).unwrap_or(0) as u64);
    }
    ends
}

/// A plan, lent, and all that walks over its rounds share. A contract sees it as a plan.
#[derive(Drop)]
pub struct Start<'a> {
    program: &'a Program,
    code: RowCode<'a>,
    layout: Layout<'a>,
    nodes: u32,
    /// How many neighbours all nodes have together.
    ends: u64,
    opening: Opening<'a>,
}

impl<'a> Model for Start<'a> {
    ghost use Rattle.std.specs.Coded.{codes};
    ghost use Rattle.rule_lang.specs.TreeCode.{coded_tree};
    ghost use Rattle.rounds_plan.specs.Plans.{PlanView};
    ghost use Rattle.rounds_plan.specs.Starts.{opened_by};
    ghost use Rattle.rounds_walk.specs.Walking.{IsPrepared};

    ghost Value = { PlanView };

    ghost coded = { Prim.hlevel (codes, coded_tree) };

    ghost view = { λ s. opened_by s.program.now s.layout s.opening };

    ghost invariant = { λ s. IsPrepared (opened_by s.program.now s.layout s.opening) s.code s.nodes };
}

impl<'a> Start<'a> {
    /// The start of a plan, whose rounds are made sequentially.
    pub fn new(alloc: Global, plan: &PlanRef<'a>) -> Result<Start<'a>, AllocError>
        ensures plan { IfOk result (λ start. start ≡ plan.now) }
    {
        let start = Start::in_blocks(alloc, plan, MOST_ENDS)?;
        Ok(start)
    }

    /// What `new` does, for rounds that are to be shared among threads, so that these can part the work of hubs.
    pub fn to_share(alloc: Global, plan: &PlanRef<'a>) -> Result<Start<'a>, AllocError>
        ensures plan { IfOk result (λ start. start ≡ plan.now) }
    {
        let most_ends = most_ends_to_share(plan.program());
        let start = Start::in_blocks(alloc, plan, most_ends)?;
        Ok(start)
    }

    /// The start of a plan, in blocks whose nodes have so many neighbours together at most.
    fn in_blocks(alloc: Global, plan: &PlanRef<'a>, most_ends: u32) -> Result<Start<'a>, AllocError>
        ensures plan { IfOk result (λ start. start ≡ plan.now) }
    {
        let (program, opening) = (plan.program(), plan.opening());
        let (nodes, rows) = (plan.nodes(), plan.rows());
        let ends = ends_of(&rows);
        let code = RowCode::new(alloc, program)?;
        let layout = Layout::new(alloc, rows, most_ends)?;
        Ok(Start {
            program,
            code,
            layout,
            nodes,
            ends,
            opening,
        })
    }

    /// The program.
    pub fn program(&self) -> &Program
        ensures program { result.now ≡ self.now.program }
    {
        self.program
    }

    /// How many nodes there are.
    pub fn nodes(&self) -> u32
        ensures count { result ≡ length self.now.network }
        ensures whole { IsStart self.now }
    {
        self.nodes
    }

    /// The round of the initial states, counted from round 0.
    pub fn start(&self) -> u32
        ensures start { result ≡ self.now.start }
    {
        self.opening.round
    }

    /// The initial states by rising number of the node.
    pub fn openings(&self) -> &[State]
        ensures openings { result.now ≡ self.now.opening }
    {
        self.opening.states
    }

    /// A walk that stands at the start.
    pub fn walk(&'a self, alloc: Global) -> Result<RoundWalk<'a>, AllocError>
        ensures start { IfOk result (λ walk. walk ≡ record { plan = self.now; round = self.now.start }) }
    {
        let states = Walk::new(
            alloc,
            self.program,
            &self.code,
            &self.layout,
            self.opening.states,
        )?;
        Ok(RoundWalk::from_start(self, states))
    }

    /// A walk that stands at the start, whose rounds `go_to_shared` and `step_shared` share among so many threads,
    /// where they have enough work. With fewer than two threads each round is made sequentially.
    pub fn shared_walk(&'a self, alloc: Global, threads: usize) -> Result<RoundWalk<'a>, AllocError>
        ensures start { IfOk result (λ walk. walk ≡ record { plan = self.now; round = self.now.start }) }
    {
        let mut states = Walk::new(
            alloc,
            self.program,
            &self.code,
            &self.layout,
            self.opening.states,
        )?;
        if threads > 1 && is_worth_sharing(self.program, self.nodes as u64, self.ends) {
            states.share(alloc, &self.code, threads, costs_of(self.program))?;
        }
        Ok(RoundWalk::from_start(self, states))
    }
}
