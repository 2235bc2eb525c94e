//! Plans as they are lent, of networks of any size.
ghost use Rattle.std.specs.Prelude.{◌≡◌, length, IfOk, IfErr, Ok, Err};
ghost use Rattle.rounds_plan.specs.Starts.{IsStart, opened_by, start_of};

use crate::fault::StartFault;
use crate::parts::{Opening, check_parts};
use crate::plan::Plan;
use link_net::NetRows;
use rule_check::{Program, State};
use std::marker::Model;

/// A program on the rows of a network, lent, with the phase, the states and the round at which the nodes open. A contract
/// sees it as a plan.
#[derive(Drop)]
pub struct PlanRef<'a> {
    program: &'a Program,
    rows: NetRows<'a>,
    opening: Opening<'a>,
}

impl<'a> Model for PlanRef<'a> {
    ghost use Rattle.std.specs.Coded.{codes};
    ghost use Rattle.rule_lang.specs.TreeCode.{coded_tree};
    ghost use Rattle.rounds_plan.specs.Plans.{PlanView};
    ghost use Rattle.rounds_plan.specs.Starts.{IsStart, opened_by};

    ghost Value = { PlanView };

    ghost coded = { Prim.hlevel (codes, coded_tree) };

    ghost view = { λ p. opened_by p.program.now p.rows p.opening };

    ghost invariant = { λ p. IsStart (opened_by p.program.now p.rows p.opening) };
}

impl<'a> PlanRef<'a> {
    /// A program on rows: the nodes have these states at this round, counted from round 0. The phase is 0.
    ///
    /// The first fault of `NoNodes`, `StateCount`, `NotPlain` and `TooManyRounds` is told.
    pub fn new(
        program: &'a Program,
        rows: NetRows<'a>,
        opening: &'a [State],
        start: u32,
    ) -> Result<PlanRef<'a>, StartFault>
        ensures plan { IfOk result (λ plan. start_of program.now rows.entry opening.now start ≡ Ok plan) }
        ensures refused { IfErr result (λ fault. start_of program.now rows.entry opening.now start ≡ Err fault) }
    {
        check_parts(program, &rows, opening, start)?;
        let opening = Opening {
            phase: 0,
            states: opening,
            round: start,
        };
        Ok(PlanRef {
            program,
            rows,
            opening,
        })
    }

    /// A plan: its program on its network, with its phase, its initial states and its start.
    pub fn of_plan(plan: &'a Plan) -> PlanRef<'a>
        ensures plan { result ≡ plan.now }
    {
        // For the proof: what holds of every plan.
        let phase = plan.phase();
        let opening = Opening {
            phase,
            states: plan.openings(),
            round: plan.start(),
        };
        PlanRef {
            program: plan.program(),
            rows: plan.network().rows(),
            opening,
        }
    }

    /// The program.
    pub fn program(&self) -> &'a Program
        ensures program { result.now ≡ self.now.program }
    {
        self.program
    }

    /// The rows of the network.
    pub fn rows(&self) -> NetRows<'a>
        ensures rows { result ≡ self.now.network }
    {
        self.rows.lent()
    }

    /// How many nodes there are.
    pub fn nodes(&self) -> u32
        ensures count { result ≡ length self.now.network }
        ensures whole { IsStart self.now }
    {
        self.rows.nodes()
    }

    /// The phase at which all nodes open before round 0.
    pub fn phase(&self) -> u8
        ensures phase { result ≡ self.now.phase }
    {
        self.opening.phase
    }

    /// The round of the initial states, counted from round 0.
    pub fn start(&self) -> u32
        ensures start { result ≡ self.now.start }
    {
        self.opening.round
    }

    /// The initial states by rising number of the node.
    pub fn openings(&self) -> &'a [State]
        ensures openings { result.now ≡ self.now.opening }
    {
        self.opening.states
    }

    /// How the nodes open.
    pub fn opening(&self) -> Opening<'a>
        ensures plan { opened_by self.now.program self.now.network result ≡ self.now }
    {
        self.opening
    }
}
