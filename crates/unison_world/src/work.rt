//! Work that is computed apart from a world, and its results.
ghost use Rattle.std.specs.Prelude.{◌≡◌};
ghost use Rattle.unison_world.specs.WorkViews.{done_from, next_of, IsDone};

use rounds_plan::Plan;
use rule_check::{State, Sums};
use std::marker::Model;
use std::sync::Arc;

/// What a node's next state is computed from: its number, its degree, its own state, its round and the aggregates
/// over its neighbours.
#[derive(Drop)]
pub struct Work {
    pub(crate) plan: Arc<Plan>,
    pub(crate) node: u32,
    pub(crate) degree: u32,
    pub(crate) own: State,
    pub(crate) round: u32,
    pub(crate) sums: Sums,
}

impl Model for Work {
    ghost use Rattle.std.specs.Coded.{codes};
    ghost use Rattle.std.specs.Arc.{arc_value};
    ghost use Rattle.rule_lang.specs.TreeCode.{coded_tree};
    ghost use Rattle.unison_world.specs.WorkViews.{WorkView};

    ghost Value = { WorkView };

    ghost coded = { Prim.hlevel (codes, coded_tree) };

    ghost view = { λ w. record { plan = arc_value w.plan; node = w.node; degree = w.degree; own = w.own; round = w.round; sums = w.sums } };
}

/// A node's next state, with what it was computed from.
#[derive(Drop)]
pub struct Done {
    work: Work,
    state: State,
}

impl Model for Done {
    ghost use Rattle.std.specs.Coded.{codes};
    ghost use Rattle.rule_lang.specs.TreeCode.{coded_tree};
    ghost use Rattle.unison_world.specs.WorkViews.{DoneView, IsDone};

    ghost Value = { DoneView };

    ghost coded = { Prim.hlevel (codes, coded_tree) };

    ghost view = { λ d. record { work = d.work; state = d.state } };

    ghost invariant = { λ d. IsDone (record { work = d.work; state = d.state }) };
}

impl Work {
    /// Computes the next state.
    pub fn compute(self) -> Done
        ensures done { result ≡ done_from self }
    {
        let state = self
            .plan
            .program()
            .finish(self.node, self.degree, self.own, self.round, &self.sums);
        Done { work: self, state }
    }
}

impl Done {
    /// What it was computed from.
    pub(crate) fn work(&self) -> &Work
        ensures work { result.now ≡ self.now.work }
    {
        &self.work
    }

    /// The number of the node that the state is for.
    pub fn node(&self) -> u32
        ensures node { result ≡ self.now.work.node }
    {
        self.work.node
    }

    /// The next state.
    pub(crate) fn state(&self) -> State
        ensures state { result ≡ self.now.state }
        ensures exact { IsDone self.now }
    {
        self.state
    }
}
