//! The states of all nodes by fields.
ghost use Rattle.std.specs.Prelude.{◌≡◌, IfOk};

use crate::columns::states_of;
use rule_check::State;
use std::alloc::{AllocError, Global};
use std::marker::Model;

/// The states of all nodes, a word for each node and field: a list of states takes eight words for each node. A contract
/// sees the list, by rising number of the node.
#[derive(Drop)]
pub struct PackedStates {
    pub(crate) nodes: usize,
    pub(crate) columns: Vec<Vec<u32>>,
}

impl Model for PackedStates {
    ghost use Rattle.std.specs.Prelude.{List, ◌≤◌, length, map};
    ghost use Rattle.std.specs.Coded.{codes};
    ghost use Rattle.rule_check.specs.declared.state.State.{State};
    ghost use Rattle.link_net.specs.Neighbours.{numbers_below};
    ghost use Rattle.rounds_code.specs.Block.{state_at};
    ghost use Rattle.rounds_blocks.specs.Rounds.{HaveWords};

    ghost Value = { List State };

    ghost coded = { Prim.hlevel codes };

    ghost view = { λ packed. map (state_at packed.columns.items) (numbers_below packed.nodes) };

    ghost invariant = { λ packed. (length packed.columns.items ≤ 8) × HaveWords packed.nodes packed.columns.items };
}

impl PackedStates {
    /// The list of the states.
    pub fn states(&self, alloc: Global) -> Result<Vec<State>, AllocError>
        ensures exact { IfOk result (λ states. states.items ≡ self.now) }
    {
        states_of(alloc, self.nodes, &self.columns)
    }
}
