//! Moves to one count, beside the states of that lockstep round.
ghost use Rattle.std.specs.Prelude.{◌≡◌, ◌==◌, ◌+◌, ◌-◌, if◌then◌else◌, length, map, option_map, slice_get};
ghost use Rattle.rounds_plan.specs.Lockstep.{lockstep_states};
ghost use Rattle.run_naive.specs.Keeping.{AreCompared, AreKnown, Before, difference_at, past_of, shown};

use crate::difference::{Difference, with_found};
use crate::node::Node;
use rounds_plan::{Plan, state_at};
use rule_check::State;

/// The move at a place of a node, beside the node's lockstep state after it, where there is such a move.
fn move_at(this: &Node, index: usize, node: u32, moves: u32, lockstep: State) -> Option<Difference>
    ensures exact { result ≡ option_map (difference_at node moves lockstep) (slice_get (past_of this.now) index) }
{
    let made = this.past.get(index)?;
    Some(Difference {
        step: made.step,
        node,
        moves,
        state: made.state,
        lockstep,
    })
}

/// The first difference, where one is known and the moves at a place of all nodes are compared with these states, which
/// are those of the round after them.
pub(crate) fn compare_moves(
    plan: &Plan,
    nodes: &[Node],
    states: &[State],
    index: usize,
    moves: u32,
    known: Option<Difference>,
) -> Option<Difference>
    requires nodes { length nodes.now ≡ length plan.now.network }
    requires states { states.now ≡ lockstep_states plan.now moves (length plan.now.network) }
    requires moves { moves ≡ plan.now.start + (index + 1) }
    requires known { AreCompared plan.now (map past_of nodes.now) (Before index) known }
    ensures first { AreCompared plan.now (map past_of nodes.now) (Before (index + 1)) result }
{
    let mut first = known;
    for node in 0..plan.network().nodes() {
        let place = node as usize;
        let lockstep = state_at(states, node);
        let found = move_at(&nodes[place], index, node, moves, lockstep);
        first = with_found(first, found);
    }
    first
}

/// What is noted of a node: its state of this round, where it has moved so often in all.
fn noted(this: &Node, moves: u32, known: State, lockstep: State) -> State
    ensures exact { result ≡ (if this.now.moves == moves then lockstep else known) }
{
    if this.moves == moves { lockstep } else { known }
}

/// Notes the lockstep states of the nodes that have moved so often in all.
pub(crate) fn note_lockstep(
    plan: &Plan,
    nodes: &[Node],
    states: &[State],
    moves: u32,
    known: &mut [State],
)
    requires nodes { length nodes.now ≡ length plan.now.network }
    requires states { states.now ≡ lockstep_states plan.now moves (length plan.now.network) }
    requires room { length known.old ≡ length plan.now.network }
    requires known { AreKnown plan.now (map shown nodes.now) (moves - 1) known.old }
    ensures room { length known.new ≡ length plan.now.network }
    ensures known { AreKnown plan.now (map shown nodes.now) moves known.new }
{
    for node in 0..plan.network().nodes() {
        let place = node as usize;
        let old = state_at(known, node);
        let new = state_at(states, node);
        known[place] = noted(&nodes[place], moves, old, new);
    }
}
