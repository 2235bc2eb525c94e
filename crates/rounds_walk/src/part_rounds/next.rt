//! The next state of one node of a part.
ghost use Rattle.std.specs.Prelude.{◌≡◌, ◌<◌, length, map, slice_index};
ghost use Rattle.link_net.specs.Neighbours.{degree, row};
ghost use Rattle.rule_check.specs.Gathering.{sums_at};
ghost use Rattle.rule_check.specs.Value.{here_at};
ghost use Rattle.rounds_plan.specs.Lockstep.{state_in};
ghost use Rattle.rounds_walk.specs.part_rounds.Fitting.{Fits, states_in};
ghost use Rattle.rounds_walk.specs.part_rounds.Parts.{part_near, part_nears, part_next};

use crate::part_rounds::states::state_at;
use link_net::NetRows;
use rule_check::{Near, Program, State, Sums};

/// What the next states of a part's nodes are made of, and how many fields the program has.
#[derive(Clone, Copy)]
pub(crate) struct Part<'a> {
    pub(crate) program: &'a Program,
    pub(crate) ids: &'a [u32],
    pub(crate) rows: &'a NetRows<'a>,
    pub(crate) round: u32,
    pub(crate) from: &'a [u32],
    pub(crate) fields: usize,
}

/// The state of a node.
pub(crate) fn state_of_node(part: &Part<'_>, node: u32) -> State
    requires part { Fits part.now }
    requires inside { node < length part.now.rows.now }
    ensures state { result ≡ state_in (states_in part.now) node }
{
    state_at(part.from, part.fields, part.ids.len(), node as usize)
}

/// A neighbour, as the program sees it.
fn near_of(part: &Part<'_>, neighbour: u32, weight: u32) -> Near
    requires part { Fits part.now }
    requires inside { neighbour < length part.now.rows.now }
    ensures near { result ≡ part_near part.now.ids.now (states_in part.now) (neighbour, weight) }
{
    Near {
        id: part.ids[neighbour as usize],
        weight,
        state: state_of_node(part, neighbour),
    }
}

/// The values of the aggregates of a node with this state over all its neighbours.
fn gather(part: &Part<'_>, node: u32, own: State, neighbours: &[u32], weights: &[u32]) -> Sums
    requires part { Fits part.now }
    requires inside { node < length part.now.rows.now }
    requires neighbours { neighbours.now ≡ map (λ a. a.0) (row part.now.rows.now node) }
    requires weights { weights.now ≡ map (λ a. a.1) (row part.now.rows.now node) }
    ensures sums { result ≡ sums_at part.now.program.now (here_at part.now.program.now part.now.round (slice_index part.now.ids.now node) (degree part.now.rows.now node) own
        (part_nears part.now.ids.now part.now.rows.now (states_in part.now) node)) }
{
    let id = part.ids[node as usize];
    let degree = neighbours.len() as u32;
    let mut sums = part.program.start();
    for (slot, neighbour) in neighbours.iter().enumerate() {
        let near = near_of(part, *neighbour, weights[slot]);
        part.program
            .take(&mut sums, id, degree, own, part.round, &near);
    }
    sums
}

/// The next state of a node with this state.
pub(crate) fn next_of(part: &Part<'_>, node: u32, own: State) -> State
    requires part { Fits part.now }
    requires inside { node < length part.now.rows.now }
    requires own { own ≡ state_in (states_in part.now) node }
    ensures next { result ≡ part_next part.now.program.now part.now.ids.now part.now.rows.now part.now.round (states_in part.now) node }
{
    let (neighbours, weights) = part.rows.row_of(node);
    let sums = gather(part, node, own, neighbours, weights);
    let id = part.ids[node as usize];
    part.program
        .finish(id, neighbours.len() as u32, own, part.round, &sums)
}
