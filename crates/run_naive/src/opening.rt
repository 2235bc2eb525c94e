//! The nodes of a plan before any step.
ghost use Rattle.std.specs.Prelude.{◌≡◌, ℕ, [], length, map, IfOk};
ghost use Rattle.rounds_plan.specs.Lockstep.{state_in};
ghost use Rattle.run_naive.specs.Naive.{opening_node, opening_nodes};
ghost use Rattle.run_naive.specs.Keeping.{nears_from, past_in, past_of, shown};

use crate::node::Node;
use link_net::Network;
use rounds_plan::Plan;
use rule_check::{Near, State};
use std::alloc::{AllocError, Global};

/// The initial state of a node; 0 in each word where there is no such node.
fn opening_of(plan: &Plan, node: u32) -> State
    ensures exact { result ≡ state_in plan.now.opening node }
{
    match plan.opening(node) {
        Some(state) => state,
        None => State { words: [0; 8] },
    }
}

/// A desk with copies of the initial states of neighbours.
fn desk_of(
    alloc: Global,
    plan: &Plan,
    neighbours: &[u32],
    weights: &[u32],
) -> Result<Vec<Near>, AllocError>
    requires pairs { length weights.now ≡ length neighbours.now }
    ensures exact { IfOk result (λ desk. desk.items ≡ nears_from (state_in plan.now.opening) neighbours.now weights.now) }
{
    let mut desk = Vec::new(alloc);
    for (slot, neighbour) in neighbours.iter().enumerate() {
        let id = *neighbour;
        let state = opening_of(plan, id);
        let weight = weights[slot];
        desk.push(Near { id, weight, state })?;
    }
    Ok(desk)
}

/// A node before any step.
#[tactic(auto, using(crate::proofs::Opened::nears_of_row))]
fn opening_node(alloc: Global, plan: &Plan, node: u32) -> Result<Node, AllocError>
    ensures exact { IfOk result (λ n. shown n ≡ opening_node plan.now node) }
    ensures past { IfOk result (λ n. n.past.items ≡ []) }
{
    let neighbours = plan.network().neighbours_of(node);
    let weights = plan.network().weights_of(node);
    let desk = desk_of(alloc, plan, neighbours, weights)?;
    Ok(Node {
        moves: plan.start(),
        state: opening_of(plan, node),
        desk,
        past: Vec::new(alloc),
    })
}

/// The nodes of a plan before any step.
pub(crate) fn opening_nodes(alloc: Global, plan: &Plan) -> Result<Vec<Node>, AllocError>
    ensures exact { IfOk result (λ nodes. map shown nodes.items ≡ opening_nodes plan.now) }
    ensures past { IfOk result (λ nodes. (u : ℕ) → past_in (map past_of nodes.items) u ≡ []) }
{
    let mut nodes = Vec::new(alloc);
    for node in 0..plan.network().nodes() {
        nodes.push(opening_node(alloc, plan, node)?)?;
    }
    Ok(nodes)
}
