//! What a finished world gives.
ghost use Rattle.std.specs.Prelude.{◌≡◌, ℕ, ◌<◌, ◌≤◌, IfOk, IfSome, IfNone, length, map};
ghost use Rattle.unison_world.specs.declared.node.Node.{Node};
ghost use Rattle.unison_world.specs.Counting.{moves_of};
ghost use Rattle.unison_world.specs.Pictures.{counts_of};

use crate::node::Node;
use rule_check::State;
use std::alloc::{AllocError, Global};

/// The least node below a stop.
pub fn first_below(stop: u32, nodes: &Vec<Node>) -> Option<u32>
    requires few { length nodes.now.items ≤ 65536 }
    ensures inside { IfSome result (λ u. u < length nodes.now.items) }
    ensures below { IfSome result (λ u. moves_of (counts_of nodes.now.items) u < stop) }
    ensures least { IfSome result (λ u. (v : ℕ) → v < u → stop ≤ moves_of (counts_of nodes.now.items) v) }
    ensures none { IfNone result ((v : ℕ) → v < length nodes.now.items → stop ≤ moves_of (counts_of nodes.now.items) v) }
{
    for node in 0..nodes.len() {
        if nodes[node].moves < stop {
            return Some(node as u32);
        }
    }
    None
}

/// The states that nodes show.
pub fn states_of(alloc: Global, nodes: &Vec<Node>) -> Result<Vec<State>, AllocError>
    ensures states { IfOk result (λ states. states.items ≡ map (λ (n : Node). n.register.current) nodes.now.items) }
{
    let mut states = Vec::with_capacity(alloc, nodes.len())?;
    for node in nodes {
        states.push(node.register.now())?;
    }
    Ok(states)
}
