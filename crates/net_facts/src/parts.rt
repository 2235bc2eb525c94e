//! The parts of a network that no links join.
ghost use Rattle.std.specs.Prelude.{◌≡◌, ◌<◌, ◌≤◌, ℕ, [], length, Contains, IfNone, IfOk, IfSome, OnOk, slice_index};
ghost use Rattle.net_facts.specs.Parts.{AreJoined, HasParts, IsNeighbour};
ghost use Rattle.net_facts.specs.Reaching.{AreReached, Grows, IsClosed};

use link_net::Network;
use std::alloc::{AllocError, Global};

/// The nodes that were reached, in the order in which they were, and which these are.
#[derive(Debug, Drop)]
pub(crate) struct Reached {
    pub(crate) marks: Vec<bool>,
    pub(crate) nodes: Vec<u32>,
}

/// No nodes, of so many.
pub(crate) fn none_reached(alloc: Global, count: usize) -> Result<Reached, AllocError>
    ensures whole { IfOk result (λ r. AreReached r.marks.items r.nodes.items) }
    ensures size { IfOk result (λ r. length r.marks.items ≡ count) }
    ensures none { IfOk result (λ r. r.nodes.items ≡ []) }
{
    Ok(Reached {
        marks: vec![in alloc; false; count]?,
        nodes: Vec::with_capacity(alloc, count)?,
    })
}

/// Reaches a node, where it was not reached before.
pub(crate) fn reach(reached: &mut Reached, node: u32) -> Result<(), AllocError>
    requires whole { AreReached reached.old.marks.items reached.old.nodes.items }
    requires within { node < length reached.old.marks.items }
    ensures whole { OnOk result (AreReached reached.new.marks.items reached.new.nodes.items) }
    ensures size { OnOk result (length reached.new.marks.items ≡ length reached.old.marks.items) }
    ensures node { OnOk result (Contains reached.new.nodes.items node) }
    ensures grows { OnOk result (Grows (λ v. v ≡ node) reached.old.nodes.items reached.new.nodes.items) }
    ensures fresh { OnOk result (Grows (λ v. Contains reached.old.nodes.items v → ⊥) reached.old.nodes.items reached.new.nodes.items) }
{
    if reached.marks[node as usize] {
        return Ok(());
    }
    reached.marks[node as usize] = true;
    reached.nodes.push(node)?;
    Ok(())
}

/// Reaches the neighbours of a node.
pub(crate) fn reach_neighbours(
    reached: &mut Reached,
    network: &Network,
    node: u32,
) -> Result<(), AllocError>
    requires whole { AreReached reached.old.marks.items reached.old.nodes.items }
    requires size { length reached.old.marks.items ≡ length network.now }
    ensures whole { OnOk result (AreReached reached.new.marks.items reached.new.nodes.items) }
    ensures size { OnOk result (length reached.new.marks.items ≡ length network.now) }
    ensures grows { OnOk result (Grows (IsNeighbour network.now node) reached.old.nodes.items reached.new.nodes.items) }
    ensures fresh { OnOk result (Grows (λ v. Contains reached.old.nodes.items v → ⊥) reached.old.nodes.items reached.new.nodes.items) }
    ensures all { OnOk result ((v : ℕ) → IsNeighbour network.now node v → Contains reached.new.nodes.items v) }
{
    // For the proof: each neighbour is a node.
    let _nodes = network.nodes();
    let neighbours = network.neighbours_of(node);
    for neighbour in neighbours {
        reach(reached, *neighbour)?;
    }
    Ok(())
}

/// The node that was reached at this place of the order.
fn node_at(reached: &Reached, place: usize) -> Option<u32>
    ensures node { IfSome result (λ u. (place < length reached.now.nodes.items) × (u ≡ slice_index reached.now.nodes.items place)) }
    ensures none { IfNone result (length reached.now.nodes.items ≤ place) }
{
    if place < reached.nodes.len() {
        Some(reached.nodes[place])
    } else {
        None
    }
}

/// Reaches a node, and all that links join with it.
fn reach_all(reached: &mut Reached, network: &Network, node: u32) -> Result<(), AllocError>
    requires whole { AreReached reached.old.marks.items reached.old.nodes.items }
    requires size { length reached.old.marks.items ≡ length network.now }
    requires within { node < length network.now }
    requires closed { IsClosed network.now reached.old.nodes.items }
    ensures whole { OnOk result (AreReached reached.new.marks.items reached.new.nodes.items) }
    ensures size { OnOk result (length reached.new.marks.items ≡ length network.now) }
    ensures node { OnOk result (Contains reached.new.nodes.items node) }
    ensures grows { OnOk result (Grows (AreJoined network.now node) reached.old.nodes.items reached.new.nodes.items) }
    ensures closed { OnOk result (IsClosed network.now reached.new.nodes.items) }
{
    let begin = reached.nodes.len();
    reach(reached, node)?;
    for next in begin..network.nodes() as usize {
        let Some(at) = node_at(reached, next) else {
            return Ok(());
        };
        reach_neighbours(reached, network, at)?;
    }
    Ok(())
}

/// How many parts the network has that no links join.
pub(crate) fn components(alloc: Global, network: &Network) -> Result<u32, AllocError>
    ensures { IfOk result (HasParts network.now) }
{
    let mut reached = none_reached(alloc, network.nodes() as usize)?;
    let mut count = 0;
    for node in 0..network.nodes() {
        if reached.marks[node as usize] {
            continue;
        }
        reach_all(&mut reached, network, node)?;
        count += 1;
    }
    Ok(count)
}
