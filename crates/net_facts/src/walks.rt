//! Distances in a network, found by walks from its nodes.
ghost use Rattle.std.specs.Prelude.{◌≡◌, ◌<◌, ◌≤◌, ℕ, length, Contains, IfOk, OnOk};
ghost use Rattle.net_facts.specs.Distances.{IsDiameter, IsEccentricity};
ghost use Rattle.net_facts.specs.Parts.{IsNeighbour};
ghost use Rattle.net_facts.specs.Reaching.{AreReached, Grows, IsClosedBelow};

use crate::parts::{Reached, none_reached, reach, reach_neighbours};
use link_net::Network;
use std::alloc::{AllocError, Global};

/// Reaches the neighbours of all nodes that were reached; those of the first, so many, were reached before.
fn reach_level(reached: &mut Reached, network: &Network, begin: usize) -> Result<(), AllocError>
    requires whole { AreReached reached.old.marks.items reached.old.nodes.items }
    requires size { length reached.old.marks.items ≡ length network.now }
    requires begin { begin ≤ length reached.old.nodes.items }
    requires closed { IsClosedBelow network.now reached.old.nodes.items begin }
    ensures whole { OnOk result (AreReached reached.new.marks.items reached.new.nodes.items) }
    ensures size { OnOk result (length reached.new.marks.items ≡ length network.now) }
    ensures grows { OnOk result (Grows (λ v. (u : ℕ) × Contains reached.old.nodes.items u × IsNeighbour network.now u v) reached.old.nodes.items reached.new.nodes.items) }
    ensures fresh { OnOk result (Grows (λ v. Contains reached.old.nodes.items v → ⊥) reached.old.nodes.items reached.new.nodes.items) }
    ensures closed { OnOk result (IsClosedBelow network.now reached.new.nodes.items (length reached.old.nodes.items)) }
{
    for place in begin..reached.nodes.len() {
        let node = reached.nodes[place];
        reach_neighbours(reached, network, node)?;
    }
    Ok(())
}

/// The greatest distance of a node from this one, of those that can be reached.
fn eccentricity(alloc: Global, network: &Network, node: u32) -> Result<u32, AllocError>
    requires within { node < length network.now }
    ensures distance { IfOk result (IsEccentricity network.now node) }
{
    let mut reached = none_reached(alloc, network.nodes() as usize)?;
    reach(&mut reached, node)?;
    let mut begin = 0;
    for distance in 0..network.nodes() {
        let end = reached.nodes.len();
        reach_level(&mut reached, network, begin)?;
        if reached.nodes.len() == end {
            return Ok(distance);
        }
        begin = end;
    }
    Ok(network.nodes())
}

/// The greatest distance between two nodes that a way joins.
pub(crate) fn diameter(alloc: Global, network: &Network) -> Result<u32, AllocError>
    ensures distance { IfOk result (IsDiameter network.now) }
{
    let mut greatest = 0;
    for node in 0..network.nodes() {
        greatest = eccentricity(alloc, network, node)?.max(greatest);
    }
    Ok(greatest)
}
