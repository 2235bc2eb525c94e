//! The tables of a network, made from its links.
ghost use Rattle.std.specs.Prelude.{◌≡◌, ◌≢◌, ◌+◌, ◌-◌, ◌<◌, ◌≤◌, ℕ, true, false, length, map, nat_lt, slice_index, slice_index_or, IfOk, IfErr};
ghost use Rattle.std.specs.List.{list_any};
ghost use Rattle.std.specs.List.Sorted.{IsPermutation, IsStrictlySortedBy, IsNonDecreasing};
ghost use Rattle.link_net.specs.Limits.{most_neighbours};
ghost use Rattle.link_net.specs.Links.{is_self_link, has_link_twice, AllWithin};
ghost use Rattle.link_net.specs.Neighbours.{numbers_below};
ghost use Rattle.link_net.specs.Reading.{IsAnswer};
ghost use Rattle.link_net.specs.Arcs.{Arc, arcs_of, arc_cmp, repeats, IsFirst};
ghost use Rattle.link_net.specs.Tables.{network_in};

use crate::{NetFault, Network};
use std::alloc::{AllocError, Global};

/// The most links of a network.
pub const MOST_LINKS: usize = 262_144;

/// The most neighbours of a node.
pub const MOST_NEIGHBOURS: usize = 4096;

/// A link: its two ends and its weight.
pub type Link = (u32, u32, u32);

/// A link seen from one of its ends: the node that it comes from, the node that it leads to, its weight.
pub type Arc = (u32, u32, u32);

/// Both directions of each link, one after the other. It fails only where memory runs out.
pub fn arcs(alloc: Global, links: &[Link]) -> Result<Vec<Arc>, AllocError>
    ensures { IfOk result (λ v. v.items ≡ arcs_of links.now) }
{
    let mut arcs = Vec::with_capacity(alloc, 2 * links.len())?;
    for link in links {
        arcs.push(*link)?;
        arcs.push((link.1, link.0, link.2))?;
    }
    Ok(arcs)
}

/// Whether some arc leads as the one before it does.
fn has_repeat(arcs: &[Arc]) -> bool
    ensures { result ≡ repeats arcs.now }
{
    let Some((first, rest)) = arcs.split_first() else {
        return false;
    };
    let mut last = *first;
    for arc in rest {
        if arc.0 == last.0 && arc.1 == last.1 {
            return true;
        }
        last = *arc;
    }
    false
}

/// The arcs of the links, sorted, where no link stands twice.
pub fn sorted_arcs(alloc: Global, links: &[Link]) -> Result<Vec<Arc>, NetFault>
    requires { list_any is_self_link links.now ≡ false }
    ensures once { IfOk result (λ _. has_link_twice links.now ≡ false) }
    ensures arcs { IfOk result (λ v. IsPermutation (arcs_of links.now) v.items) }
    ensures sorted { IfOk result (λ v. IsStrictlySortedBy arc_cmp v.items) }
    ensures twice { IfErr result (λ e. e ≢ NetFault.Memory → (e ≡ NetFault.LinkTwice) × (has_link_twice links.now ≡ true)) }
{
    let mut arcs = arcs(alloc, links)?;
    arcs.sort_unstable();
    if has_repeat(arcs.as_slice()) {
        return Err(NetFault::LinkTwice);
    }
    Ok(arcs)
}

/// How many arcs come from a node below this one.
fn first_from(arcs: &[Arc], node: u32) -> usize
    requires { IsStrictlySortedBy arc_cmp arcs.now }
    ensures bound { result ≤ length arcs.now }
    ensures before { (k : ℕ) (d : Arc) → k < result → (slice_index_or arcs.now k d).0 < node }
    ensures after { (k : ℕ) (d : Arc) → result ≤ k → k < length arcs.now → node ≤ (slice_index_or arcs.now k d).0 }
{
    arcs.partition_point(|arc| arc.0 < node)
}

/// Where the arcs of each node begin, and last where they all end.
pub(crate) fn offsets(alloc: Global, arcs: &[Arc], nodes: u32) -> Result<Vec<usize>, AllocError>
    requires sorted { IsStrictlySortedBy arc_cmp arcs.now }
    requires small { nodes ≤ 65536 }
    ensures count { IfOk result (λ v. length v.items ≡ nodes + 1) }
    ensures firsts { IfOk result (λ v. (u : ℕ) → u < length v.items → IsFirst arcs.now u (slice_index v.items u)) }
{
    let mut offsets = Vec::with_capacity(alloc, nodes as usize + 1)?;
    for node in 0..nodes + 1 {
        offsets.push(first_from(arcs, node))?;
    }
    Ok(offsets)
}

/// Where each arc leads. It fails only where memory runs out.
pub fn targets(alloc: Global, arcs: &[Arc]) -> Result<Vec<u32>, AllocError>
    ensures { IfOk result (λ v. v.items ≡ map (λ a. a.1) arcs.now) }
{
    arcs.iter().map(|arc| arc.1).collect(alloc)
}

/// The weight of each arc. It fails only where memory runs out.
pub fn weights(alloc: Global, arcs: &[Arc]) -> Result<Vec<u32>, AllocError>
    ensures { IfOk result (λ v. v.items ≡ map (λ a. a.2) arcs.now) }
{
    arcs.iter().map(|arc| arc.2).collect(alloc)
}

/// Whether some link joins a node with itself.
pub fn has_self_link(links: &[Link]) -> bool
    ensures { result ≡ list_any is_self_link links.now }
{
    links.iter().any(|link| link.0 == link.1)
}

/// Whether some node has more neighbours than are allowed.
fn has_crowded_node(offsets: &[usize]) -> bool
    requires some { 1 ≤ length offsets.now }
    requires rising { IsNonDecreasing offsets.now }
    ensures { result ≡ list_any (λ u. nat_lt most_neighbours (slice_index offsets.now (u + 1) - slice_index offsets.now u)) (numbers_below (length offsets.now - 1)) }
{
    for node in 0..offsets.len() - 1 {
        if offsets[node + 1] - offsets[node] > MOST_NEIGHBOURS {
            return true;
        }
    }
    false
}

/// The network that links between so many nodes make, or the first fault of their ends.
pub fn link_network(alloc: Global, nodes: u32, links: &[Link]) -> Result<Network, NetFault>
    requires within { AllWithin nodes links.now }
    requires some { 1 ≤ nodes }
    requires small { nodes ≤ 65536 }
    ensures { IsAnswer (network_in nodes links.now) result }
{
    if has_self_link(links) {
        return Err(NetFault::SelfLink);
    }
    let arcs = sorted_arcs(alloc, links)?;
    if links.len() > MOST_LINKS {
        return Err(NetFault::TooManyLinks);
    }
    let offsets = offsets(alloc, arcs.as_slice(), nodes)?;
    if has_crowded_node(offsets.as_slice()) {
        return Err(NetFault::TooManyNeighbours);
    }
    let targets = targets(alloc, arcs.as_slice())?;
    let weights = weights(alloc, arcs.as_slice())?;
    Ok(Network::new(offsets, targets, weights))
}
