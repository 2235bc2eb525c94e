//! The network that arcs make which stand as single numbers.
ghost use Rattle.std.specs.Prelude.{◌≡◌, ◌+◌, ◌<◌, ◌≤◌, ◌/◌, ◌%◌, ℕ, length, map, replicate, slice_index, slice_index_or, IfOk};
ghost use Rattle.std.specs.List.Sorted.{IsNonDecreasing};
ghost use Rattle.link_net.specs.Limits.{most_rows};
ghost use Rattle.link_net.specs.Links.{AllWithin};
ghost use Rattle.large_pack.specs.Rows.{HasArcs};
ghost use Rattle.large_pack.specs.Keys.{arcs_in, IsFirstKey};

use crate::keys::SPAN;
use large_net::LargeNetwork;
use std::alloc::{AllocError, Global};

/// How many arcs come from a node below this one, where so many do at least.
fn first_from(keys: &[u64], node: u32, past: usize) -> usize
    requires sorted { IsNonDecreasing keys.now }
    requires bound { past ≤ length keys.now }
    requires before { (k : ℕ) (d : ℕ) → k < past → slice_index_or keys.now k d / 4294967296 < node }
    ensures { IsFirstKey keys.now node result }
{
    let mut place = past;
    while place < keys.len() && keys[place] / SPAN < node as u64 {
        place += 1;
    }
    place
}

/// Where the arcs of each node begin, and last where they all end.
fn offsets(alloc: Global, keys: &[u64], nodes: u32) -> Result<Vec<usize>, AllocError>
    requires sorted { IsNonDecreasing keys.now }
    requires within { (k : ℕ) (d : ℕ) → k < length keys.now → slice_index_or keys.now k d / 4294967296 < nodes }
    ensures count { IfOk result (λ v. length v.items ≡ nodes + 1) }
    ensures firsts { IfOk result (λ v. (u : ℕ) → u < length v.items → IsFirstKey keys.now u (slice_index v.items u)) }
{
    let mut offsets = Vec::with_capacity(alloc, nodes as usize + 1)?;
    let mut place = 0;
    for node in 0..nodes {
        place = first_from(keys, node, place);
        offsets.push(place)?;
    }
    offsets.push(keys.len())?;
    Ok(offsets)
}

/// Where each arc leads.
fn targets(alloc: Global, keys: &[u64]) -> Result<Vec<u32>, AllocError>
    ensures { IfOk result (λ v. v.items ≡ map (λ k. k % 4294967296) keys.now) }
{
    keys.iter().map(|key| (*key % SPAN) as u32).collect(alloc)
}

/// The weight of each arc.
fn weights(alloc: Global, weight: u32, arcs: usize) -> Result<Vec<u32>, AllocError>
    ensures { IfOk result (λ v. v.items ≡ replicate arcs weight) }
{
    Ok(vec![in alloc; weight; arcs]?)
}

/// The network that arcs of this weight make, which stand as single numbers in order. It fails only where memory runs
/// out.
pub(crate) fn network_of_keys(
    alloc: Global,
    nodes: u32,
    keys: &[u64],
    weight: u32,
) -> Result<LargeNetwork, AllocError>
    requires sorted { IsNonDecreasing keys.now }
    requires within { AllWithin nodes (arcs_in weight keys.now) }
    requires some { 1 ≤ nodes }
    requires few { length keys.now ≤ most_rows }
    ensures rows { IfOk result (λ network. HasArcs nodes (arcs_in weight keys.now) network) }
{
    let offsets = offsets(alloc, keys, nodes)?;
    let targets = targets(alloc, keys)?;
    let weights = weights(alloc, weight, keys.len())?;
    let network = LargeNetwork::new(offsets, targets, weights);
    Ok(network)
}
