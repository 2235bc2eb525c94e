//! The network that arcs make.
ghost use Rattle.std.specs.Prelude.{◌≡◌, ◌+◌, ◌<◌, ◌≤◌, ℕ, length, slice_index, slice_index_or, IfOk};
ghost use Rattle.std.specs.List.Sorted.{IsNonDecreasingBy};
ghost use Rattle.link_net.specs.Arcs.{IsFirst};
ghost use Rattle.link_net.specs.Limits.{most_rows};
ghost use Rattle.link_net.specs.Links.{AllWithin};
ghost use Rattle.large_pack.specs.Rows.{HasArcs};

use large_net::LargeNetwork;
use link_net::{targets, weights};
use std::alloc::{AllocError, Global};

/// An arc: the node that has the neighbour, the neighbour, the weight.
pub type Arc = (u32, u32, u32);

/// How many arcs come from a node below this one, where so many do at least.
fn first_from(arcs: &[Arc], node: u32, past: usize) -> usize
    requires sorted { IsNonDecreasingBy (λ a. a.0) arcs.now }
    requires bound { past ≤ length arcs.now }
    requires before { (k : ℕ) (d : ℕ × ℕ × ℕ) → k < past → (slice_index_or arcs.now k d).0 < node }
    ensures { IsFirst arcs.now node result }
{
    let mut place = past;
    while place < arcs.len() && arcs[place].0 < node {
        place += 1;
    }
    place
}

/// Where the arcs of each node begin, and last where they all end.
fn offsets(alloc: Global, arcs: &[Arc], nodes: u32) -> Result<Vec<usize>, AllocError>
    requires sorted { IsNonDecreasingBy (λ a. a.0) arcs.now }
    requires within { AllWithin nodes arcs.now }
    ensures count { IfOk result (λ v. length v.items ≡ nodes + 1) }
    ensures firsts { IfOk result (λ v. (u : ℕ) → u < length v.items → IsFirst arcs.now u (slice_index v.items u)) }
{
    let mut offsets = Vec::with_capacity(alloc, nodes as usize + 1)?;
    let mut place = 0;
    for node in 0..nodes {
        place = first_from(arcs, node, place);
        offsets.push(place)?;
    }
    offsets.push(arcs.len())?;
    Ok(offsets)
}

/// The network that arcs between so many nodes make: the neighbours of a node by rising number, and those of one number
/// by rising weight. It fails only where memory runs out.
pub fn network_of_arcs(
    alloc: Global,
    nodes: u32,
    arcs: Vec<Arc>,
) -> Result<LargeNetwork, AllocError>
    requires within { AllWithin nodes arcs.items }
    requires some { 1 ≤ nodes }
    requires few { length arcs.items ≤ most_rows }
    ensures rows { IfOk result (λ network. HasArcs nodes arcs.items network) }
{
    let mut arcs = arcs;
    arcs.sort_unstable();
    let offsets = offsets(alloc, arcs.as_slice(), nodes)?;
    let targets = targets(alloc, arcs.as_slice())?;
    let weights = weights(alloc, arcs.as_slice())?;
    let network = LargeNetwork::new(offsets, targets, weights);
    Ok(network)
}
