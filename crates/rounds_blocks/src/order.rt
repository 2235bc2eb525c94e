//! The order in which nodes stand.
ghost use Rattle.std.specs.Prelude.{◌≡◌, ◌≤◌, ◌-◌, IfOk};
ghost use Rattle.std.specs.List.{range_with_len};
ghost use Rattle.std.specs.List.Sorted.{IsPermutation};
ghost use Rattle.link_net.specs.Neighbours.{degree};
ghost use Rattle.rounds_blocks.specs.Batches.{AreFalling};

use link_net::NetRows;
use std::alloc::{AllocError, Global};

/// The most neighbours of a node.
const MOST_NEIGHBOURS: u32 = u32::MAX;

/// The nodes from the first one on to the one before the end, by rising number.
fn nodes_from(alloc: Global, first: u32, end: u32) -> Result<Vec<u32>, AllocError>
    requires order { first ≤ end }
    ensures all { IfOk result (λ nodes. nodes.items ≡ range_with_len first (end - first)) }
{
    let mut nodes = Vec::with_capacity(alloc, (end - first) as usize)?;
    for node in first..end {
        nodes.push(node)?;
    }
    Ok(nodes)
}

/// How many neighbours a node lacks of the most that it may have.
fn lack_of(network: &NetRows<'_>, node: u32) -> u32
    ensures exact { result ≡ 4294967295 - degree network.now node }
{
    MOST_NEIGHBOURS - network.degree_of(node)
}

/// The nodes from the first one on to the one before the end, by falling number of their neighbours.
pub fn by_falling_degree(
    alloc: Global,
    network: &NetRows<'_>,
    first: u32,
    end: u32,
) -> Result<Vec<u32>, AllocError>
    requires order { first ≤ end }
    ensures once { IfOk result (λ nodes. IsPermutation (range_with_len first (end - first)) nodes.items) }
    ensures falling { IfOk result (λ nodes. AreFalling network.now nodes.items) }
{
    let mut nodes = nodes_from(alloc, first, end)?;
    // For the proof: what holds of every network.
    let _nodes = network.nodes();
    nodes.sort_by_key(|node| lack_of(network, *node))?;
    Ok(nodes)
}
