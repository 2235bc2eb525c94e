//! How large random networks are.
ghost use Rattle.std.specs.Prelude.{◌≡◌, ◌≤◌};
ghost use Rattle.net_random.specs.RandomNetworks.{node_count, pair_count, grown_count, link_count, has_odd_ends, is_by_trial};
ghost use Rattle.net_random.specs.Sizes.{refusal_in};

use crate::{NetworkBounds, RandomFault, RandomNetwork};

/// How many pairs of nodes there are.
fn pair_count(nodes: u32) -> u64
    requires some { 1 ≤ nodes }
    ensures { result ≡ pair_count nodes }
{
    nodes as u64 * (nodes as u64 - 1) / 2
}

/// How many nodes the random network has.
pub(crate) fn node_count(wanted: &RandomNetwork) -> u32
    ensures { result ≡ node_count wanted.now }
{
    match *wanted {
        RandomNetwork::Random { nodes, .. } => nodes,
        RandomNetwork::Tree { nodes } => nodes,
        RandomNetwork::Preferential { nodes, .. } => nodes,
        RandomNetwork::Regular { nodes, .. } => nodes,
        RandomNetwork::SmallWorld { nodes, .. } => nodes,
    }
}

/// How many links there are where each node is linked with so many before it, or with all of them where they are fewer.
pub(crate) fn grown_count(nodes: u32, each: u32) -> u64
    ensures { result ≡ grown_count each nodes }
{
    let most = each.min(nodes) as u64;
    most * nodes as u64 - most * (most + 1) / 2
}

/// How many links the random network has.
pub(crate) fn link_count(wanted: &RandomNetwork) -> u64
    requires some { 1 ≤ node_count wanted.now }
    ensures { result ≡ link_count wanted.now }
{
    match *wanted {
        RandomNetwork::Random { links, .. } => links as u64,
        RandomNetwork::Tree { nodes } => nodes as u64 - 1,
        RandomNetwork::Preferential { nodes, each } => grown_count(nodes, each),
        RandomNetwork::Regular { nodes, degree } => nodes as u64 * degree as u64 / 2,
        RandomNetwork::SmallWorld { nodes, near, .. } => nodes as u64 * near as u64,
    }
}

/// Whether the random network's links are drawn by trial.
pub(crate) fn is_by_trial(wanted: &RandomNetwork) -> bool
    ensures { result ≡ is_by_trial wanted.now }
{
    matches!(*wanted, RandomNetwork::Regular { .. })
}

/// Whether the random network has an odd number of ends of links.
fn has_odd_ends(wanted: &RandomNetwork) -> bool
    ensures { result ≡ has_odd_ends wanted.now }
{
    match *wanted {
        RandomNetwork::Regular { nodes, degree } => nodes % 2 == 1 && degree % 2 == 1,
        _ => false,
    }
}

/// Why no such random network within the bounds can be drawn, whatever the seed.
pub(crate) fn refusal(wanted: &RandomNetwork, bounds: NetworkBounds) -> Option<RandomFault>
    ensures { result ≡ refusal_in bounds wanted.now }
{
    let nodes = node_count(wanted);
    if nodes < 1 || nodes > bounds.nodes {
        return Some(RandomFault::NodeCount);
    }
    let links = link_count(wanted);
    if links > bounds.links || links > pair_count(nodes) {
        return Some(RandomFault::TooManyLinks);
    }
    if has_odd_ends(wanted) {
        return Some(RandomFault::OddEnds);
    }
    None
}
