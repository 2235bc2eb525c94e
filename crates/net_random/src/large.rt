//! Networks of any size that memory holds, drawn at random. The same seed gives the same network on every machine.
ghost use Rattle.std.specs.Prelude.{◌≡◌, ◌≤◌, length, None, IfOk, IfErr};
ghost use Rattle.link_net.specs.Limits.{most_rows};
ghost use Rattle.link_net.specs.Links.{network_of};
ghost use Rattle.std.specs.List.{sum};
ghost use Rattle.net_random.specs.Blocks.{IsLargeBlockFault, block_links};
ghost use Rattle.net_random.specs.Chances.{IsLargeChanceFault, chance_links};
ghost use Rattle.net_random.specs.RandomNetworks.{AreSimpleLinks};
ghost use Rattle.net_random.specs.LargeDrawn.{IsDrawn};
ghost use Rattle.net_random.specs.Sizes.{IsFaultIn, large_bounds, most_large_links, refusal_in};
ghost use Rattle.net_random.specs.Weights.{IsWeightedNetwork};

use crate::block::{block_links, block_total};
use crate::chance::even_links;
use crate::sizes::{node_count, refusal};
use crate::weight_draw::with_weights;
use crate::{BlockChances, NetworkBounds, RandomFault, RandomNetwork, WeightDraw, drawn_links};
use large_net::LargeNetwork;
use large_pack::network_of_arcs;
use link_net::{Link, arcs};
use std::alloc::{AllocError, Global};

/// The most links of a network of any size: each has two ends, of which there are 4,294,967,295 at most.
pub(crate) const MOST_LARGE_LINKS: usize = 2_147_483_647;

/// The bounds of a network of any size.
const LARGE_BOUNDS: NetworkBounds = NetworkBounds {
    nodes: 4_294_967_295,
    links: MOST_LARGE_LINKS as u64,
};

/// The network of links that are kept, each seen from both ends.
pub(crate) fn linked(alloc: Global, nodes: u32, links: &[Link]) -> Result<LargeNetwork, AllocError>
    requires some { 1 ≤ nodes }
    requires few { length links.now ≤ most_large_links }
    requires simple { AreSimpleLinks nodes links.now }
    ensures rows { IfOk result (λ network. network ≡ network_of nodes links.now) }
{
    let arcs = arcs(alloc, links)?;
    network_of_arcs(alloc, nodes, arcs)
}

/// The network of links that were drawn, with weights where these are drawn too.
fn weighted_network(
    alloc: Global,
    nodes: u32,
    links: Vec<Link>,
    weights: Option<WeightDraw>,
) -> Result<LargeNetwork, AllocError>
    requires some { 1 ≤ nodes }
    requires few { length links.items ≤ most_large_links }
    requires simple { AreSimpleLinks nodes links.items }
    ensures weighted { IfOk result (IsWeightedNetwork nodes weights links.items) }
{
    let drawn = with_weights(alloc, links, weights)?;
    let arcs = arcs(alloc, &drawn)?;
    drop(drawn);
    let network = network_of_arcs(alloc, nodes, arcs)?;
    Ok(network)
}

/// Why a random network of any size cannot be drawn, whatever the seed.
pub fn large_random_refusal(wanted: &RandomNetwork) -> Option<RandomFault>
    ensures refusal { result ≡ refusal_in large_bounds wanted.now }
{
    refusal(wanted, LARGE_BOUNDS)
}

/// The random network of any size that a seed draws, each link seen from both ends, with weight 1 or with the weights that
/// are drawn, or why there is none.
///
/// It is the network of the same links as [`crate::drawn`] draws of the same words, where that takes them, and with the
/// same weights as [`crate::weighted`] draws for them. It is refused as [`drawn_links`] refuses it, for 4,294,967,295
/// nodes and 2,147,483,647 links at most.
pub fn large_random(
    alloc: Global,
    wanted: &RandomNetwork,
    weights: Option<WeightDraw>,
    seed: u64,
) -> Result<LargeNetwork, RandomFault>
    ensures drawn { IfOk result (IsDrawn wanted.now weights) }
    ensures fits { IfOk result (λ _. refusal_in large_bounds wanted.now ≡ None) }
    ensures refused { IfErr result (IsFaultIn large_bounds wanted.now) }
{
    let links = drawn_links(alloc, wanted, LARGE_BOUNDS, seed)?;
    let network = weighted_network(alloc, node_count(wanted), links, weights)?;
    Ok(network)
}

/// The random network of so many nodes each pair of which is linked with the same chance, of so many billionths, as
/// [`crate::chance_list`] draws it where that takes it: for each pair a number. Each link is seen from both ends, with
/// weight 1 or with the weights that are drawn.
///
/// `NodeCount` comes where there is no node, before any memory is taken, else `TooManyLinks` where more than 2,147,483,647
/// links are drawn, and `Memory` only where there is a node.
pub fn large_chance(
    alloc: Global,
    nodes: u32,
    billionths: u32,
    weights: Option<WeightDraw>,
    seed: u64,
) -> Result<LargeNetwork, RandomFault>
    ensures drawn { IfOk result (IsWeightedNetwork nodes weights (chance_links nodes billionths seed)) }
    ensures some { IfOk result (λ _. 1 ≤ nodes) }
    ensures refused { IfErr result (IsLargeChanceFault nodes (chance_links nodes billionths seed)) }
{
    if nodes < 1 {
        return Err(RandomFault::NodeCount);
    }
    let links = even_links(alloc, nodes, billionths, MOST_LARGE_LINKS, seed)?;
    let network = weighted_network(alloc, nodes, links, weights)?;
    Ok(network)
}

/// The random network of any size whose nodes stand in blocks of these sizes, as [`crate::block_list`] draws it where that
/// takes it: for each pair a number. Each link is seen from both ends, with weight 1 or with the weights that are drawn.
///
/// `NodeCount` comes where there is no node or more than 4,294,967,295, before any memory is taken, else `TooManyLinks`
/// where more than 2,147,483,647 links are drawn, and `Memory` only where the number of nodes is not at fault.
pub fn large_block(
    alloc: Global,
    sizes: &[u32],
    chances: BlockChances,
    weights: Option<WeightDraw>,
    seed: u64,
) -> Result<LargeNetwork, RandomFault>
    ensures drawn { IfOk result (IsWeightedNetwork (sum sizes.now) weights (block_links sizes.now chances seed)) }
    ensures size { IfOk result (λ _. (1 ≤ sum sizes.now) × (sum sizes.now ≤ most_rows)) }
    ensures refused { IfErr result (IsLargeBlockFault (sum sizes.now) (block_links sizes.now chances seed)) }
{
    let Some(nodes) = block_total(sizes, LARGE_BOUNDS.nodes) else {
        return Err(RandomFault::NodeCount);
    };
    let links = block_links(alloc, sizes, nodes, chances, MOST_LARGE_LINKS, seed)?;
    let network = weighted_network(alloc, nodes, links, weights)?;
    Ok(network)
}
