//! Networks drawn at random.
ghost use Rattle.std.specs.Prelude.{◌≡◌, None, false, IfOk, IfErr};
ghost use Rattle.net_random.specs.RandomNetworks.{node_count, is_by_trial, IsOutcome};
ghost use Rattle.net_random.specs.Sizes.{file_bounds, refusal_in, refusal_of, IsFaultIn, IsFaultOf};

use crate::growth::{preferential_links, tree_links};
use crate::listed::listed;
use crate::pairs::random_links;
use crate::sizes::{is_by_trial, node_count, refusal};
use crate::trial_check::tried;
use crate::trials::{regular_links, small_world_links};
use crate::{NetworkBounds, RandomFault, RandomNetwork};
use link_net::Link;
use net_text::LinkList;
use rand_core::SeedableRng;
use rand_pcg::Pcg64;
use std::alloc::{AllocError, Global};

/// Links that are drawn for a random network; those that are not drawn by trial make it.
fn links_by(
    alloc: Global,
    wanted: &RandomNetwork,
    bounds: NetworkBounds,
    rng: &mut Pcg64,
) -> Result<Vec<Link>, AllocError>
    requires { refusal_in bounds wanted.now ≡ None }
    ensures { IfOk result (λ v. is_by_trial wanted.now ≡ false → IsOutcome wanted.now v.items) }
{
    match *wanted {
        RandomNetwork::Random { nodes, links } => random_links(alloc, rng, nodes, links),
        RandomNetwork::Tree { nodes } => tree_links(alloc, rng, nodes),
        RandomNetwork::Preferential { nodes, each } => preferential_links(alloc, rng, nodes, each),
        RandomNetwork::Regular { nodes, degree } => regular_links(alloc, rng, nodes, degree),
        RandomNetwork::SmallWorld {
            nodes,
            near,
            rewire,
            of,
        } => small_world_links(alloc, rng, nodes, near, rewire, of),
    }
}

/// The links of weight 1 that a seed draws for a random network within the bounds, or why there are none. What the sizes
/// refuse is refused before anything is drawn and before memory is taken; `Undrawn` comes where a regular network was not
/// found by trial, and `Memory` only where memory runs out. How many neighbours a node has is not looked at. The bounds
/// play no part in what is drawn.
///
/// No clause says which seeds find a regular network, nor that any does: a body that always answers `Undrawn` for one is
/// proved, too. Cases draw such networks, and compare what is forced whatever is drawn.
pub fn drawn_links(
    alloc: Global,
    wanted: &RandomNetwork,
    bounds: NetworkBounds,
    seed: u64,
) -> Result<Vec<Link>, RandomFault>
    ensures links { IfOk result (λ v. IsOutcome wanted.now v.items) }
    ensures fits { IfOk result (λ _. refusal_in bounds wanted.now ≡ None) }
    ensures refused { IfErr result (IsFaultIn bounds wanted.now) }
{
    if let Some(fault) = refusal(wanted, bounds) {
        return Err(fault);
    }
    let links = links_by(alloc, wanted, bounds, &mut Pcg64::seed_from_u64(seed))?;
    if is_by_trial(wanted) {
        return tried(alloc, wanted, links);
    }
    Ok(links)
}

/// The random network that a seed draws, each link with weight 1, or why there is none. What the sizes refuse is
/// refused before anything is drawn; `TooManyNeighbours` comes where a node of the links that were drawn has more than
/// 4,096 neighbours, `Undrawn` as [`drawn_links`] tells it, and `Memory` only where memory runs out.
pub fn drawn(alloc: Global, wanted: &RandomNetwork, seed: u64) -> Result<LinkList, RandomFault>
    ensures nodes { IfOk result (λ list. list.nodes ≡ node_count wanted.now) }
    ensures links { IfOk result (λ list. IsOutcome wanted.now list.links) }
    ensures fits { IfOk result (λ _. refusal_of wanted.now ≡ None) }
    ensures refused { IfErr result (IsFaultOf wanted.now) }
{
    let links = drawn_links(alloc, wanted, NetworkBounds::of_files(), seed)?;
    listed(alloc, node_count(wanted), links)
}
