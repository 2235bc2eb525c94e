//! Links that are drawn node by node.
ghost use Rattle.std.specs.Prelude.{◌≡◌, ◌≤◌, ◌++◌, map, OnOk, IfOk};
ghost use Rattle.net_random.specs.Growth.{IsGrown, link_to};

use crate::choice::chosen_nodes;
use crate::sizes::grown_count;
use link_net::Link;
use rand::RngExt;
use rand_pcg::Pcg64;
use std::alloc::{AllocError, Global};

/// The links of a random recursive tree.
pub(crate) fn tree_links(
    alloc: Global,
    rng: &mut Pcg64,
    nodes: u32,
) -> Result<Vec<Link>, AllocError>
    requires some { 1 ≤ nodes }
    ensures { IfOk result (λ v. IsGrown 1 nodes v.items) }
{
    let mut links = Vec::with_capacity(alloc, nodes as usize - 1)?;
    for node in 1..nodes {
        let parent = rng.random_range(0..node);
        links.push((node, parent, 1))?;
    }
    Ok(links)
}

/// Puts the links from a node to some others.
fn put_links(links: &mut Vec<Link>, node: u32, others: &[u32]) -> Result<(), AllocError>
    ensures { OnOk result (links.new.items ≡ links.old.items ++ map (link_to node) others.now) }
{
    for other in others {
        links.push((node, *other, 1))?;
    }
    Ok(())
}

/// The links of preferential attachment: each node is linked with so many before it, in proportion to the links that they
/// have.
pub(crate) fn preferential_links(
    alloc: Global,
    rng: &mut Pcg64,
    nodes: u32,
    each: u32,
) -> Result<Vec<Link>, AllocError>
    ensures { IfOk result (λ v. IsGrown each nodes v.items) }
{
    let mut links = Vec::with_capacity(alloc, grown_count(nodes, each) as usize)?;
    for node in 0..nodes {
        let others = chosen_nodes(alloc, rng, links.as_slice(), node, each)?;
        put_links(&mut links, node, others.as_slice())?;
    }
    Ok(links)
}
