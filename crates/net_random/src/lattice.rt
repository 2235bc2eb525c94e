//! Links round a ring, from which others are drawn.
ghost use Rattle.std.specs.Prelude.{◌≡◌, ◌≤◌, ◌++◌, IfOk, OnOk};
ghost use Rattle.net_random.specs.RandomNetworks.{following, ring_links};

use link_net::Link;
use std::alloc::{AllocError, Global};

/// Puts the links from a node to so many that follow it round the ring.
fn put_following(links: &mut Vec<Link>, nodes: u32, node: u32, near: u32) -> Result<(), AllocError>
    requires { 1 ≤ nodes }
    ensures { OnOk result (links.new.items ≡ links.old.items ++ following nodes near node) }
{
    for step in 0..near {
        let other = (node as u64 + 1 + step as u64) % nodes as u64;
        links.push((node, other as u32, 1))?;
    }
    Ok(())
}

/// The links of a ring where each node is linked with so many that follow it.
pub(crate) fn ring_links(alloc: Global, nodes: u32, near: u32) -> Result<Vec<Link>, AllocError>
    ensures { IfOk result (λ v. v.items ≡ ring_links nodes near) }
{
    let mut links = Vec::new(alloc);
    for node in 0..nodes {
        put_following(&mut links, nodes, node, near)?;
    }
    Ok(links)
}

/// Puts the links of nodes that stand opposite each other on the ring.
pub(crate) fn put_opposite(links: &mut Vec<Link>, nodes: u32) -> Result<(), AllocError> {
    let half = nodes / 2;
    for node in 0..half {
        links.push((node, node + half, 1))?;
    }
    Ok(())
}
