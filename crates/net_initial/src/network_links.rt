//! A network as a list of its links.
ghost use Rattle.std.specs.Prelude.{◌≡◌, ◌++◌, length, zip, OnOk, IfOk};
ghost use Rattle.link_net.specs.Links.{network_of};
ghost use Rattle.link_net.specs.Neighbours.{numbers_below, row, IsNetwork};
ghost use Rattle.net_initial.specs.Ahead.{links_up, links_from};
ghost use Rattle.net_initial.specs.LinkOrder.{AreInOrder};

use link_net::{Link, Network};
use net_text::LinkList;
use std::alloc::{AllocError, Global};

/// Puts the links from a node to those of its neighbours that are above it.
fn put_above(
    links: &mut Vec<Link>,
    node: u32,
    neighbours: &[u32],
    weights: &[u32],
) -> Result<(), AllocError>
    requires { length weights.now ≡ length neighbours.now }
    ensures { OnOk result (links.new.items ≡ links.old.items ++ links_up node (zip neighbours.now weights.now)) }
{
    for slot in 0..neighbours.len() {
        if node < neighbours[slot] {
            links.push((node, neighbours[slot], weights[slot]))?;
        }
    }
    Ok(())
}

/// Puts the links from a node of a network to those of its neighbours that are above it.
fn put_node(links: &mut Vec<Link>, network: &Network, node: u32) -> Result<(), AllocError>
    ensures { OnOk result (links.new.items ≡ links.old.items ++ links_up node (row network.now node)) }
{
    let Some(neighbours) = network.neighbours(node) else {
        return Ok(());
    };
    let Some(weights) = network.weights(node) else {
        return Ok(());
    };
    put_above(links, node, neighbours, weights)
}

/// The links of a network, each from the lesser of its ends.
fn links_of(alloc: Global, network: &Network) -> Result<Vec<Link>, AllocError>
    ensures { IfOk result (λ v. v.items ≡ links_from network.now (numbers_below (length network.now))) }
{
    let mut links = Vec::with_capacity(alloc, network.links() as usize)?;
    for node in 0..network.nodes() {
        put_node(&mut links, network, node)?;
    }
    Ok(links)
}

/// A network as a list of its links, by rising number of the lesser end and then of the greater one.
pub fn listed(alloc: Global, network: &Network) -> Result<LinkList, AllocError>
    ensures nodes { IfOk result (λ list. list.nodes ≡ length network.now) }
    ensures network { IfOk result (λ list. network_of list.nodes list.links ≡ network.now) }
    ensures order { IfOk result (λ list. AreInOrder list.links) }
{
    let links = links_of(alloc, network)?;
    Ok(LinkList::sound(network.nodes(), links))
}
