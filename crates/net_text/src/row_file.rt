//! Rows of neighbours as the text of a network file.
ghost use Rattle.std.specs.Prelude.{◌≡◌, ◌++◌, [], Ok, IfOk, IfErr, OnOk, length, zip};
ghost use Rattle.link_net.specs.Links.{network_of};
ghost use Rattle.link_net.specs.Reading.{reading_of};
ghost use Rattle.net_text.specs.RowLinks.{IsRowsFault, links_up, row_links};

use crate::fault::RowsFault;
use crate::{LinkList, write_network};
use link_net::{Link, MOST_NODES, NetFault, NetRows, link_network};
use std::alloc::{AllocError, Global};

/// Puts the links of a node to those of its neighbours whose numbers are not lower after others.
fn push_links(
    links: &mut Vec<Link>,
    node: u32,
    neighbours: &[u32],
    weights: &[u32],
) -> Result<(), AllocError>
    requires paired { length weights.now ≡ length neighbours.now }
    ensures pushed { OnOk result (links.new.items ≡ links.old.items ++ links_up node (zip neighbours.now weights.now)) }
{
    for (slot, neighbour) in neighbours.iter().enumerate() {
        if *neighbour >= node {
            links.push((node, *neighbour, weights[slot]))?;
        }
    }
    Ok(())
}

/// The links of rows, each from the lower of its ends.
fn links_of(alloc: Global, rows: &NetRows<'_>) -> Result<Vec<Link>, AllocError>
    ensures links { IfOk result (λ links. links.items ≡ row_links rows.now) }
{
    let mut links = Vec::new(alloc);
    for node in 0..rows.nodes() {
        let (neighbours, weights) = rows.row_of(node);
        push_links(&mut links, node, neighbours, weights)?;
    }
    Ok(links)
}

/// The links of rows, where they make a network with these rows.
fn listed(alloc: Global, rows: &NetRows<'_>) -> Result<LinkList, RowsFault>
    ensures network { IfOk result (λ list. network_of list.nodes list.links ≡ rows.now) }
    ensures refused { IfErr result (λ fault. IsRowsFault rows.now fault) }
{
    if rows.nodes() < 1 || rows.nodes() > MOST_NODES {
        return Err(RowsFault::Links(NetFault::NodeCount));
    }
    let links = links_of(alloc, rows)?;
    let list = LinkList::new(alloc, rows.nodes(), links)?;
    let network = link_network(alloc, list.nodes(), list.links())?;
    if !network.rows().same(rows) {
        return Err(RowsFault::OneWay);
    }
    Ok(list)
}

/// The text of the network file with exactly these rows of neighbours, whose phase is 0 and which sets nothing, or why
/// there is none. Where there are too many nodes, no memory is taken.
pub fn row_text(alloc: Global, rows: &NetRows<'_>) -> Result<Vec<u8>, RowsFault>
    ensures reads_back { IfOk result (λ text. reading_of text.items ≡ Ok (record { network = rows.now; phase = 0; sets = [] })) }
    ensures refused { IfErr result (λ fault. IsRowsFault rows.now fault) }
{
    let list = listed(alloc, rows)?;
    let text = write_network(alloc, &list, 0, &[])?;
    Ok(text)
}
