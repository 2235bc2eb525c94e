//! The lines of links.
ghost use Rattle.std.specs.Prelude.{◌≡◌, ◌++◌, ◌<◌, OnOk, length, string_bytes};
ghost use Rattle.link_net.specs.Neighbours.{degree};
ghost use Rattle.run_picture.specs.Drawn.{link_line, link_lines, links_at, slot_line, weight_text};

use link_net::Network;
use std::alloc::AllocError;

/// A weight, which is left out where it is 1.
fn put_weight(out: &mut String, weight: u32) -> Result<(), AllocError>
    ensures text { OnOk result (string_bytes out.new ≡ string_bytes out.old ++ weight_text weight) }
{
    if weight == 1 {
        return Ok(());
    }
    write!(out, " [label=\"{weight}\"]")
}

/// The line of a link.
#[tactic(auto, unfolding(crate::specs::Drawn::link_line))]
fn put_link(out: &mut String, node: u32, neighbour: u32, weight: u32) -> Result<(), AllocError>
    ensures text { OnOk result (string_bytes out.new ≡ string_bytes out.old ++ link_line node neighbour weight) }
{
    write!(out, "  {node} -- {neighbour}")?;
    put_weight(out, weight)?;
    out.push_str(";\n")
}

/// The line of the link at a slot of a node, where the neighbour has the greater number.
fn put_slot(out: &mut String, network: &Network, node: u32, slot: u32) -> Result<(), AllocError>
    requires node { node < length network.now }
    requires slot { slot < degree network.now node }
    ensures text { OnOk result (string_bytes out.new ≡ string_bytes out.old ++ slot_line network.now node slot) }
{
    let neighbour = network.neighbour(node, slot).unwrap_or(0);
    let weight = network.weight(node, slot).unwrap_or(0);
    if node < neighbour {
        put_link(out, node, neighbour, weight)?;
    }
    Ok(())
}

/// How many neighbours a node has.
pub(crate) fn degree_of(network: &Network, node: u32) -> u32
    ensures { result ≡ degree network.now node }
{
    network.degree(node).unwrap_or(0)
}

/// The links of a node that lead to greater numbers.
fn put_links(out: &mut String, network: &Network, node: u32) -> Result<(), AllocError>
    requires node { node < length network.now }
    ensures text { OnOk result (string_bytes out.new ≡ string_bytes out.old ++ links_at network.now node) }
{
    for slot in 0..degree_of(network, node) {
        put_slot(out, network, node, slot)?;
    }
    Ok(())
}

/// All links.
pub(crate) fn put_network(out: &mut String, network: &Network) -> Result<(), AllocError>
    ensures text { OnOk result (string_bytes out.new ≡ string_bytes out.old ++ link_lines network.now) }
{
    for node in 0..network.nodes() {
        put_links(out, network, node)?;
    }
    Ok(())
}
