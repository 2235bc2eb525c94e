//! Lines between the nodes that are linked.
ghost use Rattle.std.specs.Prelude.{◌≡◌, ◌++◌, ◌<◌, OnOk, length, string_bytes};
ghost use Rattle.link_net.specs.Neighbours.{degree};
ghost use Rattle.run_picture.specs.Nets.{link_stroke, slot_stroke, stroke_text, strokes_at, strokes_group, strokes_text};

use crate::links::degree_of;
use crate::places::{Place, place_of};
use link_net::Network;
use std::alloc::AllocError;

/// The line of a link from a place to a place.
#[tactic(auto, unfolding(crate::specs::Nets::stroke_text))]
fn put_stroke(out: &mut String, from: Place, to: Place) -> Result<(), AllocError>
    ensures text { OnOk result (string_bytes out.new ≡ string_bytes out.old ++ stroke_text from to) }
{
    let Place { x, y } = from;
    let Place { x: end_x, y: end_y } = to;
    write!(out, "<path d=\"M{x} {y}L{end_x} {end_y}\"/>\n")
}

/// The line of the link at a slot of a node, where the neighbour has the greater number.
fn put_slot(out: &mut String, network: &Network, node: u32, slot: u32) -> Result<(), AllocError>
    requires node { node < length network.now }
    requires slot { slot < degree network.now node }
    ensures text { OnOk result (string_bytes out.new ≡ string_bytes out.old ++ slot_stroke network.now node slot) }
{
    let nodes = network.nodes();
    let neighbour = network.neighbour(node, slot).unwrap_or(0);
    if node < neighbour {
        let from = place_of(nodes, node);
        let to = place_of(nodes, neighbour);
        put_stroke(out, from, to)?;
    }
    Ok(())
}

/// The links of a node that lead to greater numbers.
fn put_node(out: &mut String, network: &Network, node: u32) -> Result<(), AllocError>
    requires node { node < length network.now }
    ensures text { OnOk result (string_bytes out.new ≡ string_bytes out.old ++ strokes_at network.now node) }
{
    for slot in 0..degree_of(network, node) {
        put_slot(out, network, node, slot)?;
    }
    Ok(())
}

/// All links.
fn put_links(out: &mut String, network: &Network) -> Result<(), AllocError>
    ensures text { OnOk result (string_bytes out.new ≡ string_bytes out.old ++ strokes_text network.now) }
{
    for node in 0..network.nodes() {
        put_node(out, network, node)?;
    }
    Ok(())
}

/// The same, in grey.
#[tactic(auto, unfolding(crate::specs::Nets::strokes_group))]
pub(crate) fn put_strokes(out: &mut String, network: &Network) -> Result<(), AllocError>
    ensures text { OnOk result (string_bytes out.new ≡ string_bytes out.old ++ strokes_group network.now) }
{
    out.push_str("<g stroke=\"#bbbbbb\" shape-rendering=\"auto\">\n")?;
    put_links(out, network)?;
    out.push_str("</g>\n")
}
