//! Links as JSON.
ghost use Rattle.std.specs.Prelude.{◌≡◌, ◌∷◌, ◌++◌, [], IfOk, OnOk, map};
ghost use Rattle.serde_json.specs.View.{view};
ghost use Rattle.link_net.specs.Neighbours.{row};
ghost use Rattle.run_page.specs.Pages.{links_of, links_up, listed};

use crate::parts::numbers;
use link_net::Network;
use serde_json::Value;
use std::alloc::{AllocError, Global};

/// Adds the link of a node with a neighbour, where the neighbour has the greater number.
fn put_link(
    alloc: Global,
    items: &mut Vec<Value>,
    node: u32,
    neighbour: u32,
    weight: u32,
) -> Result<(), AllocError>
    ensures { OnOk result (map view items.new.items ≡ map view items.old.items ++ links_up node ((neighbour, weight) ∷ [])) }
{
    if neighbour <= node {
        return Ok(());
    }
    let link: [u32; 3] = [node, neighbour, weight];
    items.push(numbers(alloc, &link)?)?;
    Ok(())
}

/// Adds the links of a node with neighbours of greater number.
fn put_links(
    alloc: Global,
    items: &mut Vec<Value>,
    network: &Network,
    node: u32,
) -> Result<(), AllocError>
    ensures { OnOk result (map view items.new.items ≡ map view items.old.items ++ links_up node (row network.now node)) }
{
    let neighbours = network.neighbours_of(node);
    let weights = network.weights_of(node);
    for (slot, neighbour) in neighbours.iter().enumerate() {
        put_link(alloc, items, node, *neighbour, weights[slot])?;
    }
    Ok(())
}

/// Each link once.
pub(crate) fn links(alloc: Global, network: &Network) -> Result<Value, AllocError>
    ensures { IfOk result (λ v. view v ≡ listed (links_of network.now)) }
{
    let mut items = Vec::with_capacity(alloc, network.links() as usize)?;
    for node in 0..network.nodes() {
        put_links(alloc, &mut items, network, node)?;
    }
    Ok(Value::Array(items))
}
