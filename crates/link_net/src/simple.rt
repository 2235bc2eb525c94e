//! Rows that are a simple network: a link joins two different nodes, stands once, and shows the same weight from both ends.
ghost use Rattle.std.specs.Prelude.{◌≡◌, OnOk, MatchResult, Some, None};
ghost use Rattle.link_net.specs.Simple.{IsSimple, has_link, is_unordered, leads_one_way, one_way_place, one_way_slot, simple_fault, unordered_place, unordered_slot};

use crate::lent::NetRows;
use thiserror::Error;

/// Why rows are no simple network, and where: the first of these that holds, at the first node with such a slot, and there
/// at the first such slot. Nodes and slots are counted from 0.
#[derive(Clone, Copy, Debug, PartialEq, Eq, Error)]
pub enum SimpleFault {
    /// The neighbour at a slot is the node itself, or does not stand above the neighbour before it.
    #[error("node {node}, slot {slot}: the neighbour is the node itself, or does not stand above the one before it")]
    Unordered {
        /// The node.
        node: u32,
        /// The slot.
        slot: u32,
    },
    /// The neighbour at a slot has no link back to the node with the same weight.
    #[error("node {node}, slot {slot}: the link leads one way")]
    OneWay {
        /// The node.
        node: u32,
        /// The slot.
        slot: u32,
    },
}

/// Whether the neighbour at a slot is the node itself, or does not stand above the one before it.
fn is_unordered(rows: &NetRows<'_>, node: u32, slot: u32) -> bool
    ensures exact { result ≡ is_unordered rows.now node slot }
{
    let neighbour = rows.neighbour_of(node, slot);
    neighbour == node || (slot > 0 && neighbour <= rows.neighbour_of(node, slot - 1))
}

/// The first such slot of a node.
#[tactic(auto, using(crate::proofs::Searches::find_next, crate::proofs::Searches::find_last))]
fn unordered_slot(rows: &NetRows<'_>, node: u32) -> Option<u32>
    ensures exact { result ≡ unordered_slot rows.now node }
{
    for slot in 0..rows.degree_of(node) {
        if is_unordered(rows, node, slot) {
            return Some(slot);
        }
    }
    None
}

/// The first node with such a slot, and that slot.
#[tactic(auto, using(crate::proofs::Searches::place_next, crate::proofs::Searches::place_last))]
fn unordered_place(rows: &NetRows<'_>) -> Option<(u32, u32)>
    ensures exact { result ≡ unordered_place rows.now }
{
    for node in 0..rows.nodes() {
        if let Some(slot) = unordered_slot(rows, node) {
            return Some((node, slot));
        }
    }
    None
}

/// Whether a node has a link to another one with this weight.
fn has_link(rows: &NetRows<'_>, node: u32, other: u32, weight: u32) -> bool
    requires ordered { unordered_place rows.now ≡ None }
    ensures exact { result ≡ has_link rows.now node other weight }
{
    let (neighbours, weights) = rows.row_of(node);
    match neighbours.binary_search(&other) {
        Ok(slot) => weights[slot] == weight,
        Err(_) => false,
    }
}

/// Whether the neighbour at a slot has no link back with the same weight.
fn leads_one_way(rows: &NetRows<'_>, node: u32, slot: u32) -> bool
    requires ordered { unordered_place rows.now ≡ None }
    ensures exact { result ≡ leads_one_way rows.now node slot }
{
    let neighbour = rows.neighbour_of(node, slot);
    !has_link(rows, neighbour, node, rows.weight_of(node, slot))
}

/// The first such slot of a node.
#[tactic(auto, using(crate::proofs::Searches::find_next, crate::proofs::Searches::find_last))]
fn one_way_slot(rows: &NetRows<'_>, node: u32) -> Option<u32>
    requires ordered { unordered_place rows.now ≡ None }
    ensures exact { result ≡ one_way_slot rows.now node }
{
    for slot in 0..rows.degree_of(node) {
        if leads_one_way(rows, node, slot) {
            return Some(slot);
        }
    }
    None
}

/// The first node with such a slot, and that slot.
#[tactic(auto, using(crate::proofs::Searches::place_next, crate::proofs::Searches::place_last))]
fn one_way_place(rows: &NetRows<'_>) -> Option<(u32, u32)>
    requires ordered { unordered_place rows.now ≡ None }
    ensures exact { result ≡ one_way_place rows.now }
{
    for node in 0..rows.nodes() {
        if let Some(slot) = one_way_slot(rows, node) {
            return Some((node, slot));
        }
    }
    None
}

/// Refuses rows that are no simple network, with their first fault. No memory is taken. For each link, the neighbours of one
/// node are searched by halves.
pub fn check_simple(rows: &NetRows<'_>) -> Result<(), SimpleFault>
    ensures exact { MatchResult result (λ _. simple_fault rows.now ≡ None) (λ fault. simple_fault rows.now ≡ Some fault) }
    ensures simple { OnOk result (IsSimple rows.now) }
{
    // For the proof: what holds of all rows.
    let _nodes = rows.nodes();
    if let Some((node, slot)) = unordered_place(rows) {
        return Err(SimpleFault::Unordered { node, slot });
    }
    if let Some((node, slot)) = one_way_place(rows) {
        return Err(SimpleFault::OneWay { node, slot });
    }
    Ok(())
}
