//! Batches of nodes with their neighbours, slot by slot.
ghost use Rattle.std.specs.Prelude.{◌≡◌, ◌<◌, ◌≤◌, ℕ, All, IfOk, IfSome, length, map, slice_index};
ghost use Rattle.link_net.specs.Neighbours.{degree, neighbour, weight};
ghost use Rattle.rounds_blocks.specs.Batches.{AreFalling, HaveWindows, IsSlot, IsBatch};

use crate::group::alike_end;
use link_net::NetRows;
use rounds_code::{Places, Slot, Weights, Windows};
use std::alloc::{AllocError, Global};

/// In how many lanes neighbours have to stand in windows: where they are few, slots are better taken side by side.
const LEAST_LANES: usize = 16;

/// Up to 256 nodes by falling number of their neighbours, with these numbers, and what stands in their slots: in each a
/// neighbour, and the weight of the link to it, of each of the first nodes, which are those that have so many neighbours.
#[derive(Drop)]
pub struct Batch {
    pub nodes: Places,
    pub degrees: Vec<u32>,
    pub slots: Vec<Slot>,
    /// The windows in which the neighbours in the first slots stand; none where they do not.
    pub windows: Option<Windows>,
    /// How many neighbours its nodes have together.
    pub ends: u64,
}

/// How many of these nodes have a neighbour in the slot.
fn count_in(degrees: &[u32], slot: u32) -> usize
    requires falling { (i j : ℕ) → i ≤ j → j < length degrees.now → slice_index degrees.now j ≤ slice_index degrees.now i }
    ensures few { result ≤ length degrees.now }
    ensures have { (i : ℕ) → i < result → slot < slice_index degrees.now i }
    ensures lack { (i : ℕ) → result ≤ i → i < length degrees.now → slice_index degrees.now i ≤ slot }
{
    for (i, degree) in degrees.iter().enumerate() {
        if *degree <= slot {
            return i;
        }
    }
    degrees.len()
}

/// The neighbours in a slot of these nodes.
fn neighbours_in(
    alloc: Global,
    network: &NetRows<'_>,
    nodes: &[u32],
    slot: u32,
) -> Result<Vec<u32>, AllocError>
    ensures exact { IfOk result (λ neighbours. neighbours.items ≡ map (λ u. neighbour network.now u slot) nodes.now) }
{
    nodes
        .iter()
        .map(|node| network.neighbour_of(*node, slot))
        .collect(alloc)
}

/// The weights in a slot of these nodes.
fn weights_in(
    alloc: Global,
    network: &NetRows<'_>,
    nodes: &[u32],
    slot: u32,
) -> Result<Vec<u32>, AllocError>
    ensures exact { IfOk result (λ weights. weights.items ≡ map (λ u. weight network.now u slot) nodes.now) }
{
    nodes
        .iter()
        .map(|node| network.weight_of(*node, slot))
        .collect(alloc)
}

/// What stands in a slot of these nodes.
fn slot_of(
    alloc: Global,
    network: &NetRows<'_>,
    nodes: &[u32],
    degrees: &[u32],
    slot: u32,
) -> Result<Slot, AllocError>
    requires degrees { degrees.now ≡ map (degree network.now) nodes.now }
    requires falling { AreFalling network.now nodes.now }
    ensures exact { IfOk result (IsSlot network.now nodes.now slot) }
{
    let count = count_in(degrees, slot);
    let front = &nodes[..count];
    let neighbours = neighbours_in(alloc, network, front, slot)?;
    let weights = weights_in(alloc, network, front, slot)?;
    let places = Places::new(alloc, neighbours)?;
    let kept = Weights::new(weights);
    Ok(Slot {
        neighbours: places,
        weights: kept,
    })
}

/// The degrees of these nodes.
fn degrees_of(alloc: Global, network: &NetRows<'_>, nodes: &[u32]) -> Result<Vec<u32>, AllocError>
    ensures exact { IfOk result (λ degrees. degrees.items ≡ map (degree network.now) nodes.now) }
{
    nodes
        .iter()
        .map(|node| network.degree_of(*node))
        .collect(alloc)
}

/// The first degree, or 0 where there is none.
fn most_of(degrees: &[u32]) -> u32
    ensures exact { result ≡ slice_index degrees.now 0 }
{
    if degrees.is_empty() {
        return 0;
    }
    degrees[0]
}

/// The sum of these degrees.
fn sum_of(degrees: &[u32]) -> u64 {
    let mut sum: u64 = 0;
    for degree in degrees {
        sum = sum.saturating_add(*degree as u64);
    }
    sum
}

/// The windows in which the neighbours in the first of these slots stand, in as many as have equally many neighbours; none where they do
/// not, or have few.
fn windows_of(alloc: Global, slots: &[Slot], nodes: usize) -> Result<Option<Windows>, AllocError>
    ensures windows { IfOk result (λ found. IfSome found (HaveWindows nodes slots.now)) }
{
    if slots.is_empty() {
        return Ok(None);
    }
    let count = slots[0].neighbours.count();
    if count < LEAST_LANES {
        return Ok(None);
    }
    let behind = alike_end(slots, 0, count, slots.len());
    Windows::new(alloc, &slots[..behind], count, nodes)
}

/// These nodes as a batch.
pub fn batch_of(alloc: Global, network: &NetRows<'_>, nodes: &[u32]) -> Result<Batch, AllocError>
    requires few { length nodes.now ≤ 256 }
    requires within { All (λ u. u < length network.now) nodes.now }
    requires falling { AreFalling network.now nodes.now }
    ensures nodes { IfOk result (λ batch. batch.nodes ≡ nodes.now) }
    ensures whole { IfOk result (IsBatch network.now) }
{
    let degrees = degrees_of(alloc, network, nodes)?;
    let most = most_of(&degrees);
    let mut slots = Vec::with_capacity(alloc, most as usize)?;
    for slot in 0..most {
        slots.push(slot_of(alloc, network, nodes, &degrees, slot)?)?;
    }
    let nodes = Places::new(alloc, nodes.to_vec(alloc)?)?;
    let ends = sum_of(&degrees);
    let windows = windows_of(alloc, &slots, network.nodes() as usize)?;
    Ok(Batch {
        nodes,
        degrees,
        slots,
        windows,
        ends,
    })
}
