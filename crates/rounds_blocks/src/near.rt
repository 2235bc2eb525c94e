//! Which batches a batch has to do with.
ghost use Rattle.std.specs.Prelude.{◌≡◌, ◌<◌, ◌≤◌, ◌⊎◌, ℕ, All, IfOk, OnOk, List, length, slice_index, slice_index_or};
ghost use Rattle.std.specs.List.{Contains};
ghost use Rattle.std.specs.List.Sorted.{IsPermutation};
ghost use Rattle.link_net.specs.Neighbours.{numbers_below, AreRows};
ghost use Rattle.rounds_code.specs.declared.slot.Slot.{Slot};
ghost use Rattle.rounds_blocks.specs.declared.batch.Batch.{Batch};
ghost use Rattle.rounds_blocks.specs.Batches.{IsBatch, IsLayout, nodes_of};
ghost use Rattle.rounds_blocks.specs.Nears.{AreHomes, AreNear, HaveNear, IsStamped, IsWithin};

use crate::batch::Batch;
use link_net::NetRows;
use std::alloc::{AllocError, Global};

/// How many batches are listed near one at most. Each round looks at the whole list, so longer ones cost more than
/// they save: a batch near so many is seldom left out while anything changes. A network of 65,536 nodes has about as
/// many batches as this, so that there each batch has its list.
const MOST_NEAR: usize = 256;

/// The batches in which the nodes of a batch and their neighbours stand.
#[derive(Drop)]
pub enum Near {
    /// More of them than are listed: any batch may be one.
    Any,
    /// These, each once.
    Listed(Vec<usize>),
}

/// Notes the batch of these nodes.
fn settle(homes: &mut [usize], nodes: &[u32], batch: usize)
    requires within { All (λ u. u < length homes.old) nodes.now }
    ensures here { All (λ u. slice_index homes.new u ≡ batch) nodes.now }
    ensures others { (u : ℕ) → (slice_index homes.new u ≡ slice_index homes.old u) ⊎ ((slice_index homes.new u ≡ batch) × Contains nodes.now u) }
{
    for node in nodes {
        homes[*node as usize] = batch;
    }
}

/// For each of so many nodes the batch in which it stands.
pub fn homes_of(alloc: Global, nodes: usize, batches: &[Batch]) -> Result<Vec<usize>, AllocError>
    requires within { All (λ batch. All (λ u. u < nodes) batch.nodes) batches.now }
    requires once { IsPermutation (numbers_below nodes) (nodes_of batches.now) }
    ensures count { IfOk result (λ homes. length homes.items ≡ nodes) }
    ensures homes { IfOk result (λ homes. AreHomes batches.now nodes homes.items) }
{
    let mut homes = vec![in alloc; 0; nodes]?;
    for (i, batch) in batches.iter().enumerate() {
        settle(&mut homes, batch.nodes.as_slice(), i);
    }
    Ok(homes)
}

/// Lists the batch in which a node stands, if it is not listed yet.
fn list_home(
    places: &mut Vec<usize>,
    stamps: &mut [usize],
    stamp: usize,
    home: usize,
) -> Result<(), AllocError>
    requires there { home < length stamps.old }
    requires within { All (λ i. i < length stamps.old) places.old.items }
    requires low { (i : ℕ) → slice_index stamps.old i ≤ stamp }
    requires listed { (i : ℕ) → IsStamped stamps.old stamp i → Contains places.old.items i }
    ensures within { OnOk result (All (λ i. i < length stamps.new) places.new.items) }
    ensures low { OnOk result ((i : ℕ) → slice_index stamps.new i ≤ stamp) }
    ensures listed { OnOk result ((i : ℕ) → IsStamped stamps.new stamp i → Contains places.new.items i) }
    ensures stamped { OnOk result (IsStamped stamps.new stamp home) }
    ensures kept { OnOk result ((i : ℕ) → IsStamped stamps.old stamp i → IsStamped stamps.new stamp i) }
    ensures more { OnOk result (length places.old.items ≤ length places.new.items) }
{
    if stamps[home] != stamp {
        places.push(home)?;
        stamps[home] = stamp;
    }
    Ok(())
}

/// Lists the batches in which these nodes stand, each once. Where more than `MOST_NEAR` are listed, no further node is
/// looked at.
fn list_homes(
    places: &mut Vec<usize>,
    stamps: &mut [usize],
    stamp: usize,
    homes: &[usize],
    nodes: &[u32],
) -> Result<(), AllocError>
    requires within_homes { All (λ u. u < length homes.now) nodes.now }
    requires there { (u : ℕ) → u < length homes.now → slice_index homes.now u < length stamps.old }
    requires within { All (λ i. i < length stamps.old) places.old.items }
    requires low { (i : ℕ) → slice_index stamps.old i ≤ stamp }
    requires listed { (i : ℕ) → IsStamped stamps.old stamp i → Contains places.old.items i }
    ensures within { OnOk result (All (λ i. i < length stamps.new) places.new.items) }
    ensures low { OnOk result ((i : ℕ) → slice_index stamps.new i ≤ stamp) }
    ensures listed { OnOk result ((i : ℕ) → IsStamped stamps.new stamp i → Contains places.new.items i) }
    ensures stamped { OnOk result (length places.new.items ≤ 256 → All (λ u. IsStamped stamps.new stamp (slice_index homes.now u)) nodes.now) }
    ensures kept { OnOk result ((i : ℕ) → IsStamped stamps.old stamp i → IsStamped stamps.new stamp i) }
    ensures more { OnOk result (length places.old.items ≤ length places.new.items) }
{
    for node in nodes {
        if places.len() > MOST_NEAR {
            return Ok(());
        }
        list_home(places, stamps, stamp, homes[*node as usize])?;
    }
    Ok(())
}

/// Lists the batches in which a batch's nodes and their neighbours stand, each once, or more than `MOST_NEAR` of them.
fn list_batch(
    places: &mut Vec<usize>,
    stamps: &mut [usize],
    stamp: usize,
    homes: &[usize],
    network: &NetRows<'_>,
    batch: &Batch,
) -> Result<(), AllocError>
    requires batch { IsBatch network.now batch.now }
    requires network { AreRows network.now }
    requires count { length homes.now ≡ length network.now }
    requires there { (u : ℕ) → u < length homes.now → slice_index homes.now u < length stamps.old }
    requires within { All (λ i. i < length stamps.old) places.old.items }
    requires low { (i : ℕ) → slice_index stamps.old i ≤ stamp }
    requires listed { (i : ℕ) → IsStamped stamps.old stamp i → Contains places.old.items i }
    ensures within { OnOk result (All (λ i. i < length stamps.new) places.new.items) }
    ensures low { OnOk result ((i : ℕ) → slice_index stamps.new i ≤ stamp) }
    ensures listed { OnOk result ((i : ℕ) → IsStamped stamps.new stamp i → Contains places.new.items i) }
    ensures own { OnOk result (length places.new.items ≤ 256 → All (λ u. IsStamped stamps.new stamp (slice_index homes.now u)) batch.now.nodes) }
    ensures slots { OnOk result (length places.new.items ≤ 256 → (j : ℕ) (d : Slot) → j < length batch.now.slots.items
        → All (λ u. IsStamped stamps.new stamp (slice_index homes.now u)) (slice_index_or batch.now.slots.items j d).neighbours) }
{
    list_homes(places, stamps, stamp, homes, batch.nodes.as_slice())?;
    for slot in &batch.slots {
        list_homes(places, stamps, stamp, homes, slot.neighbours.as_slice())?;
    }
    Ok(())
}

/// The batches in which a batch's nodes and their neighbours stand. The stamp is greater than all that were set before.
fn near_of(
    alloc: Global,
    network: &NetRows<'_>,
    batch: &Batch,
    homes: &[usize],
    stamps: &mut [usize],
    stamp: usize,
) -> Result<Near, AllocError>
    requires batch { IsBatch network.now batch.now }
    requires network { AreRows network.now }
    requires count { length homes.now ≡ length network.now }
    requires there { (u : ℕ) → u < length homes.now → slice_index homes.now u < length stamps.old }
    requires fresh { (i : ℕ) → slice_index stamps.old i < stamp }
    ensures low { OnOk result ((i : ℕ) → slice_index stamps.new i ≤ stamp) }
    ensures within { IfOk result (λ near. IsWithin (length stamps.new) near) }
    ensures near { IfOk result (λ near. (batches : List Batch) → AreHomes batches (length network.now) homes.now → AreNear network.now batches batch.now near) }
{
    let mut places = Vec::new(alloc);
    list_batch(&mut places, stamps, stamp, homes, network, batch)?;
    if places.len() > MOST_NEAR {
        return Ok(Near::Any);
    }
    Ok(Near::Listed(places))
}

/// For each batch those in which its nodes and their neighbours stand.
pub fn nears_of(
    alloc: Global,
    network: &NetRows<'_>,
    batches: &[Batch],
) -> Result<Vec<Near>, AllocError>
    requires layout { IsLayout network.now batches.now }
    ensures near { IfOk result (λ nears. HaveNear network.now batches.now nears.items) }
{
    let homes = homes_of(alloc, network.nodes() as usize, batches)?;
    let mut stamps = vec![in alloc; 0; batches.len()]?;
    let mut nears = Vec::with_capacity(alloc, batches.len())?;
    for (i, batch) in batches.iter().enumerate() {
        nears.push(near_of(alloc, network, batch, &homes, &mut stamps, i + 1)?)?;
    }
    Ok(nears)
}
