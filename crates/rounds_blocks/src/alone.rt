//! The slots of a batch in which its first node stands alone, as a hub does.
ghost use Rattle.std.specs.Prelude.{◌≡◌, ◌<◌, ◌≤◌, ◌+◌, ℕ, length, slice_index, slice_index_or};
ghost use Rattle.link_net.specs.Neighbours.{AreRows, degree};
ghost use Rattle.rounds_code.specs.Block.{Lane};
ghost use Rattle.rounds_blocks.specs.Batches.{IsBatch};
ghost use Rattle.rounds_blocks.specs.Rounds.{HaveWords};
ghost use Rattle.rounds_blocks.specs.Gathered.{gathered, gathered_first};

use crate::batch::Batch;
use link_net::NetRows;
use rounds_code::{Block, NearColumns};

/// How many neighbours of one node are taken at once.
const LANES: usize = 256;

/// In how many slots the first node has to stand alone for its neighbours there to be read where they stand in the
/// network, side by side, and not slot by slot.
const FEWEST_ALONE: usize = 8;

/// The second of these degrees, or 0 where there is none.
pub fn second_degree(degrees: &[u32]) -> u32
    ensures exact { result ≡ slice_index degrees.now 1 }
{
    if degrees.len() < 2 {
        return 0;
    }
    degrees[1]
}

/// The first slot of many in which at most the first node has a neighbour, or else the end of the slots.
pub fn first_alone(network: &NetRows<'_>, batch: &Batch) -> usize
    requires batch { IsBatch network.now batch.now }
    ensures inside { result ≤ length batch.now.slots.items }
    ensures alone { (i : ℕ) → 1 ≤ i → i < length batch.now.nodes → degree network.now (slice_index batch.now.nodes i) ≤ result }
{
    let slots = batch.slots.len();
    let second = second_degree(&batch.degrees) as usize;
    if slots.saturating_sub(second) < FEWEST_ALONE {
        return slots;
    }
    second
}

/// The first node of a batch that has some.
fn first_node(batch: &Batch) -> u32
    requires some { 0 < length batch.now.nodes }
    ensures exact { result ≡ slice_index batch.now.nodes 0 }
{
    batch.nodes.as_slice()[0]
}

/// The end of the neighbours that are taken at once, from this one on.
fn part_end(at: usize, end: usize) -> usize
    requires some { at < end }
    ensures some { at < result }
    ensures inside { result ≤ end }
    ensures few { result ≤ at + 256 }
{
    at + (end - at).min(LANES)
}

/// Gathers the aggregates of a batch's nodes from a slot on, where at most the first node has neighbours left.
pub fn gather_alone(
    network: &NetRows<'_>,
    batch: &Batch,
    block: &mut Block<'_>,
    first: usize,
    round: u32,
    from: &NearColumns<'_>,
)
    requires batch { IsBatch network.now batch.now }
    requires network { AreRows network.now }
    requires fields { length from.now ≡ length block.old.rules.fields }
    requires nodes { HaveWords (length network.now) from.now }
    requires count { length block.old.lanes ≡ length batch.now.nodes }
    requires alone { (i : ℕ) → 1 ≤ i → i < length batch.now.nodes → degree network.now (slice_index batch.now.nodes i) ≤ first }
    requires lanes { (i : ℕ) (d : Lane) → i < length batch.now.nodes
        → slice_index_or block.old.lanes i d ≡ gathered_first block.old.rules network.now round from.now first (slice_index batch.now.nodes i) }
    ensures rules { block.new.rules ≡ block.old.rules }
    ensures count { length block.new.lanes ≡ length batch.now.nodes }
    ensures lanes { (i : ℕ) (d : Lane) → i < length batch.now.nodes
        → slice_index_or block.new.lanes i d ≡ gathered block.old.rules network.now round from.now (slice_index batch.now.nodes i) }
{
    if first >= batch.slots.len() || batch.nodes.count() == 0 {
        return;
    }
    let node = first_node(batch);
    let neighbours = network.neighbours_of(node);
    let weights = network.weights_of(node);
    let mut at = first;
    while at < neighbours.len() {
        let behind = part_end(at, neighbours.len());
        block.take_row(&neighbours[at..behind], &weights[at..behind], from);
        at = behind;
    }
}
