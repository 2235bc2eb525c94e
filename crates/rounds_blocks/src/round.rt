//! A round over batches.
ghost use Rattle.std.specs.Prelude.{◌≡◌, ◌<◌, ◌≤◌, ℕ, All, length, slice_index, slice_index_or};
ghost use Rattle.link_net.specs.Neighbours.{AreRows};
ghost use Rattle.rounds_code.specs.Block.{Lane};
ghost use Rattle.rounds_blocks.specs.declared.batch.Batch.{Batch};
ghost use Rattle.rounds_blocks.specs.Batches.{IsBatch};
ghost use Rattle.rounds_blocks.specs.Nears.{IsDue};
ghost use Rattle.rounds_blocks.specs.Rounds.{HaveWords, IsNext};
ghost use Rattle.rounds_blocks.specs.Walks.{IsTask, HasNext, HoldsOfDue};
ghost use Rattle.rounds_blocks.specs.Gathered.{gathered, gathered_first};

use crate::alone::{first_alone, gather_alone};
use crate::batch::Batch;
use crate::group::group_end;
use crate::task::Task;
use link_net::NetRows;
use rounds_code::{Block, NearColumns};

/// Gathers the aggregates of a batch's nodes over their neighbours in the first slots, where these have windows and the program reads its
/// neighbours where they stand. In how many slots.
fn gather_windows(
    network: &NetRows<'_>,
    batch: &Batch,
    block: &mut Block<'_>,
    round: u32,
    from: &[Vec<u32>],
) -> usize
    requires batch { IsBatch network.now batch.now }
    requires network { AreRows network.now }
    requires fields { length from.now ≡ length block.old.rules.fields }
    requires nodes { HaveWords (length network.now) from.now }
    requires count { length block.old.lanes ≡ length batch.now.nodes }
    requires lanes { (i : ℕ) (d : Lane) → i < length batch.now.nodes
        → slice_index_or block.old.lanes i d ≡ gathered_first block.old.rules network.now round from.now 0 (slice_index batch.now.nodes i) }
    ensures rules { block.new.rules ≡ block.old.rules }
    ensures count { length block.new.lanes ≡ length batch.now.nodes }
    ensures inside { result ≤ length batch.now.slots.items }
    ensures lanes { (i : ℕ) (d : Lane) → i < length batch.now.nodes
        → slice_index_or block.new.lanes i d ≡ gathered_first block.old.rules network.now round from.now result (slice_index batch.now.nodes i) }
{
    match &batch.windows {
        Some(windows) => {
            let count = windows.places.len();
            if block.take_windows(&batch.slots[..count], windows, from) {
                return count;
            }
            0
        }
        None => 0,
    }
}

/// Gathers the aggregates of a batch's nodes over all their neighbours.
pub fn gather(
    network: &NetRows<'_>,
    batch: &Batch,
    block: &mut Block<'_>,
    round: u32,
    from: &NearColumns<'_>,
)
    requires batch { IsBatch network.now batch.now }
    requires network { AreRows network.now }
    requires fields { length from.now ≡ length block.old.rules.fields }
    requires nodes { HaveWords (length network.now) from.now }
    ensures rules { block.new.rules ≡ block.old.rules }
    ensures count { length block.new.lanes ≡ length batch.now.nodes }
    ensures lanes { (i : ℕ) (d : Lane) → i < length batch.now.nodes
        → slice_index_or block.new.lanes i d ≡ gathered block.old.rules network.now round from.now (slice_index batch.now.nodes i) }
{
    block.enter(round, &batch.nodes, &batch.degrees, from.words());
    let alone = first_alone(network, batch);
    let mut at = gather_windows(network, batch, block, round, from.words());
    while at < alone {
        let count = batch.slots[at].neighbours.count();
        let behind = group_end(&batch.slots, at, count);
        block.take_slots(&batch.slots[at..behind], count, from);
        at = behind;
    }
    gather_alone(network, batch, block, at, round, from);
}

/// Writes the next states of a batch's nodes.
fn step(
    network: &NetRows<'_>,
    batch: &Batch,
    block: &mut Block<'_>,
    round: u32,
    from: &NearColumns<'_>,
    to: &mut [Vec<u32>],
)
    requires batch { IsBatch network.now batch.now }
    requires network { AreRows network.now }
    requires fields { length from.now ≡ length block.old.rules.fields }
    requires next_fields { length to.old ≡ length block.old.rules.fields }
    requires nodes { HaveWords (length network.now) from.now }
    requires next_nodes { HaveWords (length network.now) to.old }
    ensures rules { block.new.rules ≡ block.old.rules }
    ensures nodes { HaveWords (length network.now) to.new }
    ensures done { All (IsNext block.old.rules network.now round from.now to.new) batch.now.nodes }
    ensures kept { (u : ℕ) → IsNext block.old.rules network.now round from.now to.old u → IsNext block.old.rules network.now round from.now to.new u }
{
    gather(network, batch, block, round, from);
    block.finish(&batch.nodes, to);
}

/// Writes the next states of a batch's nodes, where it has to be computed.
fn step_where(task: &Task<'_>, at: usize, block: &mut Block<'_>, to: &mut [Vec<u32>])
    requires task { IsTask block.old.rules task.now }
    requires there { at < length task.now.batches.now }
    requires next_fields { length to.old ≡ length block.old.rules.fields }
    requires next_nodes { HaveWords (length task.now.network.now) to.old }
    ensures rules { block.new.rules ≡ block.old.rules }
    ensures nodes { HaveWords (length task.now.network.now) to.new }
    ensures done { (d : Batch) → IsDue task.now.due.now at → All (HasNext block.old.rules task.now to.new) (slice_index_or task.now.batches.now at d).nodes }
    ensures kept { (u : ℕ) → HasNext block.old.rules task.now to.old u → HasNext block.old.rules task.now to.new u }
{
    if task.due[at] {
        step(
            task.network,
            &task.batches[at],
            block,
            task.round,
            task.from,
            to,
        );
    }
}

/// Writes the next states of the nodes of those batches that have to be computed, from the first one on to the one
/// after the last.
pub fn step_due(
    task: &Task<'_>,
    first: usize,
    behind: usize,
    block: &mut Block<'_>,
    to: &mut [Vec<u32>],
)
    requires task { IsTask block.old.rules task.now }
    requires inside { behind ≤ length task.now.batches.now }
    requires next_fields { length to.old ≡ length block.old.rules.fields }
    requires next_nodes { HaveWords (length task.now.network.now) to.old }
    ensures rules { block.new.rules ≡ block.old.rules }
    ensures nodes { HaveWords (length task.now.network.now) to.new }
    ensures done { HoldsOfDue (HasNext block.old.rules task.now to.new) task.now first behind }
    ensures kept { (u : ℕ) → HasNext block.old.rules task.now to.old u → HasNext block.old.rules task.now to.new u }
{
    for at in first..behind {
        step_where(task, at, block, to);
    }
}
