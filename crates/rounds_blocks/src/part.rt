//! Rounds that write to a part of the one column of a program.
ghost use Rattle.std.specs.Prelude.{◌≡◌, ◌<◌, ◌≤◌, ◌+◌, ℕ, All, length, slice_index_or};
ghost use Rattle.link_net.specs.Neighbours.{AreRows};
ghost use Rattle.rounds_code.specs.Block.{AreInPart};
ghost use Rattle.rounds_blocks.specs.declared.batch.Batch.{Batch};
ghost use Rattle.rounds_blocks.specs.Batches.{IsBatch};
ghost use Rattle.rounds_blocks.specs.Nears.{IsDue};
ghost use Rattle.rounds_blocks.specs.Rounds.{HaveWords, HasWordFrom, next_word};
ghost use Rattle.rounds_blocks.specs.Walks.{IsTask, IsRange, IsSameShare, IsWrittenBy, HoldsOfDue};

use crate::batch::Batch;
use crate::round::gather;
use crate::share::Share;
use crate::task::Task;
use link_net::NetRows;
use rounds_code::{Block, NearColumns};

/// Writes the next words of a batch's nodes to a part of the one column, which begins with the node `low`.
fn step_part(
    network: &NetRows<'_>,
    batch: &Batch,
    block: &mut Block<'_>,
    round: u32,
    from: &NearColumns<'_>,
    low: usize,
    part: &mut [u32],
)
    requires batch { IsBatch network.now batch.now }
    requires network { AreRows network.now }
    requires fields { length from.now ≡ length block.old.rules.fields }
    requires some { 0 < length block.old.rules.fields }
    requires nodes { HaveWords (length network.now) from.now }
    requires part { AreInPart low (length part.old) batch.now.nodes }
    ensures rules { block.new.rules ≡ block.old.rules }
    ensures done { All (HasWordFrom low (next_word block.old.rules network.now round from.now) part.new) batch.now.nodes }
    ensures kept { (u : ℕ) → HasWordFrom low (next_word block.old.rules network.now round from.now) part.old u
        → HasWordFrom low (next_word block.old.rules network.now round from.now) part.new u }
{
    gather(network, batch, block, round, from);
    block.finish_part(&batch.nodes, low, part);
}

/// Writes the next words of a batch's nodes to a part of the one column, where it has to be computed.
fn step_part_where(task: &Task<'_>, at: usize, block: &mut Block<'_>, low: usize, part: &mut [u32])
    requires task { IsTask block.old.rules task.now }
    requires some { 0 < length block.old.rules.fields }
    requires there { at < length task.now.batches.now }
    requires part { (d : Batch) → AreInPart low (length part.old) (slice_index_or task.now.batches.now at d).nodes }
    ensures rules { block.new.rules ≡ block.old.rules }
    ensures done { (d : Batch) → IsDue task.now.due.now at
        → All (HasWordFrom low (next_word block.old.rules task.now.network.now task.now.round task.now.from.now) part.new) (slice_index_or task.now.batches.now at d).nodes }
    ensures kept { (u : ℕ) → HasWordFrom low (next_word block.old.rules task.now.network.now task.now.round task.now.from.now) part.old u
        → HasWordFrom low (next_word block.old.rules task.now.network.now task.now.round task.now.from.now) part.new u }
{
    if task.due[at] {
        step_part(
            task.network,
            &task.batches[at],
            block,
            task.round,
            task.from,
            low,
            part,
        );
    }
}

/// Writes the next words of the nodes of those batches that have to be computed, from the first one on to the one after the last, to a
/// part of the one column.
fn step_part_due(
    task: &Task<'_>,
    first: usize,
    behind: usize,
    block: &mut Block<'_>,
    low: usize,
    part: &mut [u32],
)
    requires task { IsTask block.old.rules task.now }
    requires some { 0 < length block.old.rules.fields }
    requires inside { behind ≤ length task.now.batches.now }
    requires part { (i : ℕ) (d : Batch) → first ≤ i → i < behind → AreInPart low (length part.old) (slice_index_or task.now.batches.now i d).nodes }
    ensures rules { block.new.rules ≡ block.old.rules }
    ensures done { HoldsOfDue (HasWordFrom low (next_word block.old.rules task.now.network.now task.now.round task.now.from.now) part.new) task.now first behind }
    ensures kept { (u : ℕ) → HasWordFrom low (next_word block.old.rules task.now.network.now task.now.round task.now.from.now) part.old u
        → HasWordFrom low (next_word block.old.rules task.now.network.now task.now.round task.now.from.now) part.new u }
{
    for at in first..behind {
        step_part_where(task, at, block, low, part);
    }
}

/// Writes the next words of the nodes of a share's batches, as far as these have to be computed, to its range of the one column.
pub fn work_range(task: &Task<'_>, share: &mut Share<'_>, part: &mut [u32])
    requires task { IsTask share.old.block.rules task.now }
    requires some { 0 < length share.old.block.rules.fields }
    requires range { IsRange share.old.block.rules task.now.batches.now share.old }
    requires part { share.old.high ≤ share.old.low + length part.old }
    ensures same { IsSameShare share.old share.new }
    ensures written { IsWrittenBy task.now share.old part.old part.new }
{
    step_part_due(
        task,
        share.first,
        share.behind,
        &mut share.block,
        share.low,
        part,
    );
}
