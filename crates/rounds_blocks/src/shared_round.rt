//! A round that threads share.
ghost use Rattle.std.specs.Prelude.{◌≡◌, ◌<◌, ℕ, All, length, slice_index_or};
ghost use denote.Param.Send.{IsSync};
ghost use Rattle.rule_check.specs.Value.{Rules};
ghost use Rattle.rounds_blocks.specs.declared.batch.Batch.{Batch};
ghost use Rattle.rounds_blocks.specs.Nears.{IsDue};
ghost use Rattle.rounds_blocks.specs.Rounds.{HaveWords};
ghost use Rattle.rounds_blocks.specs.Walks.{AreGiven, HasNext, IsTask};

use crate::in_ranges::work_ranges;
use crate::merge::copy_shares;
use crate::share::Shares;
use crate::sharing::work_all;
use crate::task::Task;
use std::thread::Threads;

/// Writes the next states of the nodes of all batches that have to be computed, each share in a thread. Where the shares' nodes are ranges, each
/// thread writes to its own; else to columns of its own, which are copied then.
pub fn step_shared(
    rt: &(impl Threads + Sync),
    task: &Task<'_>,
    shares: &mut Shares<'_>,
    to: &mut [Vec<u32>],
)
    requires task { (rules : Rules) × IsTask rules task.now × AreGiven rules (length task.now.network.now) task.now.batches.now shares.old
        × (length to.old ≡ length rules.fields) }
    requires some { 0 < length shares.old.all.items }
    requires long { HaveWords (length task.now.network.now) to.old }
    ensures shares { (rules : Rules) → AreGiven rules (length task.now.network.now) task.now.batches.now shares.old
        → AreGiven rules (length task.now.network.now) task.now.batches.now shares.new }
    ensures long { HaveWords (length task.now.network.now) to.new }
    ensures done { (rules : Rules) → AreGiven rules (length task.now.network.now) task.now.batches.now shares.old → (i : ℕ) (d : Batch) → i < length task.now.batches.now
        → IsDue task.now.due.now i → All (HasNext rules task.now to.new) (slice_index_or task.now.batches.now i d).nodes }
    ensures kept { (rules : Rules) → AreGiven rules (length task.now.network.now) task.now.batches.now shares.old → (u : ℕ) → HasNext rules task.now to.old u
        → HasNext rules task.now to.new u }
{
    if shares.in_ranges {
        work_ranges(rt, task, &mut shares.all, &mut to[0]);
    } else {
        work_all(rt, task, &mut shares.all);
        copy_shares(rt, task, shares, to);
    }
}
