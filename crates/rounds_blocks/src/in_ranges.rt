//! Threads that write to ranges of one column.
ghost use Rattle.std.specs.Prelude.{◌≡◌, ◌<◌, ◌≤◌, ◌+◌, ℕ, All, List, [], ◌∷◌, ◌++◌, length, vec_capacity};
ghost use denote.Param.Send.{IsSync};
ghost use Rattle.rule_check.specs.Value.{Rules};
ghost use Rattle.rounds_blocks.specs.declared.share.Share.{Share};
ghost use Rattle.rounds_blocks.specs.Walks.{IsLeft, IsRange, IsSameShare, IsTask, IsWrittenBy, LineUp};

use crate::part::work_range;
use crate::share::Share;
use crate::task::Task;
use std::mem;
use std::thread::{Threads, join_mut};

/// A share whose nodes are a range, and the part of the column that begins with this range.
#[derive(Drop)]
struct Last<'a, 'b, 'c> {
    share: &'a mut Share<'c>,
    part: &'b mut [u32],
}

/// Shares whose nodes are ranges, one after the other, and the part of the column with these ranges.
#[derive(Drop)]
struct Others<'a, 'b, 'c> {
    shares: &'a mut Vec<Share<'c>>,
    part: &'b mut [u32],
}

/// Computes a share.
fn work_last(task: &Task<'_>, last: &mut Last<'_, '_, '_>)
    requires task { (rules : Rules) × IsTask rules task.now × (0 < length rules.fields) × IsRange rules task.now.batches.now last.old.share.now }
    requires part { last.old.share.now.high ≤ last.old.share.now.low + length last.old.part.now }
    ensures same_share { last.new.share.ghost_name ≡ last.old.share.ghost_name }
    ensures same_part { last.new.part.ghost_name ≡ last.old.part.ghost_name }
    ensures long { length last.new.part.now ≡ length last.old.part.now }
    ensures same { IsSameShare last.old.share.now last.new.share.now }
    ensures written { IsWrittenBy task.now last.old.share.now last.old.part.now last.new.part.now }
{
    let part = mem::take(&mut last.part);
    work_range(task, last.share, part);
    last.part = part;
}

/// Computes shares whose nodes are ranges, each in a thread, and writes to the first part of the one column, which has all these ranges.
#[cycle(ranges)]
fn work_from<R: Threads + Sync>(
    rt: &R,
    task: &Task<'_>,
    shares: &mut Vec<Share<'_>>,
    part: &mut [u32],
)
    requires task { (rules : Rules) × IsTask rules task.now × (0 < length rules.fields) × All (IsRange rules task.now.batches.now) shares.old.items }
    requires line { LineUp 0 shares.old.items (length part.old) }
    ensures room { vec_capacity shares.old ≤ vec_capacity shares.new }
    ensures left { IsLeft task.now 0 shares.old.items shares.new.items part.old part.new }
{
    if let Some(share) = shares.pop() {
        let mut share = share;
        let (there, here) = part.split_at_mut(share.low);
        work_both(rt, task, &mut share, here, shares, there);
        put_back(shares, share);
    }
}

/// Puts a share after the others, for which there is room.
fn put_back<'c>(shares: &mut Vec<Share<'c>>, share: Share<'c>)
    requires room { length shares.old.items < vec_capacity shares.old }
    ensures items { shares.new.items ≡ shares.old.items ++ share.entry ∷ [] }
    ensures room { vec_capacity shares.old ≤ vec_capacity shares.new }
{
    let _pushed = shares.push(share);
}

/// Computes the last share, and all others, if there are some, which write to the part of the column before its own.
#[cycle(ranges)]
fn work_both<R: Threads + Sync>(
    rt: &R,
    task: &Task<'_>,
    share: &mut Share<'_>,
    here: &mut [u32],
    shares: &mut Vec<Share<'_>>,
    there: &mut [u32],
)
    requires task { (rules : Rules) × IsTask rules task.now × (0 < length rules.fields) × IsRange rules task.now.batches.now share.old }
    requires part { share.old.high ≤ share.old.low + length here.old }
    requires others { (rules : Rules) × IsTask rules task.now × (0 < length rules.fields) × All (IsRange rules task.now.batches.now) shares.old.items }
    requires line { LineUp 0 shares.old.items (length there.old) }
    ensures same { IsSameShare share.old share.new }
    ensures written { IsWrittenBy task.now share.old here.old here.new }
    ensures room { vec_capacity shares.old ≤ vec_capacity shares.new }
    ensures left { IsLeft task.now 0 shares.old.items shares.new.items there.old there.new }
{
    if shares.is_empty() {
        work_range(task, share, here);
        return;
    }
    let mut last = Last { share, part: here };
    let mut others = Others {
        shares,
        part: there,
    };
    beside(rt, task, &mut last, &mut others);
}

/// What `work_from` does with shares and the part of the column with their ranges.
#[cycle(ranges)]
fn work_others<R: Threads + Sync>(rt: &R, task: &Task<'_>, others: &mut Others<'_, '_, '_>)
    requires task { (rules : Rules) × IsTask rules task.now × (0 < length rules.fields) × All (IsRange rules task.now.batches.now) others.old.shares.now.items }
    requires line { LineUp 0 others.old.shares.now.items (length others.old.part.now) }
    ensures same_shares { others.new.shares.ghost_name ≡ others.old.shares.ghost_name }
    ensures same_part { others.new.part.ghost_name ≡ others.old.part.ghost_name }
    ensures room { vec_capacity others.old.shares.now ≤ vec_capacity others.new.shares.now }
    ensures left { IsLeft task.now 0 others.old.shares.now.items others.new.shares.now.items others.old.part.now others.new.part.now }
{
    let part = mem::take(&mut others.part);
    work_from(rt, task, others.shares, part);
    others.part = part;
}

/// Computes the last share in a new thread, and all others from this thread on.
#[cycle(ranges)]
fn beside<R: Threads + Sync>(
    rt: &R,
    task: &Task<'_>,
    last: &mut Last<'_, '_, '_>,
    others: &mut Others<'_, '_, '_>,
)
    requires task { (rules : Rules) × IsTask rules task.now × (0 < length rules.fields) × IsRange rules task.now.batches.now last.old.share.now }
    requires part { last.old.share.now.high ≤ last.old.share.now.low + length last.old.part.now }
    requires others { (rules : Rules) × IsTask rules task.now × (0 < length rules.fields) × All (IsRange rules task.now.batches.now) others.old.shares.now.items }
    requires line { LineUp 0 others.old.shares.now.items (length others.old.part.now) }
    ensures same_share { last.new.share.ghost_name ≡ last.old.share.ghost_name }
    ensures same_part { last.new.part.ghost_name ≡ last.old.part.ghost_name }
    ensures same_shares { others.new.shares.ghost_name ≡ others.old.shares.ghost_name }
    ensures same_others { others.new.part.ghost_name ≡ others.old.part.ghost_name }
    ensures long { length last.new.part.now ≡ length last.old.part.now }
    ensures same { IsSameShare last.old.share.now last.new.share.now }
    ensures written { IsWrittenBy task.now last.old.share.now last.old.part.now last.new.part.now }
    ensures room { vec_capacity others.old.shares.now ≤ vec_capacity others.new.shares.now }
    ensures left { IsLeft task.now 0 others.old.shares.now.items others.new.shares.now.items others.old.part.now others.new.part.now }
{
    let mut in_thread = ||
        requires { (last.now.share.now.high ≤ last.now.share.now.low + length last.now.part.now)
            × ((rules : Rules) × IsTask rules task.now × (0 < length rules.fields) × IsRange rules task.now.batches.now last.now.share.now) }
        ensures { (last.exit.now.share.ghost_name ≡ last.entry.now.share.ghost_name) × (last.exit.now.part.ghost_name ≡ last.entry.now.part.ghost_name)
            × (length last.exit.now.part.now ≡ length last.entry.now.part.now) × IsSameShare last.entry.now.share.now last.exit.now.share.now
            × IsWrittenBy task.entry.now last.entry.now.share.now last.entry.now.part.now last.exit.now.part.now }
    { work_last(task, last) };
    let mut from_here = ||
        requires { IsSync R.row × LineUp 0 others.now.shares.now.items (length others.now.part.now)
            × ((rules : Rules) × IsTask rules task.now × (0 < length rules.fields) × All (IsRange rules task.now.batches.now) others.now.shares.now.items) }
        ensures { (others.exit.now.shares.ghost_name ≡ others.entry.now.shares.ghost_name) × (others.exit.now.part.ghost_name ≡ others.entry.now.part.ghost_name)
            × (vec_capacity others.entry.now.shares.now ≤ vec_capacity others.exit.now.shares.now)
            × IsLeft task.entry.now 0 others.entry.now.shares.now.items others.exit.now.shares.now.items others.entry.now.part.now others.exit.now.part.now }
    { work_others(rt, task, others) };
    join_mut(rt, &mut in_thread, &mut from_here);
}

/// Computes the next states of the nodes of all shares' batches, as far as these have to be computed, each share in a thread, and writes to
/// the one column of the program.
pub fn work_ranges(
    rt: &(impl Threads + Sync),
    task: &Task<'_>,
    shares: &mut Vec<Share<'_>>,
    column: &mut [u32],
)
    requires task { (rules : Rules) × IsTask rules task.now × (0 < length rules.fields) × All (IsRange rules task.now.batches.now) shares.old.items }
    requires line { LineUp 0 shares.old.items (length column.old) }
    ensures left { IsLeft task.now 0 shares.old.items shares.new.items column.old column.new }
{
    work_from(rt, task, shares, column);
}
