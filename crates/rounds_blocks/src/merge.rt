//! Words of nodes copied from the columns of shares to those of all nodes, in threads.
ghost use Rattle.std.specs.Prelude.{◌≡◌, ◌<◌, ◌≤◌, ◌+◌, ℕ, All, length, slice_index_or};
ghost use Rattle.std.specs.Global.{Vec};
ghost use denote.Param.Send.{IsSync};
ghost use Rattle.rounds_blocks.specs.Rounds.{HaveWords, HasWords};
ghost use Rattle.rounds_blocks.specs.Walks.{HoldsOfDue, IsComputed, IsCopied};

use crate::copying::copy_part;
use crate::line::{each_in_line, part_of};
use crate::share::Shares;
use crate::task::Task;
use std::marker::Sync;
use std::thread::{Threads, join_mut};

/// From how many words on they are copied in threads: to start these costs as much as to copy so many words.
const LEAST_WORDS: usize = 131_072;

/// What threads computed of a round in columns of their own.
#[derive(Drop)]
struct Computed<'a, 'b, 'c> {
    task: &'a Task<'b>,
    shares: &'a Shares<'c>,
}

/// How many threads copy columns.
#[derive(Drop)]
struct Copiers {
    /// How many take columns of their own.
    columns: usize,
    /// In how many each of these shares a column.
    ranges: usize,
}

/// Copies a field's words of the nodes of all shares' batches, as far as these were computed, to a part of a column, which begins with
/// the node `low`, in so many threads, of which this is one.
#[cycle(copies)]
fn copy_from<R: Threads + Sync>(
    rt: &R,
    threads: usize,
    computed: &Computed<'_, '_, '_>,
    field: usize,
    low: usize,
    part: &mut [u32],
)
    requires computed { IsComputed computed.now.task.now computed.now.shares.now }
    requires wide { All (λ share. field < length share.columns.items) computed.now.shares.now.all.items }
    requires inside { low + length part.old ≤ length computed.now.task.now.network.now }
    ensures copied { IsCopied computed.now.task.now computed.now.shares.now.all.items field low part.old part.new }
{
    if threads < 2 || part.len() < 2 {
        copy_part(computed.task, computed.shares, field, low, part);
        return;
    }
    let (front, others) = part.split_at_mut(part_of(part.len(), threads));
    beside(rt, threads - 1, computed, field, low, front, others);
}

/// Copies to the first part of a column in a new thread, and to the one after it from this thread on.
#[cycle(copies)]
fn beside<R: Threads + Sync>(
    rt: &R,
    threads: usize,
    computed: &Computed<'_, '_, '_>,
    field: usize,
    low: usize,
    front: &mut [u32],
    others: &mut [u32],
)
    requires computed { IsComputed computed.now.task.now computed.now.shares.now }
    requires wide { All (λ share. field < length share.columns.items) computed.now.shares.now.all.items }
    requires inside { low + length front.old + length others.old ≤ length computed.now.task.now.network.now }
    ensures front { IsCopied computed.now.task.now computed.now.shares.now.all.items field low front.old front.new }
    ensures others { IsCopied computed.now.task.now computed.now.shares.now.all.items field (low + length front.old) others.old others.new }
{
    // For the proof: what holds of every network.
    let _nodes = computed.task.network.nodes();
    let next = low + front.len();
    let mut in_thread = ||
        requires { IsComputed computed.now.task.now computed.now.shares.now × All (λ share. field < length share.columns.items) computed.now.shares.now.all.items
            × (low + length front.now ≤ length computed.now.task.now.network.now) }
        ensures { IsCopied computed.entry.now.task.now computed.entry.now.shares.now.all.items field low front.entry.now front.exit.now }
    { copy_part(computed.task, computed.shares, field, low, front) };
    let mut here = ||
        requires { IsSync R.row × IsComputed computed.now.task.now computed.now.shares.now × All (λ share. field < length share.columns.items) computed.now.shares.now.all.items
            × (next + length others.now ≤ length computed.now.task.now.network.now) }
        ensures { IsCopied computed.entry.now.task.now computed.entry.now.shares.now.all.items field next others.entry.now others.exit.now }
    { copy_from(rt, threads, computed, field, next, others) };
    join_mut(rt, &mut in_thread, &mut here);
}

/// Copies the words of the nodes of all shares' batches, as far as these were computed, in so many threads.
fn copy_columns<R: Threads + Sync>(
    rt: &R,
    copiers: &Copiers,
    computed: &Computed<'_, '_, '_>,
    to: &mut [Vec<u32>],
)
    requires computed { IsComputed computed.now.task.now computed.now.shares.now }
    requires wide { All (λ share. length share.columns.items ≡ length to.old) computed.now.shares.now.all.items }
    requires long { HaveWords (length computed.now.task.now.network.now) to.old }
    ensures copied { (k : ℕ) (d : Vec ℕ) → k < length to.old
        → IsCopied computed.now.task.now computed.now.shares.now.all.items k 0 (slice_index_or to.old k d).items (slice_index_or to.new k d).items }
{
    let ranges = copiers.ranges;
    each_in_line(
        rt,
        to,
        copiers.columns,
        &|field: usize, column: &mut Vec<u32>|
            requires { IsSync R.row × IsComputed computed.now.task.now computed.now.shares.now
                × All (λ share. field < length share.columns.items) computed.now.shares.now.all.items
                × (length column.now.items ≡ length computed.now.task.now.network.now) }
            ensures { IsCopied computed.entry.now.task.now computed.entry.now.shares.now.all.items field 0 column.entry.now.items column.exit.now.items }
        { copy_from(rt, ranges, computed, field, 0, column) },
    );
}

/// How many threads copy so many columns of so many words each: where the columns are long, as many as there are shares for ranges of one
/// column after another; where they are short and have many words together, as many for whole columns; or else this thread alone.
fn copiers_of(shares: usize, columns: usize, nodes: usize) -> Copiers {
    if nodes >= LEAST_WORDS {
        return Copiers {
            columns: 1,
            ranges: shares,
        };
    }
    let many = columns.saturating_mul(nodes) >= LEAST_WORDS;
    Copiers {
        columns: if many { shares } else { 1 },
        ranges: 1,
    }
}

/// Copies the words of the nodes of all shares' batches, as far as these were computed, in threads where there are many.
pub fn copy_shares(
    rt: &(impl Threads + Sync),
    task: &Task<'_>,
    shares: &Shares<'_>,
    to: &mut [Vec<u32>],
)
    requires computed { IsComputed task.now shares.now }
    requires wide { All (λ share. length share.columns.items ≡ length to.old) shares.now.all.items }
    requires long { HaveWords (length task.now.network.now) to.old }
    ensures long { HaveWords (length task.now.network.now) to.new }
    ensures copied { (words : ℕ → ℕ → ℕ) → All (λ share. HoldsOfDue (HasWords words share.columns.items) task.now share.first share.behind) shares.now.all.items
        → All (λ share. HoldsOfDue (HasWords words to.new) task.now share.first share.behind) shares.now.all.items }
    ensures kept { (words : ℕ → ℕ → ℕ) (u : ℕ) → All (λ share. HoldsOfDue (HasWords words share.columns.items) task.now share.first share.behind) shares.now.all.items
        → HasWords words to.old u → HasWords words to.new u }
{
    let copiers = copiers_of(shares.all.len(), to.len(), task.network.nodes() as usize);
    let computed = Computed { task, shares };
    copy_columns(rt, &copiers, &computed, to);
}
