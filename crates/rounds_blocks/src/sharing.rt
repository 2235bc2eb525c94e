//! Shares of rounds, and rounds in threads.
ghost use Rattle.std.specs.Prelude.{◌≡◌, ◌<◌, ◌≤◌, ℕ, All, IfOk, length, slice_index_or};
ghost use denote.Param.Send.{IsSync};
ghost use Rattle.rule_check.specs.Value.{Rules};
ghost use Rattle.rounds_blocks.specs.Rounds.{HaveWords};
ghost use Rattle.rounds_blocks.specs.Spans.{HaveSpans};
ghost use Rattle.rounds_blocks.specs.Walks.{AreGiven, IsTask, IsShare, IsShared, AreShares, HasNext, HoldsOfDue};

use crate::alone::second_degree;
use crate::batch::Batch;
use crate::line::each_in_line;
use crate::node_ranges::ranges_of;
use crate::share::{Share, Shares, work};
use crate::spans::Span;
use crate::task::Task;
use rounds_code::{Block, RowCode, Slot};
use std::alloc::{AllocError, Global};
use std::thread::Threads;

/// What a round costs, in instructions: so much for each node, and for each neighbour of one. It is shared among
/// threads where these save as much as the least saving.
#[derive(Clone, Copy)]
pub struct Costs {
    /// What a node costs.
    pub node: u64,
    /// What a neighbour of a node costs.
    pub end: u64,
    /// What threads have to save in a round that is shared.
    pub least_saving: u64,
}

/// As how many neighbours of a node a slot of several nodes counts, beside those that stand in it. They are few, since
/// slots that are as long as those beside them share their rows.
const SLOT: u64 = 4;

/// What a node takes beside the program's instructions, as many of these: its words are read and written.
const NODE_READ: u64 = 24;

/// What a neighbour takes that lies anywhere.
const READ: u64 = 16;

/// What a neighbour takes that is read with those before and after it.
const READ_IN_RUN: u64 = 4;

/// What a slot of several nodes takes, however few neighbours stand in it.
const SLOT_READ: u64 = 128;

/// How far after the neighbour that was read before, in words, one may lie to take as long as one in a run: what lies
/// there has been fetched by the time that it is read.
const NEAR: u32 = 256;

/// In how many of a batch's slots several nodes have neighbours. In all others its first node stands alone.
fn common_slots(batch: &Batch) -> usize
    ensures few { result ≤ length batch.now.slots.items }
{
    let second = second_degree(&batch.degrees) as usize;
    second.min(batch.slots.len())
}

/// What it costs to compute a batch.
fn cost_of(batch: &Batch, costs: &Costs) -> u64 {
    let nodes = batch.nodes.count() as u64;
    let slots = (common_slots(batch) as u64).saturating_mul(SLOT);
    let ends = batch.ends.saturating_add(slots);
    nodes
        .saturating_mul(costs.node)
        .saturating_add(ends.saturating_mul(costs.end))
}

/// What the neighbours in slots of several nodes take to be read.
fn reading_in_slots(slots: &[Slot]) -> u64 {
    let mut sum = (slots.len() as u64).saturating_mul(SLOT_READ);
    for slot in slots {
        let count = slot.neighbours.count() as u64;
        let each = if slot.neighbours.are_in_runs() {
            READ_IN_RUN
        } else {
            READ
        };
        sum = sum.saturating_add(count.saturating_mul(each));
    }
    sum
}

/// What neighbours take that are read one after another, after one that was read before. The last of them.
fn reading_behind(before: u32, neighbours: &[u32]) -> (u64, u32) {
    let mut sum: u64 = 0;
    let mut last = before;
    for neighbour in neighbours {
        let each = if neighbour.wrapping_sub(last) < NEAR {
            READ_IN_RUN
        } else {
            READ
        };
        sum = sum.saturating_add(each);
        last = *neighbour;
    }
    (sum, last)
}

/// What the neighbours in slots of one node take to be read: they are read where they stand in the network, side by side.
fn reading_alone(slots: &[Slot]) -> u64 {
    let mut sum: u64 = 0;
    let mut last = 0;
    for slot in slots {
        let (more, neighbour) = reading_behind(last, slot.neighbours.as_slice());
        sum = sum.saturating_add(more);
        last = neighbour;
    }
    sum
}

/// How long it takes to compute a batch: what its instructions cost, and what it takes to read and write words, as many
/// instructions. The numbers were fitted to times of batches at random and on a power law (bench/history.md).
fn time_of(batch: &Batch, costs: &Costs) -> u64 {
    let nodes = batch.nodes.count() as u64;
    let (common, alone) = batch.slots.split_at(common_slots(batch));
    cost_of(batch, costs)
        .saturating_add(nodes.saturating_mul(NODE_READ))
        .saturating_add(reading_in_slots(common))
        .saturating_add(reading_alone(alone))
}

/// How long it takes to compute all of these batches.
pub fn time_of_all(batches: &[Batch], costs: &Costs) -> u64 {
    let mut sum: u64 = 0;
    for batch in batches {
        sum = sum.saturating_add(time_of(batch, costs));
    }
    sum
}

/// What it costs to compute those batches of a share that are marked.
fn cost_due(batches: &[Batch], due: &[bool], share: &Share<'_>, costs: &Costs) -> u64
    requires flags { length due.now ≡ length batches.now }
    requires inside { share.now.behind ≤ length batches.now }
{
    let mut sum: u64 = 0;
    for at in share.first..share.behind {
        if due[at] {
            sum = sum.saturating_add(cost_of(&batches[at], costs));
        }
    }
    sum
}

/// What threads save of a round: the costs of all shares but the dearest one.
pub fn saved_by(batches: &[Batch], due: &[bool], shares: &[Share<'_>], costs: &Costs) -> u64
    requires flags { length due.now ≡ length batches.now }
    requires inside { All (λ share. share.behind ≤ length batches.now) shares.now }
{
    let mut all: u64 = 0;
    let mut most: u64 = 0;
    for share in shares {
        let cost = cost_due(batches, due, share, costs);
        all = all.saturating_add(cost);
        most = most.max(cost);
    }
    all.saturating_sub(most)
}

/// The end of the shortest share from this batch on that takes as long as this, or else the end of the batches.
fn end_of(batches: &[Batch], first: usize, costs: &Costs, time: u64) -> usize
    requires some { first < length batches.now }
    ensures some { first < result }
    ensures few { result ≤ length batches.now }
{
    let mut sum: u64 = 0;
    for at in first..batches.len() {
        sum = sum.saturating_add(time_of(&batches[at], costs));
        if sum >= time {
            return at + 1;
        }
    }
    batches.len()
}

/// Columns of zeros, as many and as long as these.
fn blank_like(alloc: Global, columns: &[Vec<u32>]) -> Result<Vec<Vec<u32>>, AllocError>
    ensures fields { IfOk result (λ blank. length blank.items ≡ length columns.now) }
    ensures nodes { IfOk result (λ blank. (n : ℕ) → HaveWords n columns.now → HaveWords n blank.items) }
{
    let mut blank = Vec::with_capacity(alloc, columns.len())?;
    for column in columns {
        blank.push(vec![in alloc; 0; column.len()]?)?;
    }
    Ok(blank)
}

/// The share of these batches.
fn share_of<'a>(
    alloc: Global,
    code: &'a RowCode<'a>,
    columns: &[Vec<u32>],
    first: usize,
    behind: usize,
) -> Result<Share<'a>, AllocError>
    requires fields { length columns.now ≡ length code.now.fields }
    ensures share { IfOk result (λ share. (nodes batches : ℕ) → HaveWords nodes columns.now → behind ≤ batches → IsShare code.now nodes batches share) }
    ensures first { IfOk result (λ share. share.first ≡ first) }
    ensures behind { IfOk result (λ share. share.behind ≡ behind) }
{
    let block = Block::new(alloc, code)?;
    let columns = blank_like(alloc, columns)?;
    Ok(Share {
        first,
        behind,
        low: 0,
        high: 0,
        block,
        columns,
    })
}

/// These batches in shares, each of which takes as long as this.
fn shares_of<'a>(
    alloc: Global,
    code: &'a RowCode<'a>,
    columns: &[Vec<u32>],
    batches: &[Batch],
    costs: &Costs,
    time: u64,
) -> Result<Vec<Share<'a>>, AllocError>
    requires fields { length columns.now ≡ length code.now.fields }
    ensures shares { IfOk result (λ shares. (nodes : ℕ) → HaveWords nodes columns.now → AreShares code.now nodes (length batches.now) shares.items) }
{
    let mut shares = Vec::new(alloc);
    let mut first = 0;
    while first < batches.len() {
        let behind = end_of(batches, first, costs, time);
        shares.push(share_of(alloc, code, columns, first, behind)?)?;
        first = behind;
    }
    Ok(shares)
}

/// Shares of these batches of a network of so many nodes, each of which takes about as long as this: in ranges where the program has one
/// field and there are such.
pub fn all_shares<'a>(
    alloc: Global,
    code: &'a RowCode<'a>,
    columns: &[Vec<u32>],
    nodes: usize,
    batches: &[Batch],
    spans: Vec<Span>,
    costs: &Costs,
    time: u64,
) -> Result<Shares<'a>, AllocError>
    requires fields { length columns.now ≡ length code.now.fields }
    requires long { HaveWords nodes columns.now }
    requires spans { HaveSpans nodes batches.now spans.items }
    ensures shares { IfOk result (AreGiven code.now nodes batches.now) }
{
    if columns.len() == 1 {
        let all = ranges_of(alloc, code, nodes, batches, &spans, costs, time)?;
        if !all.is_empty() {
            return Ok(Shares {
                all,
                in_ranges: true,
                spans,
            });
        }
    }
    let all = shares_of(alloc, code, columns, batches, costs, time)?;
    Ok(Shares {
        all,
        in_ranges: false,
        spans,
    })
}

/// Computes the next states of the nodes of all shares' batches, as far as these have to be computed, in threads.
pub fn work_all(rt: &(impl Threads + Sync), task: &Task<'_>, shares: &mut [Share<'_>])
    requires task { (rules : Rules) × IsTask rules task.now × All (IsShare rules (length task.now.network.now) (length task.now.batches.now)) shares.old }
    ensures shares { (rules : Rules) → All (IsShare rules (length task.now.network.now) (length task.now.batches.now)) shares.old → All (IsShare rules (length task.now.network.now) (length task.now.batches.now)) shares.new }
    ensures first { (s : ℕ) (d : Share) → s < length shares.old → (slice_index_or shares.new s d).first ≡ (slice_index_or shares.old s d).first }
    ensures behind { (s : ℕ) (d : Share) → s < length shares.old → (slice_index_or shares.new s d).behind ≡ (slice_index_or shares.old s d).behind }
    ensures done { (rules : Rules) → All (IsShare rules (length task.now.network.now) (length task.now.batches.now)) shares.old → All (λ share. HoldsOfDue (HasNext rules task.now share.columns.items) task.now share.first share.behind) shares.new }
{
    let threads = shares.len();
    each_in_line(
        rt,
        shares,
        threads,
        &|_place: usize, share: &mut Share<'_>|
            requires { IsTask share.now.block.rules task.now × IsShare share.now.block.rules (length task.now.network.now) (length task.now.batches.now) share.now }
            ensures { IsShare share.entry.now.block.rules (length task.entry.now.network.now) (length task.entry.now.batches.now) share.exit.now
                × (share.exit.now.first ≡ share.entry.now.first) × (share.exit.now.behind ≡ share.entry.now.behind)
                × HoldsOfDue (HasNext share.entry.now.block.rules task.entry.now share.exit.now.columns.items) task.entry.now share.exit.now.first share.exit.now.behind }
        { work(task, share) },
    );
}
