//! Words of nodes copied from a part of a column to the same part of another one.
ghost use Rattle.std.specs.Prelude.{◌≡◌, ◌<◌, ◌≤◌, ◌+◌, ◌-◌, ◌⊎◌, ℕ, All, IfSome, IsTrue, List, drop, length, slice_index, slice_index_or, take};
ghost use Rattle.rounds_blocks.specs.declared.batch.Batch.{Batch};
ghost use Rattle.rounds_blocks.specs.Batches.{IsBatch};
ghost use Rattle.rounds_blocks.specs.Nears.{IsDue};
ghost use Rattle.rounds_blocks.specs.Rounds.{HasWordInside};
ghost use Rattle.rounds_blocks.specs.Spans.{IsSpan, HaveSpans};
ghost use Rattle.rounds_blocks.specs.Walks.{HoldsOfDue, IsComputed, IsCopied};

use crate::batch::Batch;
use crate::share::{Share, Shares};
use crate::spans::Span;
use crate::task::Task;
use link_net::NetRows;

/// Copies the word of a node, if it is in these parts, which begin with the node `low`.
fn copy_node(place: usize, source: &[u32], low: usize, part: &mut [u32])
    requires long { length source.now ≡ length part.old }
    ensures copied { (word : ℕ → ℕ) → HasWordInside low word source.now place → HasWordInside low word part.new place }
    ensures kept { (word : ℕ → ℕ) (u : ℕ) → HasWordInside low word source.now place → HasWordInside low word part.old u → HasWordInside low word part.new u }
{
    if place < low {
        return;
    }
    let at = place - low;
    if at < part.len() {
        part[at] = source[at];
    }
}

/// Copies the words of these nodes, as far as they are in these parts, which begin with the node `low`.
fn copy_nodes(nodes: &[u32], source: &[u32], low: usize, part: &mut [u32])
    requires long { length source.now ≡ length part.old }
    ensures copied { (word : ℕ → ℕ) → All (HasWordInside low word source.now) nodes.now → All (HasWordInside low word part.new) nodes.now }
    ensures kept { (word : ℕ → ℕ) (u : ℕ) → All (HasWordInside low word source.now) nodes.now → HasWordInside low word part.old u → HasWordInside low word part.new u }
{
    for node in nodes {
        copy_node(*node as usize, source, low, part);
    }
}

/// Copies the words of a batch's nodes, as far as they are in these parts, which begin with the node `low`: run by run where the parts are
/// all of the columns.
fn copy_batch(network: &NetRows<'_>, batch: &Batch, source: &[u32], low: usize, part: &mut [u32])
    requires batch { IsBatch network.now batch.now }
    requires long { length source.now ≡ length part.old }
    ensures copied { (word : ℕ → ℕ) → All (HasWordInside low word source.now) batch.now.nodes → All (HasWordInside low word part.new) batch.now.nodes }
    ensures kept { (word : ℕ → ℕ) (u : ℕ) → All (HasWordInside low word source.now) batch.now.nodes → HasWordInside low word part.old u → HasWordInside low word part.new u }
{
    if low == 0 && part.len() == network.nodes() as usize {
        batch.nodes.copy(part, source);
    } else {
        copy_nodes(batch.nodes.as_slice(), source, low, part);
    }
}

/// Copies the words of a batch's nodes where it was computed, as far as they are in these parts, which begin with the node `low`.
fn copy_where(task: &Task<'_>, at: usize, source: &[u32], low: usize, part: &mut [u32])
    requires each { All (IsBatch task.now.network.now) task.now.batches.now }
    requires flags { length task.now.due.now ≡ length task.now.batches.now }
    requires there { at < length task.now.batches.now }
    requires long { length source.now ≡ length part.old }
    ensures copied { (word : ℕ → ℕ) (d : Batch) → IsDue task.now.due.now at
        → All (HasWordInside low word source.now) (slice_index_or task.now.batches.now at d).nodes
        → All (HasWordInside low word part.new) (slice_index_or task.now.batches.now at d).nodes }
    ensures kept { (word : ℕ → ℕ) (u : ℕ)
        → (IsDue task.now.due.now at → (d : Batch) → All (HasWordInside low word source.now) (slice_index_or task.now.batches.now at d).nodes)
        → HasWordInside low word part.old u → HasWordInside low word part.new u }
{
    if task.due[at] {
        copy_batch(task.network, &task.batches[at], source, low, part);
    }
}

/// Whether all these batches were computed.
fn are_due(due: &[bool], first: usize, behind: usize) -> bool
    requires inside { behind ≤ length due.now }
    ensures due { IsTrue result → (i : ℕ) → first ≤ i → i < behind → IsDue due.now i }
{
    for at in first..behind {
        if !due[at] {
            return false;
        }
    }
    true
}

/// The span from this batch on, where it ends before another one.
fn span_from(spans: &[Span], at: usize, behind: usize) -> Option<Span>
    ensures there { IfSome result (λ span. (at < span.behind) × (span.behind ≤ behind)) }
    ensures span { (nodes : ℕ) (batches : List Batch) → HaveSpans nodes batches spans.now → IfSome result (IsSpan nodes batches at) }
{
    if at >= spans.len() {
        return None;
    }
    let span = spans[at];
    if at < span.behind && span.behind <= behind {
        Some(span)
    } else {
        None
    }
}

/// Whether a span has none of so many nodes from `low` on.
fn is_apart(span: &Span, low: usize, count: usize) -> bool
    ensures apart { IsTrue result → (u : ℕ) → span.now.low ≤ u → u < span.now.high → (u < low) ⊎ (low + count ≤ u) }
{
    span.high <= low || span.low.saturating_sub(low) >= count
}

/// Copies the words from one place on to the one before another.
fn copy_words(source: &[u32], first: usize, behind: usize, part: &mut [u32])
    requires order { first ≤ behind }
    requires inside { behind ≤ length part.old }
    requires inside_source { behind ≤ length source.now }
    ensures copied { (k : ℕ) → first ≤ k → k < behind → slice_index part.new k ≡ slice_index source.now k }
    ensures kept { (k : ℕ) → (k < first) ⊎ (behind ≤ k) → slice_index part.new k ≡ slice_index part.old k }
{
    part[first..behind].copy_from_slice(&source[first..behind]);
}

/// Copies the words of a span's nodes, as far as they are in these parts, which begin with the node `low`.
fn copy_span(span: &Span, source: &[u32], low: usize, part: &mut [u32])
    requires long { length source.now ≡ length part.old }
    ensures copied { (u : ℕ) → span.now.low ≤ u → u < span.now.high → low ≤ u → u < low + length part.new
        → slice_index part.new (u - low) ≡ slice_index source.now (u - low) }
    ensures kept { (u : ℕ) → (u < span.now.low) ⊎ (span.now.high ≤ u) → low ≤ u → slice_index part.new (u - low) ≡ slice_index part.old (u - low) }
{
    let first = span.low.saturating_sub(low);
    let behind = span.high.saturating_sub(low).min(part.len());
    if first < behind {
        copy_words(source, first, behind, part);
    }
}

/// Copies the words of the nodes of the next batches, as far as these were computed and the nodes are in these parts, which begin with the
/// node `low`: of all of a span at once where there is one, or else of one batch. The batch after those.
fn copy_next(
    task: &Task<'_>,
    spans: &[Span],
    at: usize,
    behind: usize,
    source: &[u32],
    low: usize,
    part: &mut [u32],
) -> usize
    requires each { All (IsBatch task.now.network.now) task.now.batches.now }
    requires flags { length task.now.due.now ≡ length task.now.batches.now }
    requires spans { HaveSpans (length task.now.network.now) task.now.batches.now spans.now }
    requires there { at < behind }
    requires inside { behind ≤ length task.now.batches.now }
    requires long { length source.now ≡ length part.old }
    ensures some { at < result }
    ensures few { result ≤ behind }
    ensures copied { (word : ℕ → ℕ) → HoldsOfDue (HasWordInside low word source.now) task.now at behind → HoldsOfDue (HasWordInside low word part.new) task.now at result }
    ensures kept { (word : ℕ → ℕ) (u : ℕ) → HoldsOfDue (HasWordInside low word source.now) task.now at behind
        → HasWordInside low word part.old u → HasWordInside low word part.new u }
{
    if let Some(span) = span_from(spans, at, behind) {
        if is_apart(&span, low, part.len()) {
            return span.behind;
        }
        if are_due(task.due, at, span.behind) {
            copy_span(&span, source, low, part);
            return span.behind;
        }
    }
    copy_where(task, at, source, low, part);
    at + 1
}

/// Copies the words of the nodes of a share's batches, as far as these were computed and the nodes are in these parts, which begin with the
/// node `low`.
fn copy_share(
    task: &Task<'_>,
    share: &Share<'_>,
    spans: &[Span],
    source: &[u32],
    low: usize,
    part: &mut [u32],
)
    requires each { All (IsBatch task.now.network.now) task.now.batches.now }
    requires flags { length task.now.due.now ≡ length task.now.batches.now }
    requires spans { HaveSpans (length task.now.network.now) task.now.batches.now spans.now }
    requires inside { share.now.behind ≤ length task.now.batches.now }
    requires long { length source.now ≡ length part.old }
    ensures copied { (word : ℕ → ℕ) → HoldsOfDue (HasWordInside low word source.now) task.now share.now.first share.now.behind
        → HoldsOfDue (HasWordInside low word part.new) task.now share.now.first share.now.behind }
    ensures kept { (word : ℕ → ℕ) (u : ℕ) → HoldsOfDue (HasWordInside low word source.now) task.now share.now.first share.now.behind
        → HasWordInside low word part.old u → HasWordInside low word part.new u }
{
    let mut at = share.first;
    while at < share.behind {
        at = copy_next(task, spans, at, share.behind, source, low, part);
    }
}

/// So many words of a column, from one place on.
fn words_from(column: &[u32], low: usize, count: usize) -> &[u32]
    requires inside { low + count ≤ length column.now }
    ensures exact { result.now ≡ take count (drop low column.now) }
{
    &column[low..][..count]
}

/// Copies a field's words of the nodes of all shares' batches, as far as these were computed, to a part of a column, which begins with
/// the node `low`.
pub fn copy_part(task: &Task<'_>, shares: &Shares<'_>, field: usize, low: usize, part: &mut [u32])
    requires computed { IsComputed task.now shares.now }
    requires wide { All (λ share. field < length share.columns.items) shares.now.all.items }
    requires inside { low + length part.old ≤ length task.now.network.now }
    ensures copied { IsCopied task.now shares.now.all.items field low part.old part.new }
{
    for share in &shares.all {
        let source = words_from(&share.columns[field], low, part.len());
        copy_share(task, share, &shares.spans, source, low, part);
    }
}
