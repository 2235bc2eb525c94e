//! Nodes that stand in batches that follow one another, and no others.
ghost use Rattle.std.specs.Prelude.{◌≡◌, ◌<◌, ◌≤◌, ℕ, All, IfOk, IsTrue, length, slice_index, slice_index_or};
ghost use Rattle.link_net.specs.Neighbours.{Neighbours};
ghost use Rattle.rounds_blocks.specs.declared.batch.Batch.{Batch};
ghost use Rattle.rounds_blocks.specs.Batches.{IsLayout};
ghost use Rattle.rounds_blocks.specs.Nears.{AreHomes};
ghost use Rattle.rounds_blocks.specs.Spans.{IsInside, IsSpan, HaveSpans};

use crate::batch::Batch;
use crate::near::homes_of;
use std::alloc::{AllocError, Global};

/// The nodes from one number on to the one before another, where these are the nodes of batches that follow one another, from one on to
/// the one before `after`. Where `after` is no greater than that one, nothing is said.
#[derive(Clone, Copy)]
pub struct Span {
    pub behind: usize,
    pub low: usize,
    pub high: usize,
}

/// A span of no batches.
pub const NOTHING: Span = Span {
    behind: 0,
    low: 0,
    high: 0,
};

/// Whether these nodes are in the range.
fn are_inside(nodes: &[u32], low: usize, high: usize) -> bool
    ensures within { IsTrue result → All (IsInside low high) nodes.now }
{
    for node in nodes {
        let place = *node as usize;
        if place < low || place >= high {
            return false;
        }
    }
    true
}

/// Whether the nodes of these batches are in the range.
fn batches_inside(batches: &[Batch], first: usize, behind: usize, low: usize, high: usize) -> bool
    requires inside { behind ≤ length batches.now }
    ensures within { IsTrue result → (i : ℕ) (d : Batch) → first ≤ i → i < behind → All (IsInside low high) (slice_index_or batches.now i d).nodes }
{
    for at in first..behind {
        if !are_inside(batches[at].nodes.as_slice(), low, high) {
            return false;
        }
    }
    true
}

/// Whether the nodes of the range stand in these batches.
fn homes_inside(homes: &[usize], low: usize, high: usize, first: usize, behind: usize) -> bool
    requires inside { high ≤ length homes.now }
    ensures within { IsTrue result → (u : ℕ) → low ≤ u → u < high → IsInside first behind (slice_index homes.now u) }
{
    for node in low..high {
        let home = homes[node];
        if home < first || home >= behind {
            return false;
        }
    }
    true
}

/// Whether a span from this batch on says what is so.
fn is_span(batches: &[Batch], homes: &[usize], first: usize, span: &Span) -> bool
    requires homes { AreHomes batches.now (length homes.now) homes.now }
    ensures span { IsTrue result → IsSpan (length homes.now) batches.now first span.now }
{
    if span.behind > batches.len() {
        return false;
    }
    if span.low > span.high {
        return false;
    }
    if span.high > homes.len() {
        return false;
    }
    batches_inside(batches, first, span.behind, span.low, span.high)
        && homes_inside(homes, span.low, span.high, first, span.behind)
}

/// The number after the greatest of these nodes, or the other one if that is greater.
fn end_behind(nodes: &[u32], end: usize) -> usize {
    let mut most = end;
    for node in nodes {
        most = most.max((*node as usize).saturating_add(1));
    }
    most
}

/// The fewest batches from this one on that have as many nodes as their range, which begins with this number; none where there are none.
fn next_span(batches: &[Batch], first: usize, low: usize) -> Span {
    let mut count = low;
    let mut high = low;
    for at in first..batches.len() {
        let nodes = batches[at].nodes.as_slice();
        count = count.saturating_add(nodes.len());
        high = end_behind(nodes, high);
        if count == high {
            return Span {
                behind: at + 1,
                low,
                high,
            };
        }
    }
    NOTHING
}

/// The span that begins with this batch and this number, if there is one.
fn span_at(batches: &[Batch], homes: &[usize], first: usize, low: usize) -> Span
    requires homes { AreHomes batches.now (length homes.now) homes.now }
    ensures exact { IsSpan (length homes.now) batches.now first result }
{
    let span = next_span(batches, first, low);
    if is_span(batches, homes, first, &span) {
        span
    } else {
        NOTHING
    }
}

/// The span that begins with this batch, if it is the one after the last span.
fn span_behind(batches: &[Batch], homes: &[usize], at: usize, last: &Span) -> Span
    requires homes { AreHomes batches.now (length homes.now) homes.now }
    ensures exact { IsSpan (length homes.now) batches.now at result }
{
    if at == last.behind {
        span_at(batches, homes, at, last.high)
    } else {
        NOTHING
    }
}

/// For each batch the span that begins with it.
fn spans_by(alloc: Global, batches: &[Batch], homes: &[usize]) -> Result<Vec<Span>, AllocError>
    requires homes { AreHomes batches.now (length homes.now) homes.now }
    ensures exact { IfOk result (λ spans. HaveSpans (length homes.now) batches.now spans.items) }
{
    let mut spans = Vec::with_capacity(alloc, batches.len())?;
    let mut last = NOTHING;
    for at in 0..batches.len() {
        let span = span_behind(batches, homes, at, &last);
        if span.behind > at {
            last = span;
        }
        spans.push(span)?;
    }
    Ok(spans)
}

/// For each batch of a layout the span that begins with it, in a network of so many nodes.
pub fn spans_of(alloc: Global, nodes: usize, batches: &[Batch]) -> Result<Vec<Span>, AllocError>
    requires layout { (network : Neighbours) × (length network ≡ nodes) × IsLayout network batches.now }
    ensures exact { IfOk result (λ spans. HaveSpans nodes batches.now spans.items) }
{
    let homes = homes_of(alloc, nodes, batches)?;
    spans_by(alloc, batches, &homes)
}
