//! Shares whose nodes are ranges of numbers, one after the other.
ghost use Rattle.std.specs.Prelude.{◌≡◌, ◌<◌, ◌≤◌, IfOk, length};
ghost use Rattle.rounds_blocks.specs.Spans.{HaveSpans};
ghost use Rattle.rounds_blocks.specs.Walks.{AreInRanges, HasRange};

use crate::batch::Batch;
use crate::share::Share;
use crate::sharing::{Costs, time_of_all};
use crate::spans::{NOTHING, Span};
use rounds_code::{Block, RowCode};
use std::alloc::{AllocError, Global};

/// Ranges end where spans do, and so take more time than they should: at most so much of it, one eighth, since all threads wait for the
/// longest. More it is where a range has few spans, or hubs side by side.
const SLACK: u64 = 8;

/// The shortest range of the nodes of batches, from this batch and this number on, that takes as long as this; none where spans do not
/// follow one another, or where it takes much longer.
fn next_range(
    nodes: usize,
    batches: &[Batch],
    spans: &[Span],
    first: usize,
    low: usize,
    costs: &Costs,
    time: u64,
) -> Span
    requires spans { HaveSpans nodes batches.now spans.now }
    requires first { first ≤ length batches.now }
    requires low { low ≤ nodes }
    ensures range { first < result.behind → HasRange nodes batches.now first low result }
{
    let mut range = Span {
        behind: first,
        low,
        high: low,
    };
    let mut sum: u64 = 0;
    while range.behind < spans.len() && sum < time {
        let span = spans[range.behind];
        if span.behind <= range.behind || span.low != range.high {
            return NOTHING;
        }
        sum = sum.saturating_add(time_of_all(&batches[range.behind..span.behind], costs));
        range.behind = span.behind;
        range.high = span.high;
    }
    if sum > time.saturating_add(time / SLACK) {
        return NOTHING;
    }
    range
}

/// The share of a range of nodes, which are those of the batches from this one on.
fn share_of_range<'a>(
    alloc: Global,
    code: &'a RowCode<'a>,
    first: usize,
    range: &Span,
) -> Result<Share<'a>, AllocError>
    ensures first { IfOk result (λ share. share.first ≡ first) }
    ensures behind { IfOk result (λ share. share.behind ≡ range.now.behind) }
    ensures low { IfOk result (λ share. share.low ≡ range.now.low) }
    ensures high { IfOk result (λ share. share.high ≡ range.now.high) }
    ensures rules { IfOk result (λ share. share.block.rules ≡ code.now) }
{
    let block = Block::new(alloc, code)?;
    Ok(Share {
        first,
        behind: range.behind,
        low: range.low,
        high: range.high,
        block,
        columns: Vec::new(alloc),
    })
}

/// These batches in shares whose nodes are ranges that follow one another, each of which takes about as long as this; none where there are
/// no such shares.
pub fn ranges_of<'a>(
    alloc: Global,
    code: &'a RowCode<'a>,
    nodes: usize,
    batches: &[Batch],
    spans: &[Span],
    costs: &Costs,
    time: u64,
) -> Result<Vec<Share<'a>>, AllocError>
    requires spans { HaveSpans nodes batches.now spans.now }
    ensures ranges { IfOk result (λ shares. AreInRanges code.now nodes batches.now shares.items) }
{
    let mut shares = Vec::new(alloc);
    let mut first = 0;
    let mut low = 0;
    while first < batches.len() {
        let range = next_range(nodes, batches, spans, first, low, costs, time);
        if range.behind <= first {
            return Ok(Vec::new(alloc));
        }
        shares.push(share_of_range(alloc, code, first, &range)?)?;
        first = range.behind;
        low = range.high;
    }
    Ok(shares)
}
