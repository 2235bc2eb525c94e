//! Edges that join the same two nodes.
ghost use Rattle.std.specs.Prelude.{◌≡◌, true, map, None, IfOk, OnOk};
ghost use Rattle.std.specs.List.Sorted.{IsPermutation};
ghost use Rattle.std.specs.Result.{result_err};
ghost use Rattle.large_pack.specs.Ranks.{alike, unbeaten, straight_ranked, kept_ranked, repeat_in, repeat_ranked, sooner, least_repeat, LinesRise, AreTied};
ghost use Rattle.large_pack.specs.Packing.{refuses};
ghost use Rattle.large_pack.specs.Keys.{key_of};

use crate::fault::PackFault;
use crate::keys::{has_repeat, key};
use crate::options::{Parallel, SelfLoops};
use crate::ranked::Ranked;
use std::alloc::{AllocError, Global};

/// Leaves out self-loops, where they are dropped.
pub(crate) fn straighten(edges: &mut Vec<Ranked>, self_loops: SelfLoops)
    ensures { edges.new.items ≡ straight_ranked self_loops edges.old.items }
{
    match self_loops {
        SelfLoops::Drop => edges.retain(|edge| edge.first != edge.second),
        SelfLoops::Refuse | SelfLoops::Keep => {}
    }
}

/// Whether both join the same two nodes.
fn join_alike(one: &Ranked, other: &Ranked) -> bool
    ensures { result ≡ alike one.now other.now }
{
    one.first == other.first && one.second == other.second
}

/// Leaves of the edges that join the same two nodes the one of the lowest rank, and of one rank that of the first line.
pub(crate) fn merge(edges: &mut Vec<Ranked>)
    requires { LinesRise edges.old.items }
    ensures { IsPermutation (unbeaten edges.old.items) edges.new.items }
{
    edges.sort_unstable();
    edges.dedup_by(|later, earlier| join_alike(later, earlier));
}

/// The repeat of the lower line: its line, and the first line that joins the same two nodes.
fn sooner(repeat: Option<(u64, u64)>, other: (u64, u64)) -> Option<(u64, u64)>
    ensures { result ≡ sooner repeat other }
{
    match repeat {
        Some(first) => {
            if first.0 <= other.0 {
                Some(first)
            } else {
                Some(other)
            }
        }
        None => Some(other),
    }
}

/// Of sorted edges the least line of one that joins the same two nodes as one before it, and the first line that does.
fn least_repeat(edges: &[Ranked]) -> Option<(u64, u64)>
    ensures { result ≡ least_repeat edges.now }
{
    let (first, rest) = edges.split_first()?;
    let mut head = *first;
    let mut repeat = None;
    for edge in rest {
        if join_alike(edge, &head) {
            repeat = sooner(repeat, (edge.line, head.line));
        } else {
            head = *edge;
        }
    }
    repeat
}

/// The two ends of each edge as one number.
fn ends_keys(alloc: Global, edges: &[Ranked]) -> Result<Vec<u64>, AllocError>
    ensures { IfOk result (λ v. v.items ≡ map (λ e. key_of (e.first, e.second, 1)) edges.now) }
{
    edges
        .iter()
        .map(|edge| key(edge.first, edge.second))
        .collect(alloc)
}

/// Whether it is seen that no two edges join the same two nodes: not where memory runs out.
fn are_apart(alloc: Global, edges: &[Ranked]) -> bool
    ensures { result ≡ true → repeat_in edges.now ≡ None }
{
    let Ok(keys) = ends_keys(alloc, edges) else {
        return false;
    };
    let mut keys = keys;
    keys.sort_unstable();
    !has_repeat(keys.as_slice())
}

/// The line of the first edge that joins the same two nodes as an earlier one, and the first line that does.
fn first_repeat(alloc: Global, edges: &mut Vec<Ranked>) -> Option<(u64, u64)>
    requires rising { LinesRise edges.old.items }
    requires tied { AreTied edges.old.items }
    ensures repeat { result ≡ repeat_in edges.old.items }
    ensures moved { IsPermutation edges.old.items edges.new.items }
{
    if are_apart(alloc, edges.as_slice()) {
        return None;
    }
    edges.sort_unstable();
    least_repeat(edges.as_slice())
}

/// Does with edges that join the same two nodes what is done with them.
pub(crate) fn settle(
    alloc: Global,
    edges: &mut Vec<Ranked>,
    parallel: Parallel,
) -> Result<(), PackFault>
    requires rising { LinesRise edges.old.items }
    requires tied { refuses parallel ≡ true → AreTied edges.old.items }
    ensures kept { OnOk result (IsPermutation (kept_ranked parallel edges.old.items) edges.new.items) }
    ensures refused { result_err result ≡ repeat_ranked parallel edges.old.items }
{
    match parallel {
        Parallel::Refuse => {
            if let Some((line, earlier)) = first_repeat(alloc, edges) {
                return Err(PackFault::ParallelEdge { line, earlier });
            }
        }
        Parallel::Keep => {}
        Parallel::Least | Parallel::Greatest | Parallel::First => merge(edges),
    }
    Ok(())
}
