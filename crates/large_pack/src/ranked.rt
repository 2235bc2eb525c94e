//! Edges as they are compared.
ghost use Rattle.std.specs.Prelude.{◌≡◌, ◌≢◌, ◌+◌, ◌++◌, ◌<◌, ◌^◌, length, IfOk, OnOk, Ok, Err, MatchResult};
ghost use Rattle.std.specs.List.{flat_map};
ghost use Rattle.import_lines.specs.Texts.{told_from};
ghost use Rattle.large_pack.specs.declared.fault.PackFault.TheVariants.{Memory};
ghost use Rattle.large_pack.specs.Lines.{edges_in};
ghost use Rattle.large_pack.specs.Packing.{rank_of};
ghost use Rattle.large_pack.specs.Ranks.{ends_of, ranked, ranked_in, ranked_arcs};

use crate::edge_line::{EdgeLine, read_line};
use crate::fault::PackFault;
use crate::options::{PackOptions, Parallel};
use crate::rows::Arc;
use import_lines::Lines;
use std::alloc::{AllocError, Global};

/// An edge as it is compared: by its ends, the lower first where edges have no direction, by its rank among those of
/// the same ends, and by its line.
#[derive(Clone, Copy, Debug, PartialEq, Eq, PartialOrd, Ord)]
pub struct Ranked {
    /// One end, the lower one where edges have no direction.
    pub first: u32,
    /// The other end.
    pub second: u32,
    /// Of edges of the same ends one of the lowest rank stays.
    pub rank: u32,
    /// The line where the edge stands, counted from 1.
    pub line: u64,
    /// The weight.
    pub weight: u32,
}

/// The two ends, the lower first where edges have no direction.
fn ends(is_directed: bool, first: u32, second: u32) -> (u32, u32)
    ensures { result ≡ ends_of is_directed first second }
{
    if !is_directed && second < first {
        (second, first)
    } else {
        (first, second)
    }
}

/// The rank of an edge of this weight: the lower, the sooner it stays.
fn rank(parallel: Parallel, weight: u32) -> u32
    ensures { result ≡ rank_of parallel weight }
{
    match parallel {
        Parallel::Least => weight,
        Parallel::Greatest => u32::MAX - weight,
        Parallel::Refuse => 0,
        Parallel::Keep => 0,
        Parallel::First => 0,
    }
}

/// An edge as it is compared by these options.
pub fn rank_edge(edge: &EdgeLine, options: &PackOptions) -> Ranked
    ensures ranked { result ≡ ranked options.now edge.now }
{
    let (first, second) = ends(options.is_directed, edge.first, edge.second);
    Ranked {
        first,
        second,
        rank: rank(options.parallel, edge.weight),
        line: edge.line,
        weight: edge.weight,
    }
}

/// The edges of the lines that are left, as they are compared.
pub(crate) fn ranked_edges(
    alloc: Global,
    from: Lines<'_>,
    options: &PackOptions,
) -> Result<Vec<Ranked>, PackFault>
    requires room { from.passed + length from.bytes.now < 2 ^ 64 }
    ensures { MatchResult result (λ v. ranked_in options.now (edges_in options.now (told_from (from.entry.passed + 1) from.entry.bytes.now)) ≡ Ok v.items) (λ fault. fault ≢ Memory → edges_in options.now (told_from (from.entry.passed + 1) from.entry.bytes.now) ≡ Err fault) }
{
    let mut lines = from;
    let mut edges = Vec::new(alloc);
    while let Some((number, line)) = lines.next_told() {
        let edge = read_line(number, line, options)?;
        edges.push(rank_edge(&edge, options))?;
    }
    Ok(edges)
}

/// Adds the arcs of an edge.
fn push_arcs(arcs: &mut Vec<Arc>, edge: &Ranked, is_directed: bool) -> Result<(), AllocError>
    ensures { OnOk result (arcs.new.items ≡ arcs.old.items ++ ranked_arcs is_directed edge.now) }
{
    arcs.push((edge.first, edge.second, edge.weight))?;
    if is_directed || edge.first == edge.second {
        return Ok(());
    }
    arcs.push((edge.second, edge.first, edge.weight))?;
    Ok(())
}

/// The arcs of all edges.
pub(crate) fn arcs(
    alloc: Global,
    edges: Vec<Ranked>,
    is_directed: bool,
) -> Result<Vec<Arc>, AllocError>
    ensures { IfOk result (λ v. v.items ≡ flat_map (ranked_arcs is_directed) edges.items) }
{
    let room = if is_directed {
        edges.len()
    } else {
        2 * edges.len()
    };
    let mut arcs = Vec::with_capacity(alloc, room)?;
    for edge in &edges {
        push_arcs(&mut arcs, edge, is_directed)?;
    }
    Ok(arcs)
}
