//! Lists of edges packed into networks.
ghost use Rattle.std.specs.Prelude.{◌≡◌, ◌≢◌, ◌<◌, ◌≤◌, ◌&&◌, ◌||◌, List, true, length, map, IfErr, IfSome, Ok, Err, MatchResult};
ghost use Rattle.std.specs.List.{flat_map};
ghost use Rattle.std.specs.List.Sorted.{IsPermutation, IsNonDecreasing};
ghost use Rattle.link_net.specs.Limits.{most_rows};
ghost use Rattle.link_net.specs.Links.{AllWithin};
ghost use Rattle.large_pack.specs.declared.edge_line.EdgeLine.{EdgeLine};
ghost use Rattle.large_pack.specs.declared.fault.PackFault.TheVariants.{TooManyEdges, Memory};
ghost use Rattle.large_pack.specs.Lines.{and_then};
ghost use Rattle.large_pack.specs.Rows.{HasArcs};
ghost use Rattle.large_pack.specs.Sound.{node_count, sound_of};
ghost use Rattle.large_pack.specs.Packing.{merges, refuses, packing_in, packing_of, IsAnswer};
ghost use Rattle.large_pack.specs.Keys.{usual_weight, arcs_in, repeats, AreKeyed};
ghost use Rattle.large_pack.specs.Ranks.{ranked, ranked_arcs, RankedWithin, LinesRise, AreTied};

use crate::fault::PackFault;
use crate::keyed_rows::network_of_keys;
use crate::keys::{KeyedEdges, has_repeat};
use crate::merging::{settle, straighten};
use crate::options::{PackOptions, Parallel};
use crate::ranked::{Ranked, arcs, ranked_edges};
use crate::rows::network_of_arcs;
use crate::shared::read_shared;
use crate::survey::count_nodes;
use import_lines::edge_lines;
use large_net::LargeNetwork;
use rayon::current_num_threads;
use rayon::prelude::*;
use std::alloc::Global;
use std::marker::Sync;
use std::thread::Threads;

/// The most neighbours that all nodes have together.
const MOST_ARCS: usize = 4_294_967_295;

/// A list of edges that is packed.
#[derive(Drop)]
pub struct Packed {
    /// The network.
    pub network: LargeNetwork,
    /// How many edges the list has.
    pub lines: u64,
    /// How many of them are self-loops that were left out.
    pub dropped_loops: u64,
    /// How many were merged into another.
    pub merged: u64,
}

/// The network that edges make, where their arcs are not too many.
fn network_of_edges(
    alloc: Global,
    nodes: u32,
    edges: Vec<Ranked>,
    is_directed: bool,
) -> Result<LargeNetwork, PackFault>
    requires some { 1 ≤ nodes }
    requires within { RankedWithin nodes edges.items }
    ensures network { MatchResult result (λ network. HasArcs nodes (flat_map (ranked_arcs is_directed) edges.items) network) (λ fault. fault ≢ Memory → fault ≡ TooManyEdges) }
    ensures few { MatchResult result (λ _. length (flat_map (ranked_arcs is_directed) edges.items) ≤ most_rows) (λ fault. fault ≢ Memory → most_rows < length (flat_map (ranked_arcs is_directed) edges.items)) }
{
    let arcs = arcs(alloc, edges, is_directed)?;
    if arcs.len() > MOST_ARCS {
        return Err(PackFault::TooManyEdges);
    }
    let network = network_of_arcs(alloc, nodes, arcs)?;
    Ok(network)
}

/// What edges are packed into, as they are compared by these options, whose lines rise and whose ends are nodes.
///
/// `ParallelEdge` and `TooManyEdges` come as in [`pack_edges`]; `Memory` comes only where memory runs out. No other fault
/// comes.
pub fn pack_ranked(
    alloc: Global,
    nodes: u32,
    edges: Vec<Ranked>,
    options: &PackOptions,
) -> Result<Packed, PackFault>
    requires some { 1 ≤ nodes }
    requires within { RankedWithin nodes edges.items }
    requires rising { LinesRise edges.items }
    requires tied { refuses options.now.parallel ≡ true → AreTied edges.items }
    ensures answer { (es : List EdgeLine) → edges.items ≡ map (ranked options.now) es → nodes ≡ node_count options.now.nodes es → IsAnswer (packing_in options.now es) result }
{
    let mut edges = edges;
    let lines = edges.len() as u64;
    straighten(&mut edges, options.self_loops);
    let straight = edges.len() as u64;
    settle(alloc, &mut edges, options.parallel)?;
    let kept = edges.len() as u64;
    let network = network_of_edges(alloc, nodes, edges, options.is_directed)?;
    Ok(Packed {
        network,
        lines,
        dropped_loops: lines - straight,
        merged: straight - kept,
    })
}

/// Whether some arcs lead alike that do not all stay.
fn is_unsettled(parallel: Parallel, keys: &[u64]) -> bool
    ensures { result ≡ ((merges parallel || refuses parallel) && repeats keys.now) }
{
    match parallel {
        Parallel::Keep => false,
        Parallel::Refuse | Parallel::Least | Parallel::Greatest | Parallel::First => {
            has_repeat(keys)
        }
    }
}

/// Sorts the numbers by threads.
fn sort_keys(rt: &(impl Threads + Sync), keys: &mut Vec<u64>)
    ensures permutation { IsPermutation keys.old.items keys.new.items }
    ensures rising { IsNonDecreasing keys.new.items }
{
    par_sort_unstable(rt, keys.as_mut_slice());
}

/// What edges are packed into whose arcs stand as single numbers: none where they do not, or where some of them lead alike
/// and do not all stay.
fn pack_keyed(
    rt: &(impl Threads + Sync),
    alloc: Global,
    nodes: u32,
    keyed: Option<KeyedEdges>,
    options: &PackOptions,
) -> Result<Option<Packed>, PackFault>
    requires some { 1 ≤ nodes }
    requires within { IfSome keyed (λ k. AllWithin nodes (arcs_in (usual_weight options.now.factor) k.keys.items)) }
    ensures answer { (es : List EdgeLine) → IfSome keyed (λ k. AreKeyed options.now es k) → nodes ≡ node_count options.now.nodes es → MatchResult result (λ found. IfSome found (λ packed. IsAnswer (packing_in options.now es) (Ok packed))) (λ fault. IsAnswer (packing_in options.now es) (Err fault)) }
{
    let Some(keyed) = keyed else {
        return Ok(None);
    };
    let mut keys = keyed.keys;
    sort_keys(rt, &mut keys);
    if is_unsettled(options.parallel, keys.as_slice()) {
        return Ok(None);
    }
    if keys.len() > MOST_ARCS {
        return Err(PackFault::TooManyEdges);
    }
    let weight = options.factor.unwrap_or(1);
    let network = network_of_keys(alloc, nodes, keys.as_slice(), weight)?;
    Ok(Some(Packed {
        network,
        lines: keyed.lines,
        dropped_loops: keyed.dropped_loops,
        merged: 0,
    }))
}

/// What the edges of a text are packed into which are sound, and of so many nodes.
fn pack_anew(
    alloc: Global,
    nodes: u32,
    text: &[u8],
    options: &PackOptions,
) -> Result<Packed, PackFault>
    requires counted { Ok nodes ≡ and_then (sound_of options.now text.now) (λ es. Ok (node_count options.now.nodes es)) }
    ensures answer { IsAnswer (packing_of options.now text.now) result }
{
    let edges = ranked_edges(alloc, edge_lines(text, options.header), options)?;
    let packed = pack_ranked(alloc, nodes, edges, options)?;
    Ok(packed)
}

/// The network that a list of edges between numbered nodes makes.
///
/// A line says an edge as `line_edge` says: `a b` or `a b weight`. Lines without words, or whose first word begins with
/// `#` or `%`, are passed over, and so is the first other one where it is a header. An edge makes b a neighbour of a, and
/// where edges have no direction also a one of b. How many nodes there are, and what is done with self-loops and with
/// edges that join the same two nodes, is as the options say.
///
/// Where several things are wrong the fault is the first in the order of [`PackFault`]. `BadLine`, `NoNode`,
/// `NodeOutside` and `SelfLoop` come whether memory runs out or not; `Memory` comes only where it does.
pub fn pack_edges(
    rt: &(impl Threads + Sync),
    alloc: Global,
    text: &[u8],
    options: &PackOptions,
) -> Result<Packed, PackFault>
    ensures answer { IsAnswer (packing_of options.now text.now) result }
    ensures refused { IfErr (sound_of options.now text.now) (λ fault. result ≡ Err fault) }
{
    let lines = edge_lines(text, options.header);
    let reading = read_shared(rt, alloc, current_num_threads(rt), lines, options)?;
    let nodes = count_nodes(&reading.survey, options)?;
    if let Some(packed) = pack_keyed(rt, alloc, nodes, reading.keyed, options)? {
        return Ok(packed);
    }
    pack_anew(alloc, nodes, text, options)
}
