//! Links packed into networks of any size.
ghost use Rattle.std.specs.Prelude.{◌≡◌, ◌≢◌, ◌+◌, map, slice_get, Some, Ok, Err, IfOk, IfErr};
ghost use Rattle.large_pack.specs.Lines.{and_then};
ghost use Rattle.large_pack.specs.Packing.{IsAnswer};
ghost use Rattle.large_pack.specs.Ranks.{ranked};
ghost use Rattle.large_pack.specs.Sound.{first_fault, loop_fault, node_count, outside_fault, sound_in};
ghost use Rattle.import_network.specs.declared.fault.ImportFault.TheVariants.{Memory};
ghost use Rattle.import_network.specs.Drafts.{IsPacked, packing_of};
ghost use Rattle.import_network.specs.LinkPacking.{edge_at, edges_from, line_at, pack_fault, packing_in};

use crate::fault::ImportFault;
use crate::imported::{Imported, count_rounded};
use crate::packed_names::named_options;
use import_links::{PlacedLink, SettleFault};
use large_net::large_bytes;
use large_pack::{
    EdgeLine, PackFault, PackOptions, Packed, Ranked, loop_fault, outside_fault, pack_ranked,
    rank_edge,
};
use std::alloc::{AllocError, Global};

/// The edge of the link at a place, which stands for its line; turned round where that is asked.
fn edge_at(reverse: bool, place: usize, link: &PlacedLink) -> EdgeLine
    ensures { result ≡ edge_at reverse place link.now }
{
    let (from, to, weight) = link.link;
    let (first, second) = if reverse { (to, from) } else { (from, to) };
    EdgeLine {
        first,
        second,
        weight,
        line: place as u64,
    }
}

/// The fault of the first link with an end that is not below the number of nodes, where that is given.
fn first_outside(options: &PackOptions, links: &[PlacedLink]) -> Option<PackFault>
    ensures { result ≡ first_fault (outside_fault options.now.nodes) (edges_from options.now.reverse 0 links.now) }
{
    for (place, link) in links.iter().enumerate() {
        let edge = edge_at(options.reverse, place, link);
        if let Some(fault) = outside_fault(options.nodes, &edge) {
            return Some(fault);
        }
    }
    None
}

/// The fault of the first link of a node with itself, where these are refused.
fn first_loop(options: &PackOptions, links: &[PlacedLink]) -> Option<PackFault>
    ensures { result ≡ first_fault (loop_fault options.now.self_loops) (edges_from options.now.reverse 0 links.now) }
{
    for (place, link) in links.iter().enumerate() {
        let edge = edge_at(options.reverse, place, link);
        if let Some(fault) = loop_fault(options.self_loops, &edge) {
            return Some(fault);
        }
    }
    None
}

/// The number of nodes, where links between so many can be packed.
fn count_nodes(nodes: u32, links: &[PlacedLink], options: &PackOptions) -> Result<u32, PackFault>
    requires nodes { options.now.nodes ≡ Some nodes }
    ensures { result ≡ and_then (sound_in options.now (edges_from options.now.reverse 0 links.now)) (λ es. Ok (node_count options.now.nodes es)) }
{
    if nodes == 0 {
        return Err(PackFault::NoNode);
    }
    if let Some(fault) = first_outside(options, links) {
        return Err(fault);
    }
    if let Some(fault) = first_loop(options, links) {
        return Err(fault);
    }
    Ok(nodes)
}

/// The edges of links, as they are compared.
fn ranked_links(
    alloc: Global,
    links: &[PlacedLink],
    options: &PackOptions,
) -> Result<Vec<Ranked>, AllocError>
    ensures { IfOk result (λ v. v.items ≡ map (ranked options.now) (edges_from options.now.reverse 0 links.now)) }
{
    let mut edges = Vec::with_capacity(alloc, links.len())?;
    for (place, link) in links.iter().enumerate() {
        let edge = edge_at(options.reverse, place, link);
        edges.push(rank_edge(&edge, options))?;
    }
    Ok(edges)
}

/// What links between so many nodes are packed into; a fault has places for lines.
fn packed_links(
    alloc: Global,
    nodes: u32,
    links: &[PlacedLink],
    options: &PackOptions,
) -> Result<Packed, PackFault>
    ensures answer { IsAnswer (packing_in nodes options.now links.now) result }
{
    let options = named_options(options, nodes);
    let count = count_nodes(nodes, links, &options)?;
    let edges = ranked_links(alloc, links, &options)?;
    let packed = pack_ranked(alloc, count, edges, &options)?;
    Ok(packed)
}

/// The line of the link at a place.
fn line_at(links: &[PlacedLink], place: u64) -> u64
    ensures { result ≡ line_at links.now place }
{
    match links.get(place as usize) {
        Some(link) => link.line,
        None => 0,
    }
}

/// A fault that has places for lines as one that has the lines of the links there.
fn told_fault(links: &[PlacedLink], fault: PackFault) -> ImportFault
    ensures { result ≡ pack_fault links.now fault }
{
    match fault {
        PackFault::SelfLoop { line } => ImportFault::Settle(SettleFault::SelfLoop {
            line: line_at(links, line),
        }),
        PackFault::ParallelEdge { line, earlier } => ImportFault::Settle(
            SettleFault::ParallelEdge {
                line: line_at(links, line),
                first: line_at(links, earlier),
            },
        ),
        PackFault::NodeOutside { line, node } => ImportFault::Packing(PackFault::NodeOutside {
            line: line_at(links, line),
            node,
        }),
        PackFault::Memory => ImportFault::Memory,
        fault => ImportFault::Packing(fault),
    }
}

/// The packed network that links between so many nodes make, beside a file of names.
pub(crate) fn packed_network(
    alloc: Global,
    nodes: u32,
    links: &[PlacedLink],
    options: &PackOptions,
    names: Vec<u8>,
) -> Result<Imported, ImportFault>
    ensures made { IfOk result (IsPacked options.now (record { nodes = nodes; links = links.now })) }
    ensures names { IfOk result (λ imported. imported.names ≡ names) }
    ensures fault { IfErr result (λ fault. fault ≢ Memory → packing_of options.now (record { nodes = nodes; links = links.now }) ≡ Err fault) }
{
    match packed_links(alloc, nodes, links, options) {
        Ok(packed) => {
            let network = large_bytes(alloc, &packed.network)?;
            Ok(Imported {
                network,
                names,
                dropped: packed.dropped_loops,
                merged: packed.merged,
                rounded: count_rounded(links),
            })
        }
        Err(fault) => Err(told_fault(links, fault)),
    }
}
