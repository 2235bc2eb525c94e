//! The layout of a network for rounds.
ghost use Rattle.std.specs.Prelude.{◌≡◌, ◌<◌, ◌≤◌, ◌++◌, All, IfOk, OnOk, length};
ghost use Rattle.rounds_blocks.specs.Batches.{AreFalling, IsBatch, IsLayout, nodes_of};

use crate::batch::{Batch, batch_of};
use crate::near::{Near, nears_of};
use crate::order::by_falling_degree;
use link_net::NetRows;
use std::alloc::{AllocError, Global};
use std::marker::Model;

/// How many nodes a batch has at most.
const BATCH: usize = 256;

/// The nodes of a network of so many nodes at most stand by falling number of their neighbours, all of them together.
const TOGETHER: u32 = 65_536;

/// How many nodes that follow one another stand by falling number of their neighbours, for themselves, in a greater network:
/// so many that the nodes of a batch have about equally many, and so few that what a batch reads and writes of its nodes lies
/// near, and that of near nodes too.
const WINDOW: u32 = 4_096;

/// The nodes of a network in batches, with all that a round reads of the network. A contract sees the network.
#[derive(Drop)]
pub struct Layout<'a> {
    pub(crate) network: NetRows<'a>,
    pub(crate) batches: Vec<Batch>,
    /// For each batch those in which its nodes and their neighbours stand.
    pub(crate) nears: Vec<Near>,
}

impl<'a> Model for Layout<'a> {
    ghost use Rattle.link_net.specs.Neighbours.{Neighbours};
    ghost use Rattle.rounds_blocks.specs.Batches.{IsLayout};
    ghost use Rattle.rounds_blocks.specs.Nears.{HaveNear};

    ghost Value = { Neighbours };

    ghost view = { λ layout. layout.network };

    ghost invariant = { λ layout. IsLayout layout.network layout.batches.items × HaveNear layout.network layout.batches.items layout.nears.items };
}

/// How many of these nodes, from the first one on, stand in one batch: as many as it may have, with so many neighbours together at most, or
/// the first one alone.
fn next_batch(network: &NetRows<'_>, nodes: &[u32], most_ends: u32) -> usize
    requires some { 0 < length nodes.now }
    ensures some { 0 < result }
    ensures few { result ≤ 256 }
    ensures inside { result ≤ length nodes.now }
{
    let most = nodes.len().min(BATCH);
    let mut ends = network.degree_of(nodes[0]);
    for at in 1..most {
        ends = ends.saturating_add(network.degree_of(nodes[at]));
        if ends > most_ends {
            return at;
        }
    }
    most
}

/// Puts these nodes after the others, in batches whose nodes have so many neighbours together at most.
fn put_batches(
    batches: &mut Vec<Batch>,
    alloc: Global,
    network: &NetRows<'_>,
    nodes: &[u32],
    most_ends: u32,
) -> Result<(), AllocError>
    requires within { All (λ u. u < length network.now) nodes.now }
    requires falling { AreFalling network.now nodes.now }
    requires each { All (IsBatch network.now) batches.old.items }
    ensures each { OnOk result (All (IsBatch network.now) batches.new.items) }
    ensures nodes { OnOk result (nodes_of batches.new.items ≡ nodes_of batches.old.items ++ nodes.now) }
{
    let mut rest = nodes;
    while !rest.is_empty() {
        let (front, back) = rest.split_at(next_batch(network, rest, most_ends));
        batches.push(batch_of(alloc, network, front)?)?;
        rest = back;
    }
    Ok(())
}

/// The end of the nodes that stand by falling number of their neighbours together, from the first one on.
fn window_end(nodes: u32, first: u32) -> u32
    requires there { first < nodes }
    ensures some { first < result }
    ensures inside { result ≤ nodes }
{
    let window = if nodes <= TOGETHER { TOGETHER } else { WINDOW };
    first.saturating_add(window).min(nodes)
}

/// All nodes in batches, whose nodes have so many neighbours together at most.
fn all_batches(
    alloc: Global,
    network: &NetRows<'_>,
    most_ends: u32,
) -> Result<Vec<Batch>, AllocError>
    ensures layout { IfOk result (λ batches. IsLayout network.now batches.items) }
{
    let nodes = network.nodes();
    let mut batches = Vec::new(alloc);
    let mut first = 0;
    while first < nodes {
        let end = window_end(nodes, first);
        let window = by_falling_degree(alloc, network, first, end)?;
        put_batches(&mut batches, alloc, network, &window, most_ends)?;
        first = end;
    }
    Ok(batches)
}

impl<'a> Layout<'a> {
    /// The layout of a network, in batches whose nodes have so many neighbours together at most, but for nodes that stand alone. How many
    /// they are changes no state.
    pub fn new(
        alloc: Global,
        network: NetRows<'a>,
        most_ends: u32,
    ) -> Result<Layout<'a>, AllocError>
        ensures network { IfOk result (λ layout. layout ≡ network.entry) }
    {
        let batches = all_batches(alloc, &network, most_ends)?;
        let nears = nears_of(alloc, &network, &batches)?;
        Ok(Layout {
            network,
            batches,
            nears,
        })
    }
}
