//! Networks: which nodes are linked, and the weights of the links.
ghost use Rattle.std.specs.Prelude.{◌≡◌, ◌↔◌, ◌+◌, ◌-◌, ◌*◌, ◌<◌, ◌≤◌, ℕ, length, map, slice_get, slice_index, nat_lt, option_map, IfSome, IsTrue, Some, None, if◌then◌else◌};
ghost use Rattle.std.specs.List.{sum_by};
ghost use Rattle.std.specs.List.Sorted.{IsStrictlyIncreasing};
ghost use Rattle.link_net.specs.Neighbours.{IsNetwork, degree, neighbour, neighbour_at, row, slot_at, weight_at};
ghost use Rattle.link_net.specs.Layout.{part, rows_of, AreOffsets, IsLaidOut};

use crate::lent::NetRows;
use std::marker::Model;

/// A network: undirected links between nodes that are numbered from 0, each link with a weight.
/// The neighbours of a node stand by rising number, in slots that are numbered from 0.
#[derive(Drop)]
pub struct Network {
    /// Where each node's part of the two lists below begins, and last where they end.
    offsets: Vec<usize>,
    /// The neighbours of all nodes, node by node.
    neighbours: Vec<u32>,
    /// The weights of the links to these neighbours.
    weights: Vec<u32>,
}

impl Model for Network {
    ghost use Rattle.link_net.specs.Neighbours.{Neighbours};

    ghost Value = { Neighbours };

    ghost use Rattle.link_net.specs.Layout.{rows_of, IsLaidOut};

    ghost view = { λ a. rows_of a.offsets.items a.neighbours.items a.weights.items };

    ghost invariant = { λ a. IsLaidOut a.offsets.items a.neighbours.items a.weights.items };
}

/// The part of the items that belongs to a node.
pub(crate) fn part_of<'a>(offsets: &[usize], items: &'a [u32], node: u32) -> Option<&'a [u32]>
    requires { AreOffsets offsets.now (length items.now) }
    ensures { option_map (λ s. s.now) result ≡ (if nat_lt node (length offsets.now - 1) then Some (part offsets.now items.now node) else None) }
{
    let node = node as usize;
    if node >= offsets.len() - 1 {
        return None;
    }
    let part = &items[offsets[node]..offsets[node + 1]];
    Some(part)
}

impl Network {
    /// The network whose rows are laid out in these lists: row u goes from offset u up to the next one.
    pub(crate) fn new(offsets: Vec<usize>, neighbours: Vec<u32>, weights: Vec<u32>) -> Network
        requires { IsLaidOut offsets.items neighbours.items weights.items }
        ensures { result ≡ rows_of offsets.items neighbours.items weights.items }
    {
        Network {
            offsets,
            neighbours,
            weights,
        }
    }

    /// The rows of the network, lent.
    pub fn rows(&self) -> NetRows<'_>
        ensures { result ≡ self.now }
    {
        NetRows::new(
            self.offsets.as_slice(),
            self.neighbours.as_slice(),
            self.weights.as_slice(),
        )
    }

    /// How many nodes there are, from 1 to 65,536.
    pub fn nodes(&self) -> u32
        ensures count { result ≡ length self.now }
        ensures whole { IsNetwork self.now }
    {
        (self.offsets.len() - 1) as u32
    }

    /// How many links there are, at most 262,144.
    pub fn links(&self) -> u32
        ensures count { 2 * result ≡ sum_by length self.now }
        ensures bound { result ≤ 262144 }
    {
        (self.neighbours.len() / 2) as u32
    }

    /// The neighbours of a node by rising number, or `None` where there is no such node.
    pub fn neighbours(&self, node: u32) -> Option<&[u32]>
        ensures value { option_map (λ s. s.now) result ≡ option_map (λ row. map (λ a. a.0) row) (slice_get self.now node) }
        ensures bound { IfSome result (λ s. length s.now ≤ 4096) }
        ensures rising { IfSome result (λ s. IsStrictlyIncreasing s.now) }
    {
        part_of(self.offsets.as_slice(), self.neighbours.as_slice(), node)
    }

    /// The weights of the links to the neighbours of a node, slot by slot, or `None` where there is no such node.
    pub fn weights(&self, node: u32) -> Option<&[u32]>
        ensures value { option_map (λ s. s.now) result ≡ option_map (λ row. map (λ a. a.1) row) (slice_get self.now node) }
        ensures bound { IfSome result (λ s. length s.now ≤ 4096) }
    {
        part_of(self.offsets.as_slice(), self.weights.as_slice(), node)
    }

    /// How many neighbours a node has, or `None` where there is no such node.
    pub fn degree(&self, node: u32) -> Option<u32>
        ensures value { result ≡ option_map length (slice_get self.now node) }
    {
        let neighbours = self.neighbours(node)?;
        Some(neighbours.len() as u32)
    }

    /// The neighbour at a slot of a node, or `None` where there is no such node or slot.
    pub fn neighbour(&self, node: u32, slot: u32) -> Option<u32>
        ensures value { result ≡ neighbour_at self.now node slot }
    {
        let neighbours = self.neighbours(node)?;
        neighbours.get(slot as usize).copied()
    }

    /// The weight of the link to the neighbour at a slot of a node, or `None` where there is no such node or slot.
    pub fn weight(&self, node: u32, slot: u32) -> Option<u32>
        ensures value { result ≡ weight_at self.now node slot }
    {
        let weights = self.weights(node)?;
        weights.get(slot as usize).copied()
    }

    /// The neighbours of a node by rising number; none where there is no such node.
    pub fn neighbours_of(&self, node: u32) -> &[u32]
        ensures exact { result.now ≡ map (λ a. a.0) (row self.now node) }
        ensures few { length result.now ≤ 4096 }
    {
        match self.neighbours(node) {
            Some(neighbours) => neighbours,
            None => &[],
        }
    }

    /// The weights of the links to the neighbours of a node, slot by slot; none where there is no such node.
    pub fn weights_of(&self, node: u32) -> &[u32]
        ensures exact { result.now ≡ map (λ a. a.1) (row self.now node) }
    {
        match self.weights(node) {
            Some(weights) => weights,
            None => &[],
        }
    }

    /// How many neighbours a node has, and 0 where there is no such node.
    pub fn degree_of(&self, node: u32) -> u32
        ensures exact { result ≡ degree self.now node }
    {
        self.degree(node).unwrap_or(0)
    }

    /// The neighbour at a slot of a node, and 0 where there is no such node or slot.
    pub fn neighbour_of(&self, node: u32, slot: u32) -> u32
        ensures exact { result ≡ neighbour self.now node slot }
    {
        self.neighbour(node, slot).unwrap_or(0)
    }

    /// The slot of a node at which a neighbour stands, or `None` where it is no neighbour of the node.
    pub fn slot_of(&self, node: u32, neighbour: u32) -> Option<u32>
        ensures exact { (j : ℕ) → (result ≡ Some j) ↔ (neighbour_at self.now node j ≡ Some neighbour) }
    {
        // For the proof: what holds of every network.
        let _nodes = self.nodes();
        self.rows().slot_of(node, neighbour)
    }

    /// Whether the two are the same network: the same nodes, links and weights.
    pub fn same(&self, other: &Network) -> bool
        ensures exact { IsTrue result ↔ (self.now ≡ other.now) }
    {
        self.rows().same(&other.rows())
    }
}
