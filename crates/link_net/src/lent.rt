//! The rows of a network, lent.
ghost use Rattle.std.specs.Prelude.{◌≡◌, ◌↔◌, ◌<◌, ◌≤◌, ℕ, length, map, zip, slice_get, option_map, IfSome, IsTrue, Some};
ghost use Rattle.link_net.specs.Neighbours.{AreRows, degree, neighbour, neighbour_at, row, weight, weight_at};
ghost use Rattle.link_net.specs.Layout.{rows_of, HoldRows};

use crate::network::part_of;
use std::marker::Model;

/// What rounds read of a network that stands elsewhere: for each node its neighbours, and the weights of the links to them.
#[derive(Drop)]
pub struct NetRows<'a> {
    /// Where each node's part of the two lists below begins, and last where they end.
    offsets: &'a [usize],
    /// The neighbours of all nodes, node by node.
    neighbours: &'a [u32],
    /// The weights of the links to these neighbours.
    weights: &'a [u32],
}

impl<'a> Model for NetRows<'a> {
    ghost use Rattle.link_net.specs.Neighbours.{Neighbours};

    ghost Value = { Neighbours };

    ghost use Rattle.link_net.specs.Layout.{rows_of, HoldRows};

    ghost view = { λ a. rows_of a.offsets.now a.neighbours.now a.weights.now };

    ghost invariant = { λ a. HoldRows a.offsets.now a.neighbours.now a.weights.now };
}

impl<'a> NetRows<'a> {
    /// The rows that are laid out in these lists: row u goes from offset u up to the next one. There may be more nodes
    /// and more links than a network file has, several links between two nodes, and links that lead one way.
    pub fn new(offsets: &'a [usize], neighbours: &'a [u32], weights: &'a [u32]) -> NetRows<'a>
        requires laid_out { HoldRows offsets.now neighbours.now weights.now }
        ensures rows { result ≡ rows_of offsets.now neighbours.now weights.now }
    {
        NetRows {
            offsets,
            neighbours,
            weights,
        }
    }

    /// The same rows, lent once more.
    pub fn lent(&self) -> NetRows<'a>
        ensures rows { result ≡ self.now }
    {
        NetRows {
            offsets: self.offsets,
            neighbours: self.neighbours,
            weights: self.weights,
        }
    }

    /// How many nodes there are.
    pub fn nodes(&self) -> u32
        ensures count { result ≡ length self.now }
        ensures whole { AreRows self.now }
    {
        (self.offsets.len() - 1) as u32
    }

    /// The neighbours of a node, or `None` where there is no such node.
    pub fn neighbours(&self, node: u32) -> Option<&[u32]>
        ensures value { option_map (λ s. s.now) result ≡ option_map (λ row. map (λ a. a.0) row) (slice_get self.now node) }
        ensures bound { IfSome result (λ s. length s.now ≤ 4294967295) }
    {
        part_of(self.offsets, self.neighbours, node)
    }

    /// The weights of the links to the neighbours of a node, or `None` where there is no such node.
    pub fn weights(&self, node: u32) -> Option<&[u32]>
        ensures value { option_map (λ s. s.now) result ≡ option_map (λ row. map (λ a. a.1) row) (slice_get self.now node) }
    {
        part_of(self.offsets, self.weights, node)
    }

    /// How many neighbours a node has, or `None` where there is no such node.
    pub fn degree(&self, node: u32) -> Option<u32>
        ensures value { result ≡ option_map length (slice_get self.now node) }
    {
        let neighbours = self.neighbours(node)?;
        Some(neighbours.len() as u32)
    }

    /// The neighbour at a slot of a node, or `None` where there is no such node or slot.
    pub fn neighbour(&self, node: u32, slot: u32) -> Option<u32>
        ensures value { result ≡ neighbour_at self.now node slot }
    {
        let neighbours = self.neighbours(node)?;
        neighbours.get(slot as usize).copied()
    }

    /// The weight of the link to the neighbour at a slot of a node, or `None` where there is no such node or slot.
    pub fn weight(&self, node: u32, slot: u32) -> Option<u32>
        ensures value { result ≡ weight_at self.now node slot }
    {
        let weights = self.weights(node)?;
        weights.get(slot as usize).copied()
    }

    /// The neighbours of a node; none where there is no such node.
    pub fn neighbours_of(&self, node: u32) -> &[u32]
        ensures exact { result.now ≡ map (λ a. a.0) (row self.now node) }
    {
        match self.neighbours(node) {
            Some(neighbours) => neighbours,
            None => &[],
        }
    }

    /// The weights of the links to the neighbours of a node; none where there is no such node.
    pub fn weights_of(&self, node: u32) -> &[u32]
        ensures exact { result.now ≡ map (λ a. a.1) (row self.now node) }
    {
        match self.weights(node) {
            Some(weights) => weights,
            None => &[],
        }
    }

    /// The neighbours of a node and the weights of the links to them, slot by slot; none where there is no such node.
    pub fn row_of(&self, node: u32) -> (&[u32], &[u32])
        ensures neighbours { result.0.now ≡ map (λ a. a.0) (row self.now node) }
        ensures weights { result.1.now ≡ map (λ a. a.1) (row self.now node) }
        ensures paired { length result.1.now ≡ length result.0.now }
        ensures slots { zip result.0.now result.1.now ≡ row self.now node }
    {
        (self.neighbours_of(node), self.weights_of(node))
    }

    /// How many neighbours a node has, and 0 where there is no such node.
    pub fn degree_of(&self, node: u32) -> u32
        ensures exact { result ≡ degree self.now node }
        ensures few { result ≤ 4294967295 }
    {
        // For the proof: what holds of all rows.
        let _nodes = self.nodes();
        self.degree(node).unwrap_or(0)
    }

    /// The neighbour at a slot of a node, and 0 where there is no such node or slot.
    pub fn neighbour_of(&self, node: u32, slot: u32) -> u32
        ensures exact { result ≡ neighbour self.now node slot }
    {
        self.neighbour(node, slot).unwrap_or(0)
    }

    /// The weight of the link to the neighbour at a slot of a node, and 0 where there is no such node or slot.
    pub fn weight_of(&self, node: u32, slot: u32) -> u32
        ensures exact { result ≡ weight self.now node slot }
    {
        self.weight(node, slot).unwrap_or(0)
    }

    /// The slot of a node at which another one stands, or `None` where it is no neighbour of the node, whose neighbours
    /// stand by rising number.
    pub fn slot_of(&self, node: u32, other: u32) -> Option<u32>
        requires rising { (i j : ℕ) → i < j → j < degree self.now node → neighbour self.now node i < neighbour self.now node j }
        ensures exact { (j : ℕ) → (result ≡ Some j) ↔ (neighbour_at self.now node j ≡ Some other) }
    {
        let neighbours = self.neighbours(node)?;
        let slot = neighbours.binary_search(&other).ok()?;
        Some(slot as u32)
    }

    /// Whether the two are the same rows: as many nodes, and of each the same neighbours with the same weights, in the
    /// same slots.
    pub fn same(&self, other: &NetRows<'_>) -> bool
        ensures exact { IsTrue result ↔ (self.now ≡ other.now) }
    {
        self.offsets == other.offsets
            && self.neighbours == other.neighbours
            && self.weights == other.weights
    }
}
