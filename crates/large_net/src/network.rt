//! Networks of any size: rows of neighbours.
ghost use Rattle.std.specs.Prelude.{◌≡◌, ◌≤◌, length, IfOk};
ghost use Rattle.std.specs.List.{sum_by};
ghost use Rattle.link_net.specs.Layout.{rows_of};
ghost use Rattle.large_net.specs.Large.{IsLargeNetwork};

use crate::laid_rows::LaidRows;
use link_net::{NetRows, Network};
use std::alloc::{AllocError, Global};
use std::marker::Model;

/// A network of any size that memory holds: 1 to 4,294,967,295 nodes, numbered from 0, and for each node its neighbours in
/// the order of their slots, each with the weight of the link. Links may lead one way, join a node with itself, and stand
/// several times. A contract sees the rows.
#[derive(Drop)]
pub struct LargeNetwork {
    /// Where each node's part of the two lists below begins, and last where they end.
    offsets: Vec<usize>,
    /// The neighbours of all nodes, node by node.
    neighbours: Vec<u32>,
    /// The weights of the links to these neighbours.
    weights: Vec<u32>,
}

impl Model for LargeNetwork {
    ghost use Rattle.link_net.specs.Neighbours.{Neighbours};
    ghost use Rattle.link_net.specs.Layout.{rows_of};
    ghost use Rattle.large_net.specs.Large.{AreLaidOut};

    ghost Value = { Neighbours };

    ghost view = { λ a. rows_of a.offsets.items a.neighbours.items a.weights.items };

    ghost invariant = { λ a. AreLaidOut a.offsets.items a.neighbours.items a.weights.items };
}

/// The three lists of a network, lent.
#[derive(Clone, Copy)]
pub(crate) struct RowLists<'a> {
    pub(crate) offsets: &'a [usize],
    pub(crate) neighbours: &'a [u32],
    pub(crate) weights: &'a [u32],
}

impl LargeNetwork {
    ghost use Rattle.large_net.specs.Large.{AreLaidOut};

    /// The network whose rows are laid out in these lists: row u goes from offset u up to the next one.
    pub fn new(offsets: Vec<usize>, neighbours: Vec<u32>, weights: Vec<u32>) -> LargeNetwork
        requires laid_out { AreLaidOut offsets.items neighbours.items weights.items }
        ensures rows { result ≡ rows_of offsets.items neighbours.items weights.items }
    {
        LargeNetwork {
            offsets,
            neighbours,
            weights,
        }
    }

    /// A copy of rows that stand elsewhere.
    pub fn copied(alloc: Global, rows: &NetRows<'_>) -> Result<LargeNetwork, AllocError>
        requires some { 1 ≤ length rows.now }
        ensures rows { IfOk result (λ large. large ≡ rows.now) }
    {
        let room = LaidRows::with_capacity(alloc, rows.nodes(), 0)?;
        let laid = room.with_rows(rows)?;
        Ok(laid.into_network())
    }

    /// A copy of a network as a file describes it.
    pub fn of_network(alloc: Global, network: &Network) -> Result<LargeNetwork, AllocError>
        ensures rows { IfOk result (λ large. large ≡ network.now) }
    {
        let ends = 2 * network.links() as usize;
        let room = LaidRows::with_capacity(alloc, network.nodes(), ends)?;
        let laid = room.with_rows(&network.rows())?;
        Ok(laid.into_network())
    }

    /// The rows, lent.
    pub fn rows(&self) -> NetRows<'_>
        ensures rows { result ≡ self.now }
        ensures whole { IsLargeNetwork self.now }
    {
        NetRows::new(
            self.offsets.as_slice(),
            self.neighbours.as_slice(),
            self.weights.as_slice(),
        )
    }

    /// The lists that hold the rows, lent.
    pub(crate) fn lists(&self) -> RowLists<'_>
        ensures laid_out { AreLaidOut result.offsets.now result.neighbours.now result.weights.now }
        ensures rows { rows_of result.offsets.now result.neighbours.now result.weights.now ≡ self.now }
    {
        RowLists {
            offsets: self.offsets.as_slice(),
            neighbours: self.neighbours.as_slice(),
            weights: self.weights.as_slice(),
        }
    }

    /// How many nodes there are, from 1 to 4,294,967,295.
    pub fn nodes(&self) -> u32
        ensures count { result ≡ length self.now }
        ensures whole { IsLargeNetwork self.now }
    {
        (self.offsets.len() - 1) as u32
    }

    /// How many neighbours the nodes have together.
    pub fn ends(&self) -> usize
        ensures count { result ≡ sum_by length self.now }
    {
        self.neighbours.len()
    }
}
