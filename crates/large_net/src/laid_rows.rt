//! Rows that are laid out one after the other.
ghost use Rattle.std.specs.Prelude.{◌≡◌, ◌∷◌, ◌++◌, ◌<◌, ◌≤◌, [], length, zip, IfOk};
ghost use Rattle.link_net.specs.Neighbours.{AreRows};

use crate::network::LargeNetwork;
use link_net::NetRows;
use std::alloc::{AllocError, Global};
use std::marker::Model;

/// Rows that are laid out one after the other. Seen as the list of these rows.
#[derive(Drop)]
pub(crate) struct LaidRows {
    offsets: Vec<usize>,
    neighbours: Vec<u32>,
    weights: Vec<u32>,
}

impl Model for LaidRows {
    ghost use Rattle.link_net.specs.Neighbours.{Neighbours};
    ghost use Rattle.link_net.specs.Layout.{rows_of};
    ghost use Rattle.large_net.specs.Large.{ArePlaced};

    ghost Value = { Neighbours };

    ghost view = { λ a. rows_of a.offsets.items a.neighbours.items a.weights.items };

    ghost invariant = { λ a. ArePlaced a.offsets.items a.neighbours.items a.weights.items };
}

impl LaidRows {
    /// No rows yet, with room for so many nodes and neighbours.
    pub(crate) fn with_capacity(
        alloc: Global,
        nodes: u32,
        ends: usize,
    ) -> Result<LaidRows, AllocError>
        ensures none { IfOk result (λ laid. laid ≡ []) }
    {
        let mut offsets = Vec::with_capacity(alloc, nodes as usize + 1)?;
        offsets.push(0)?;
        let neighbours = Vec::with_capacity(alloc, ends)?;
        let weights = Vec::with_capacity(alloc, ends)?;
        Ok(LaidRows {
            offsets,
            neighbours,
            weights,
        })
    }

    /// One row more after the others.
    fn with_row(self, row_neighbours: &[u32], row_weights: &[u32]) -> Result<LaidRows, AllocError>
        requires paired { length row_weights.now ≡ length row_neighbours.now }
        ensures more { IfOk result (λ laid. laid ≡ self ++ zip row_neighbours.now row_weights.now ∷ []) }
    {
        let LaidRows {
            mut offsets,
            mut neighbours,
            mut weights,
        } = self;
        neighbours.extend_from_slice(row_neighbours)?;
        weights.extend_from_slice(row_weights)?;
        offsets.push(neighbours.len())?;
        Ok(LaidRows {
            offsets,
            neighbours,
            weights,
        })
    }

    /// These rows after the others.
    pub(crate) fn with_rows(self, rows: &NetRows<'_>) -> Result<LaidRows, AllocError>
        ensures more { IfOk result (λ laid. laid ≡ self ++ rows.now) }
        ensures whole { AreRows rows.now }
    {
        let mut laid = self;
        for node in 0..rows.nodes() {
            let (neighbours, weights) = rows.row_of(node);
            laid = laid.with_row(neighbours, weights)?;
        }
        Ok(laid)
    }

    /// The network whose rows these are.
    pub(crate) fn into_network(self) -> LargeNetwork
        requires some { 1 ≤ length self }
        requires rows { AreRows self }
        ensures same { result ≡ self }
    {
        LargeNetwork::new(self.offsets, self.neighbours, self.weights)
    }
}
