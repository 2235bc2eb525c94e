//! The networks of shapes.
ghost use Rattle.std.specs.Prelude.{◌≡◌, ◌+◌, ◌<◌, None, IfOk, OnOk, IfErr};
ghost use Rattle.net_shapes.specs.LargeShapes.{HasShapeRows, shape_neighbours};
ghost use Rattle.net_shapes.specs.LargeSizes.{refusal_of, refused_by};
ghost use Rattle.net_shapes.specs.Shapes.{node_count};
ghost use Rattle.net_shapes.specs.Tables.{HoldBelow};

use crate::large::neighbours::put_neighbours;
use crate::large::sizes::{large_count, large_refusal, room};
use crate::{LargeShapeFault, Shape};
use large_net::LargeNetwork;
use std::alloc::{AllocError, Global};

/// The neighbours of nodes, node by node, and where each node's begin, and last where they end.
#[derive(Drop)]
struct Table {
    offsets: Vec<usize>,
    neighbours: Vec<u32>,
}

impl Table {
    /// The table of no nodes, with room for those of a shape.
    fn with_room(alloc: Global, shape: &Shape) -> Result<Table, AllocError>
        requires fits { refusal_of shape.now ≡ None }
        ensures none { IfOk result (λ t. HoldBelow (shape_neighbours shape.now) 0 t.offsets.items t.neighbours.items) }
    {
        let nodes = large_count(shape);
        let mut offsets = Vec::with_capacity(alloc, nodes as usize + 1)?;
        offsets.push(0)?;
        let neighbours = Vec::with_capacity(alloc, room(shape, nodes))?;
        Ok(Table {
            offsets,
            neighbours,
        })
    }

    /// Puts the neighbours of the next node.
    fn put_node(&mut self, shape: &Shape, node: u32) -> Result<(), AllocError>
        requires fits { refusal_of shape.now ≡ None }
        requires low { node < node_count shape.now }
        requires before { HoldBelow (shape_neighbours shape.now) node self.old.offsets.items self.old.neighbours.items }
        ensures after { OnOk result (HoldBelow (shape_neighbours shape.now) (node + 1) self.new.offsets.items self.new.neighbours.items) }
    {
        put_neighbours(&mut self.neighbours, shape, node)?;
        self.offsets.push(self.neighbours.len())?;
        Ok(())
    }
}

/// The neighbours of all nodes of a shape.
fn lay_out(alloc: Global, shape: &Shape) -> Result<Table, AllocError>
    requires fits { refusal_of shape.now ≡ None }
    ensures all { IfOk result (λ t. HoldBelow (shape_neighbours shape.now) (node_count shape.now) t.offsets.items t.neighbours.items) }
{
    let mut table = Table::with_room(alloc, shape)?;
    for node in 0..large_count(shape) {
        table.put_node(shape, node)?;
    }
    Ok(table)
}

/// The network of a shape that nothing refuses.
fn shaped(alloc: Global, shape: &Shape) -> Result<LargeNetwork, AllocError>
    requires fits { refusal_of shape.now ≡ None }
    ensures rows { IfOk result (λ network. HasShapeRows shape.now network) }
{
    let table = lay_out(alloc, shape)?;
    let weights = vec![in alloc; 1; table.neighbours.len()]?;
    Ok(LargeNetwork::new(table.offsets, table.neighbours, weights))
}

/// The network of a shape, each link with weight 1, or why it has none: in the row of each node its neighbours by rising
/// number.
///
/// `TooFewNodes` comes where the shape has no node, or is a ring of fewer than three nodes, a torus with a side of fewer
/// than three, a bipartite network with an empty side, or a tree of arity 0; else `TooManyNodes` where it has more than
/// 4,294,967,295 nodes, both before any memory is taken; `Memory` only where neither does.
pub fn large_shape(alloc: Global, shape: &Shape) -> Result<LargeNetwork, LargeShapeFault>
    ensures made { IfOk result (λ network. HasShapeRows shape.now network) }
    ensures fits { IfOk result (λ _. refusal_of shape.now ≡ None) }
    ensures refused { IfErr result (λ fault. refusal_of shape.now ≡ refused_by fault) }
{
    if let Some(fault) = large_refusal(shape) {
        return Err(fault);
    }
    let network = shaped(alloc, shape)?;
    Ok(network)
}
