//! The neighbours of a node of a shape that is not one of rows and columns.
ghost use Rattle.std.specs.Prelude.{◌≡◌, ◌<◌, ◌++◌, None, OnOk};
ghost use Rattle.net_shapes.specs.Frames.{frame_of};
ghost use Rattle.net_shapes.specs.LargeSizes.{refusal_of};
ghost use Rattle.net_shapes.specs.Listed.{children, listed};
ghost use Rattle.net_shapes.specs.Shapes.{node_count};

use crate::Shape;
use crate::large::hypercube::put_hypercube;
use crate::large::put::{put_if, put_range};
use std::alloc::AllocError;

/// Puts the children of a node of a tree.
fn put_children(
    neighbours: &mut Vec<u32>,
    nodes: u32,
    arity: u32,
    node: u32,
) -> Result<(), AllocError>
    ensures { OnOk result (neighbours.new.items ≡ neighbours.old.items ++ children nodes arity node) }
{
    let first = node as u64 * arity as u64 + 1;
    if first >= nodes as u64 {
        return Ok(());
    }
    let first = first as u32;
    put_range(neighbours, first, arity.min(nodes - first))
}

/// Puts the neighbours of a node, by rising number.
pub(crate) fn put_listed(
    neighbours: &mut Vec<u32>,
    shape: &Shape,
    node: u32,
) -> Result<(), AllocError>
    requires other { frame_of shape.now ≡ None }
    requires fits { refusal_of shape.now ≡ None }
    requires low { node < node_count shape.now }
    ensures { OnOk result (neighbours.new.items ≡ neighbours.old.items ++ listed shape.now node) }
{
    match *shape {
        Shape::Star { nodes } => {
            if node == 0 {
                return put_range(neighbours, 1, nodes - 1);
            }
            put_range(neighbours, 0, 1)
        }
        Shape::Complete { nodes } => {
            put_range(neighbours, 0, node)?;
            put_range(neighbours, node + 1, nodes - (node + 1))
        }
        Shape::Bipartite { left, right } => {
            if node < left {
                return put_range(neighbours, left, right);
            }
            put_range(neighbours, 0, left)
        }
        Shape::Tree { nodes, arity } => {
            put_if(neighbours, node > 0, node.saturating_sub(1) / arity)?;
            put_children(neighbours, nodes, arity, node)
        }
        Shape::Hypercube { dimension } => put_hypercube(neighbours, dimension, node),
        Shape::Path { .. }
        | Shape::Ring { .. }
        | Shape::Grid { .. }
        | Shape::DiagonalGrid { .. }
        | Shape::Torus { .. } => unreachable!(),
    }
}
