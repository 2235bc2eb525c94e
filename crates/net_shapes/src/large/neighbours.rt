//! The neighbours of a node of any shape.
ghost use Rattle.std.specs.Prelude.{◌≡◌, ◌<◌, ◌++◌, None, OnOk};
ghost use Rattle.net_shapes.specs.LargeShapes.{shape_neighbours};
ghost use Rattle.net_shapes.specs.LargeSizes.{refusal_of};
ghost use Rattle.net_shapes.specs.Shapes.{node_count};

use crate::Shape;
use crate::large::frame::Frame;
use crate::large::listed::put_listed;
use std::alloc::AllocError;

/// Puts the neighbours of a node, by rising number.
pub(crate) fn put_neighbours(
    neighbours: &mut Vec<u32>,
    shape: &Shape,
    node: u32,
) -> Result<(), AllocError>
    requires fits { refusal_of shape.now ≡ None }
    requires low { node < node_count shape.now }
    ensures { OnOk result (neighbours.new.items ≡ neighbours.old.items ++ shape_neighbours shape.now node) }
{
    match Frame::of(shape) {
        Some(frame) => frame.put_neighbours(neighbours, node),
        None => put_listed(neighbours, shape, node),
    }
}
