//! Nodes in rows and columns.
ghost use Rattle.std.specs.Prelude.{◌≡◌, ◌*◌, ◌<◌, ◌≤◌, ◌++◌, OnOk};
ghost use Rattle.net_shapes.specs.Frames.{IsFrame, frame_neighbours, frame_nodes, frame_of};

use crate::Shape;
use crate::large::axis::Axis;
use crate::large::slant::Slant;
use crate::large::spot::Spot;
use std::alloc::AllocError;

/// Nodes in rows and columns, each of them a line or a ring. A node's neighbours are beside it in its row and in its
/// column, and, where that is wanted, beside its corners.
#[derive(Clone, Copy)]
pub(crate) struct Frame {
    /// The places in each row.
    columns: Axis,
    /// The places in each column.
    rows: Axis,
    slant: Slant,
}

impl Frame {
    /// The frame of a shape, where it is one of rows and columns. Paths and rings are one row.
    pub(crate) fn of(shape: &Shape) -> Option<Frame>
        ensures { result ≡ frame_of shape.now }
    {
        match *shape {
            Shape::Path { nodes } => Some(Frame {
                columns: Axis::line(nodes),
                rows: Axis::line(1),
                slant: Slant::Straight,
            }),
            Shape::Ring { nodes } => Some(Frame {
                columns: Axis::ring(nodes),
                rows: Axis::line(1),
                slant: Slant::Straight,
            }),
            Shape::Grid { width, height } => Some(Frame {
                columns: Axis::line(width),
                rows: Axis::line(height),
                slant: Slant::Straight,
            }),
            Shape::DiagonalGrid {
                width,
                height,
                hexagons,
            } => Some(Frame {
                columns: Axis::line(width),
                rows: Axis::line(height),
                slant: if hexagons {
                    Slant::Hexagonal
                } else {
                    Slant::Diagonal
                },
            }),
            Shape::Torus {
                width,
                height,
                diagonals,
            } => Some(Frame {
                columns: Axis::ring(width),
                rows: Axis::ring(height),
                slant: Slant::of(diagonals),
            }),
            Shape::Star { .. }
            | Shape::Complete { .. }
            | Shape::Bipartite { .. }
            | Shape::Tree { .. }
            | Shape::Hypercube { .. } => None,
        }
    }

    /// Puts the neighbours of a node, by rising number.
    pub(crate) fn put_neighbours(
        &self,
        neighbours: &mut Vec<u32>,
        node: u32,
    ) -> Result<(), AllocError>
        requires frame { IsFrame self.now }
        requires low { node < frame_nodes self.now }
        ensures { OnOk result (neighbours.new.items ≡ neighbours.old.items ++ frame_neighbours self.now node) }
    {
        let width = self.columns.places;
        let spot = Spot {
            width,
            column: node % width,
            row: node / width,
            slant: self.slant,
        };
        let columns = self.columns.near(spot.column);
        let rows = self.rows.near(spot.row);
        spot.put_around(neighbours, columns.places(), rows.places())?;
        Ok(())
    }
}
