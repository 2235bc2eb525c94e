//! The neighbours of one node.
ghost use Rattle.std.specs.Prelude.{◌≡◌, ◌+◌, ◌*◌, ◌<◌, ◌≤◌, ◌++◌, All, OnOk};
ghost use Rattle.link_net.specs.Limits.{most_rows};
ghost use Rattle.net_shapes.specs.Frames.{is_kept, in_row, around};

use crate::large::slant::Slant;
use std::alloc::AllocError;

/// Where a node stands: in rows of so many nodes, and which nodes beside its corners are its neighbours.
#[derive(Clone, Copy)]
pub(crate) struct Spot {
    pub(crate) width: u32,
    pub(crate) column: u32,
    pub(crate) row: u32,
    pub(crate) slant: Slant,
}

impl Spot {
    /// Whether the node at a column and a row, which are the node's own or beside them, is a neighbour.
    fn keeps(&self, column: u32, row: u32) -> bool
        ensures { result ≡ is_kept self.now column row }
    {
        if row == self.row {
            column != self.column
        } else {
            self.slant.keeps(self.row, self.column, column) || column == self.column
        }
    }

    /// Puts the neighbours at these columns of a row.
    fn put_row(
        &self,
        neighbours: &mut Vec<u32>,
        columns: &[u32],
        row: u32,
    ) -> Result<(), AllocError>
        requires columns { All (λ a. a < self.now.width) columns.now }
        requires small { (row + 1) * self.now.width ≤ most_rows }
        ensures { OnOk result (neighbours.new.items ≡ neighbours.old.items ++ in_row self.now columns.now row) }
    {
        let start = row * self.width;
        for column in columns {
            if self.keeps(*column, row) {
                neighbours.push(start + *column)?;
            }
        }
        Ok(())
    }

    /// Puts the neighbours at these columns of these rows.
    pub(crate) fn put_around(
        &self,
        neighbours: &mut Vec<u32>,
        columns: &[u32],
        rows: &[u32],
    ) -> Result<(), AllocError>
        requires columns { All (λ a. a < self.now.width) columns.now }
        requires small { All (λ b. (b + 1) * self.now.width ≤ most_rows) rows.now }
        ensures { OnOk result (neighbours.new.items ≡ neighbours.old.items ++ around self.now columns.now rows.now) }
    {
        for row in rows {
            self.put_row(neighbours, columns, *row)?;
        }
        Ok(())
    }
}
