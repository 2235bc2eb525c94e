//! The grid on which the nodes of a network stand, by its links.

use app_commands::{GridWidth, put_note};
use app_files::Ending;
use link_net::NetRows;
use run_picture::CellShape;
use std::alloc::Global;

/// A grid of rows of so many nodes.
#[derive(Clone, Copy)]
struct Rows {
    width: u32,
    height: u32,
}

/// How far two places in a row, or in a column, of so many are apart, where the last one may stand beside the first.
fn apart(one: u32, other: u32, count: u32) -> u32 {
    let far = one.abs_diff(other);
    far.min(count.saturating_sub(far))
}

/// The column and the row of a node in rows of a width.
fn place_in(node: u32, width: u32) -> (u32, u32) {
    (
        node.checked_rem(width).unwrap_or(0),
        node.checked_div(width).unwrap_or(0),
    )
}

/// One where something is so.
fn one_if(is: bool) -> usize {
    if is { 1 } else { 0 }
}

impl Rows {
    /// Whether two nodes stand beside each other, at a side or a corner, at the borders of a torus, too.
    fn touch(self, one: u32, other: u32) -> bool {
        let (column, row) = place_in(one, self.width);
        let (other_column, other_row) = place_in(other, self.width);
        apart(column, other_column, self.width) <= 1 && apart(row, other_row, self.height) <= 1
    }

    /// Whether all of these nodes stand beside one.
    fn touch_all(self, node: u32, neighbours: &[u32]) -> bool {
        for neighbour in neighbours {
            if !self.touch(node, *neighbour) {
                return false;
            }
        }
        true
    }

    /// Whether a node is linked with the next one of its row, where there is one.
    fn links_next(self, node: u32, neighbours: &[u32]) -> bool {
        let next = node.saturating_add(1);
        let (column, _row) = place_in(next, self.width);
        column == 0 || neighbours.contains(&next)
    }

    /// Whether a node is linked with the one below it, where there is one.
    fn links_below(self, node: u32, neighbours: &[u32]) -> bool {
        let (_column, row) = place_in(node, self.width);
        let below = node.saturating_add(self.width);
        row.saturating_add(1) >= self.height || neighbours.contains(&below)
    }

    /// The place in the row below at which a hexagonal cell has its second neighbour there, where there is one: rows that are
    /// shifted to the right, each second one, have it at the right, others at the left.
    fn slanted(self, node: u32) -> Option<u32> {
        let (column, row) = place_in(node, self.width);
        if row % 2 == 1 {
            let right = column.saturating_add(1);
            return if right < self.width {
                Some(right)
            } else {
                None
            };
        }
        column.checked_sub(1)
    }

    /// Whether a node of a later row or column is one that a hexagonal cell has beside it.
    fn is_beside(self, node: u32, later: u32) -> bool {
        let (own_column, own_row) = place_in(node, self.width);
        let (column, row) = place_in(later, self.width);
        if row == own_row {
            return later == node.saturating_add(1);
        }
        row == own_row.saturating_add(1)
            && (column == own_column || Some(column) == self.slanted(node))
    }

    /// How many nodes of a later row or column a hexagonal cell has beside it.
    fn later_beside(self, node: u32) -> usize {
        let (column, row) = place_in(node, self.width);
        let right = column.saturating_add(1) < self.width;
        let below = row.saturating_add(1) < self.height;
        let slanted = below && self.slanted(node).is_some();
        one_if(right)
            .saturating_add(one_if(below))
            .saturating_add(one_if(slanted))
    }

    /// Whether the later ones of a node's neighbours are those of a hexagonal cell.
    fn has_hexagon(self, node: u32, neighbours: &[u32]) -> bool {
        let mut later: usize = 0;
        for neighbour in neighbours {
            if *neighbour > node {
                if !self.is_beside(node, *neighbour) {
                    return false;
                }
                later = later.saturating_add(1);
            }
        }
        later == self.later_beside(node)
    }

    /// Whether the links of a network are those of hexagonal cells that stand in these rows.
    fn are_hexagons(self, network: &NetRows<'_>) -> bool {
        for node in 0..network.nodes() {
            if !self.has_hexagon(node, network.neighbours_of(node)) {
                return false;
            }
        }
        true
    }

    /// Whether the links of a network are those of nodes that stand in these rows.
    fn are_of(self, network: &NetRows<'_>) -> bool {
        for node in 0..network.nodes() {
            let neighbours = network.neighbours_of(node);
            if !self.links_next(node, neighbours)
                || !self.links_below(node, neighbours)
                || !self.touch_all(node, neighbours)
            {
                return false;
            }
        }
        true
    }
}

/// The rows of a width that so many nodes make, where they make two whole rows or more of two nodes or more.
fn rows_of(nodes: u32, width: u32) -> Option<Rows> {
    let (column, height) = place_in(nodes, width);
    if width < 2 || column != 0 || height < 2 {
        return None;
    }
    Some(Rows { width, height })
}

/// How many nodes stand in a row of the grid or torus that the links of a network show, where they show one: node 0 is linked
/// with the one below it.
fn shown_width(network: &NetRows<'_>) -> Option<u32> {
    for neighbour in network.neighbours_of(0) {
        if let Some(rows) = rows_of(network.nodes(), *neighbour) {
            if rows.are_of(network) {
                return Some(rows.width);
            }
        }
    }
    None
}

/// The shape of the cells that nodes are which stand in rows of a width, by their links.
pub(crate) fn cell_shape(network: &NetRows<'_>, width: u32) -> CellShape {
    match rows_of(network.nodes(), width) {
        Some(rows) if rows.are_hexagons(network) => CellShape::Hexagon,
        _ => CellShape::Square,
    }
}

/// The ending where the links show no grid, and no width is given.
fn no_grid(alloc: Global) -> Ending {
    Ending::usage(String::from_str(
        alloc,
        "--grid: the links of the network show no grid; give the number of nodes in a row: --grid WIDTH",
    ))
}

/// The ending where the width makes no whole rows.
fn no_rows(alloc: Global, nodes: u32, width: u32) -> Ending {
    Ending::usage(format!(in alloc;
        "--grid: the network's {nodes} nodes make no whole rows of {width}"
    ))
}

/// Prints a note where the links show another width.
fn note_width(rt: &HostRuntime, width: u32, shown: Option<u32>) -> Result<(), Ending> {
    match shown {
        Some(shown) if shown != width => {
            let note = format!(in rt.alloc();
                "--grid {width}: the links show rows of {shown} nodes; --grid alone takes these"
            )?;
            put_note(rt, note.as_str());
            Ok(())
        }
        _ => Ok(()),
    }
}

/// The same width, where it makes whole rows of the nodes; a note tells where the links show another one.
fn checked_width(rt: &HostRuntime, network: &NetRows<'_>, width: u32) -> Result<u32, Ending> {
    let nodes = network.nodes();
    if nodes.checked_rem(width) != Some(0) {
        return Err(no_rows(rt.alloc(), nodes, width));
    }
    note_width(rt, width, shown_width(network))?;
    Ok(width)
}

/// How many nodes of a network stand in a row of the grid that words ask for.
pub(crate) fn grid_width(
    rt: &HostRuntime,
    network: &NetRows<'_>,
    grid: GridWidth,
) -> Result<u32, Ending> {
    match grid {
        GridWidth::Given(width) => checked_width(rt, network, width),
        GridWidth::Shown => match shown_width(network) {
            Some(width) => Ok(width),
            None => Err(no_grid(rt.alloc())),
        },
    }
}
