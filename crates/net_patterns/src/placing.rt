//! Patterns that are put on a grid of nodes.
ghost use Rattle.std.specs.Prelude.{◌≡◌, ◌≢◌, None, not, IfOk, IfErr, Ok, Err, map};
ghost use Rattle.std.specs.List.{find};
ghost use Rattle.net_patterns.specs.declared.placing.PlaceFault.TheVariants.{Memory};
ghost use Rattle.net_patterns.specs.Placing.{node_at, is_inside, placing_of};

use crate::board::Cell;
use std::alloc::{AllocError, Global};
use thiserror::Error;

/// A grid or torus of so many columns, and so many nodes in all: node `width * row + column` stands at each column and row.
#[derive(Clone, Copy)]
pub struct Grid {
    pub width: u32,
    pub nodes: u32,
}

/// Where the first column and the first row of a pattern stand on a grid.
#[derive(Clone, Copy)]
pub struct Corner {
    pub column: u32,
    pub row: u32,
}

/// Why a pattern has no place on a grid.
#[derive(Clone, Copy, Debug, PartialEq, Eq, Error)]
pub enum PlaceFault {
    /// The first live cell that would stand outside the grid.
    #[error("Outside")]
    Outside { cell: Cell },
    /// Memory ran out; every cell stands on the grid.
    #[error("Memory")]
    Memory,
}

impl From<AllocError> for PlaceFault {
    ghost from_gives = { λ _ e. e ≡ Memory };

    fn from(_error: AllocError) -> PlaceFault {
        PlaceFault::Memory
    }
}

/// The node where a cell stands, whether the grid has it or not.
fn node_at(grid: &Grid, corner: &Corner, cell: &Cell) -> u128
    ensures { result ≡ node_at grid.now corner.now cell.now }
{
    let row = corner.row as u128 + cell.row as u128;
    let column = corner.column as u128 + cell.column as u128;
    grid.width as u128 * row + column
}

/// Whether a cell stands on the grid.
fn is_inside(grid: &Grid, corner: &Corner, cell: &Cell) -> bool
    ensures { result ≡ is_inside grid.now corner.now cell.now }
{
    let column = corner.column as u64 + cell.column as u64;
    column < grid.width as u64 && node_at(grid, corner, cell) < grid.nodes as u128
}

/// The first cell that stands outside the grid, where one does.
fn first_outside(cells: &[Cell], grid: &Grid, corner: &Corner) -> Option<Cell>
    ensures { result ≡ find (λ c. not (is_inside grid.now corner.now c)) cells.now }
{
    for cell in cells {
        if !is_inside(grid, corner, cell) {
            return Some(*cell);
        }
    }
    None
}

/// The nodes where cells stand that are on the grid.
fn nodes_of(
    alloc: Global,
    cells: &[Cell],
    grid: &Grid,
    corner: &Corner,
) -> Result<Vec<u32>, AllocError>
    requires inside { find (λ c. not (is_inside grid.now corner.now c)) cells.now ≡ None }
    ensures { IfOk result (λ v. v.items ≡ map (node_at grid.now corner.now) cells.now) }
{
    let mut nodes = Vec::with_capacity(alloc, cells.len())?;
    for cell in cells {
        nodes.push(node_at(grid, corner, cell) as u32)?;
    }
    Ok(nodes)
}

/// The nodes where the live cells of a pattern stand on a grid, in their order, where the pattern's first column and
/// row stand at the corner's. `Outside` names the first cell that would stand outside the grid; nothing is taken round
/// its edges. `Memory` comes only where memory runs out.
pub fn placed(
    alloc: Global,
    cells: &[Cell],
    grid: &Grid,
    corner: &Corner,
) -> Result<Vec<u32>, PlaceFault>
    ensures nodes { IfOk result (λ v. placing_of grid.now corner.now cells.now ≡ Ok v.items) }
    ensures fault { IfErr result (λ fault. fault ≢ Memory → placing_of grid.now corner.now cells.now ≡ Err fault) }
    ensures refused { IfErr (placing_of grid.now corner.now cells.now) (λ fault. result ≡ Err fault) }
{
    if let Some(cell) = first_outside(cells, grid, corner) {
        return Err(PlaceFault::Outside { cell });
    }
    let nodes = nodes_of(alloc, cells, grid, corner)?;
    Ok(nodes)
}
