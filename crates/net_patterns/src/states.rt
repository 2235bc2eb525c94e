//! The cells of a state.
ghost use Rattle.std.specs.Prelude.{◌≡◌, ◌==◌, IfOk};
ghost use Rattle.std.specs.List.{filter};

use crate::board::Cell;
use std::alloc::{AllocError, Global};

/// The cells of a state, in their order.
pub fn cells_of_state(alloc: Global, cells: &[Cell], state: u8) -> Result<Vec<Cell>, AllocError>
    ensures cells { IfOk result (λ v. v.items ≡ filter (λ c. c.state == state) cells.now) }
{
    let mut alike = Vec::new(alloc);
    for cell in cells {
        if cell.state == state {
            alike.push(*cell)?;
        }
    }
    Ok(alike)
}
