//! The values of a field.
ghost use Rattle.std.specs.Prelude.{◌≡◌, IfOk, map, slice_index};

use crate::tables::row::Row;
use crate::tables::table::Table;
use std::alloc::{AllocError, Global};

/// The value of the field at a place; 0 where there is none.
fn value_at(row: &Row, place: usize) -> u32
    ensures { result ≡ slice_index row.now.state.words place }
{
    match row.state.words.get(place) {
        Some(value) => *value,
        None => 0,
    }
}

/// The values of the field at a place, by rising number of node; each is 0 where that place has no field.
pub fn column_values(alloc: Global, table: &Table<'_>, place: usize) -> Result<Vec<u32>, AllocError>
    ensures values { IfOk result (λ v. v.items ≡ map (λ r. slice_index r.state.words place) table.now.rows) }
{
    let rows = table.rows();
    let mut values = Vec::with_capacity(alloc, rows.len())?;
    for row in rows {
        values.push(value_at(row, place))?;
    }
    Ok(values)
}
