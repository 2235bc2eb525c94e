//! Networks that stand in Matrix Market files, of the coordinate format.

mod entries;
mod entry;
mod fault;
mod header;
mod matrix;
mod number;
mod opening;
mod reader;
mod size;

pub use entries::Entries;
pub use entry::EntryForm;
pub use fault::{MatrixFault, MatrixLineFault};
pub use matrix::{Direction, EntryReading, Matrix};
pub use opening::find_entries;
pub use reader::read_matrix;
