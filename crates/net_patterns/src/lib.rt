//! Patterns of cells in Golly's text formats, read and written, and where they stand on a grid.
#![tactic(auto)]

mod board;
mod fault;
mod grid_text;
mod lines;
mod pattern;
mod placing;
mod plain;
mod runs;
mod span;
mod spelling;
mod states;
mod writer;

pub use board::Cell;
pub use fault::PatternFault;
pub use grid_text::{ValueFault, grid_pattern};
pub use pattern::read_pattern;
pub use placing::{Corner, Grid, PlaceFault, placed};
pub use span::Span;
pub use spelling::PatternFormat;
pub use states::cells_of_state;
