//! Edges that stand in a text: a line for each, as words, or as the fields of a table, which tabs alone or commas part.

mod columns;
mod fault;
mod heading;
mod line_edge;
mod places;
mod reader;
mod row;
mod row_fault;
mod row_fields;
mod row_parts;
mod row_reader;

pub use columns::Columns;
pub use fault::{EdgeFault, LineFault};
pub use heading::is_whole;
pub use import_lines::{Edge, edge_lines};
pub use line_edge::read_line;
pub use reader::{Reading, read_edges};
pub use row::{Row, row_edge};
pub use row_fault::{RowFault, TableFault};
pub use row_fields::Separator;
pub use row_reader::{TableReading, read_rows, row_edges};
