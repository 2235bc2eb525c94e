//! Reports and replay reports that are read without their program, and printed as CSV with the names of nodes.

mod cells;
mod column;
mod csv_fault;
mod fault;
mod first_line;
mod laws;
mod marks;
mod named;
mod reader;
mod records;
mod row;
mod row_reader;
mod table;

pub use column::column_values;
pub use csv_fault::CsvFault;
pub use fault::TableFault;
pub use laws::reports_are_tables;
pub use named::names_csv;
pub use reader::read_table;
pub use row::Row;
pub use table::Table;
