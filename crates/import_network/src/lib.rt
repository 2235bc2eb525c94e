//! Networks that are made from texts in other formats: network files, and packed networks of any size.
#![tactic(auto)]

mod dot;
mod edges;
mod fault;
mod finish;
mod imported;
mod json;
mod making;
mod matrix;
mod numbers;
mod packed_matrix;
mod packed_names;
mod packing;
mod table;

pub use dot::network_from_dot;
pub use edges::network_from_edges;
pub use fault::ImportFault;
pub use imported::Imported;
pub use json::network_from_json;
pub use making::Making;
pub use matrix::network_from_matrix;
pub use numbers::network_from_numbers;
pub use packed_matrix::{MatrixOptions, MatrixPackFault, pack_matrix};
pub use packed_names::{NamedNetwork, NamesPackFault, pack_names};
pub use table::{network_from_table, network_from_table_numbers};
