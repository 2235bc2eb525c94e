//! Lists of edges between numbered nodes, packed into networks of any size that memory holds.
#![tactic(auto)]

mod edge_line;
mod fault;
mod keyed_rows;
mod keys;
mod merging;
mod options;
mod pack;
mod ranked;
mod rows;
mod shared;
mod survey;

pub use edge_line::{EdgeLine, line_edge};
pub use fault::{End, LineFault, NodeFault, PackFault};
pub use options::{PackOptions, Parallel, SelfLoops};
pub use pack::{Packed, pack_edges, pack_ranked};
pub use ranked::{Ranked, rank_edge};
pub use rows::{Arc, network_of_arcs};
pub use survey::{loop_fault, outside_fault};
