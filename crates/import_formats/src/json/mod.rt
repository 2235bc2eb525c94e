//! Graphs in node-link JSON, as NetworkX writes them.

mod fault;
mod ids;
mod links;
mod members;
mod nodes;
mod reader;
mod weights;

pub use fault::{IdFault, JsonFault, LinkEnd, LinkFault, LinkList, NodeFault};
pub use reader::{JsonGraph, JsonReading, read_json};
