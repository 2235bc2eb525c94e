//! Networks in the formats of other tools: lists and tables of edges, Matrix Market files, graphs of Graphviz, and node-link
//! JSON.
#![tactic(auto)]

pub mod dot;
pub mod edges;
pub mod json;
pub mod matrix_market;
