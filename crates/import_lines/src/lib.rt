//! What texts in other formats are made of: lines, their words, weights, and edges between nodes that are named.
#![tactic(auto)]

mod cuts;
mod edge;
mod lines;
mod mention;
mod number;
mod parts;
mod quotient;
mod scaled;
mod weight;
mod weight_fault;
mod words;
mod words_fault;

pub use cuts::cut_at;
pub use edge::Edge;
pub use lines::{Lines, edge_lines, line_length, split_line};
pub use mention::Mention;
pub use number::all_digits;
pub use parts::{Parts, line_parts, line_text};
pub use weight::{Weight, read_weight};
pub use weight_fault::WeightFault;
pub use words::next_word;
pub use words_fault::WordsFault;
