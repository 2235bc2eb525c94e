//! Undirected graphs in Graphviz's DOT language.

mod builder;
mod events;
mod fault;
mod grammar;
mod laws;
mod pieces;
mod reader;
mod runs;
mod state;
mod token_kind;
mod tokens;

pub use builder::Graph;
pub use fault::{DotFault, DotLineFault};
pub use laws::{one_lexing, one_list_of_tokens};
pub use reader::{Reading, read_dot};
pub use token_kind::TokenKind;
