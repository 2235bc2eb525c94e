//! Models: the notation that people write, read to its tree.
#![tactic(auto)]

mod depth;
mod expect;
mod fault;
mod hints;
mod items;
mod keyword;
mod lex;
mod parse;
mod source;
mod stuck;
mod token;
mod tree;

pub use fault::{Expected, ModelFault};
pub use hints::{expected_words, hint};
pub use keyword::{Keyword, reserved_word};
pub use source::{one_model, read_model};
pub use tree::{Arguments, Arms, Decimal, Expr, Function, Item, Name, Operator};
