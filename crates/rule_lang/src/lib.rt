//! The rule language: reading a program text to its items, and writing them in the canonical
//! spelling.
#![tactic(auto)]

mod cause;
mod expect;
mod fault;
mod keyword;
mod lex;
mod parse;
mod same;
mod source;
mod stuck;
mod token;
mod tree;
mod write;

pub use cause::{Expected, LangCause};
pub use fault::LangFault;
pub use keyword::{Keyword, reserved_word};
pub use lex::read_tokens;
pub use source::{Source, canonical_is_read_back, diagnose, one_program, read_program};
pub use token::{Lexeme, Sign, Token};
pub use tree::{Agg, Expr, Item, Op};
pub use write::{put_item, write_program};
