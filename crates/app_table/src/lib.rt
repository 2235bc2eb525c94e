//! Commands as tables: what a command takes stands in plain data, and so does what a command line gives.
#![tactic(auto)]

pub mod completion;
mod draft;
mod fault;
pub mod manual;
mod parser;
mod reading;
mod table;
mod words;

pub use draft::Draft;
pub use fault::WordsFault;
pub use parser::parse;
pub use reading::Reading;
pub use table::{Argument, Choice, Command, Kind, OPTION, Subcommand, Value};
pub use words::{Words, number};
