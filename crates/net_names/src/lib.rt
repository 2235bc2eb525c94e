//! Names of nodes, one to one with their numbers, and the files that hold them.
#![tactic(auto)]

mod fault;
mod lines;
mod name_list;
mod name_test;
mod node_names;
mod reader;
mod writer;

pub use fault::{NameListFault, NamesFault, NamesFileFault};
pub use name_list::NameList;
pub use name_test::{MOST_NAME_BYTES, is_name};
pub use node_names::NodeNames;
pub use reader::read_names;
pub use writer::{list_text, names_text};
