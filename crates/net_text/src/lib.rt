//! Networks as lists of links, and the texts of their network files.
#![tactic(auto)]

mod document;
mod fault;
mod link_lines;
mod link_list;
mod row_file;
mod writer;

pub use fault::RowsFault;
pub use link_list::{LinkList, all_within};
pub use link_net::Link;
pub use row_file::row_text;
pub use writer::write_network;
