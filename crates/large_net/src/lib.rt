//! Networks of any size that memory holds: rows of neighbours, and the binary files in which they are kept.
#![tactic(auto)]

mod checks;
mod fault;
mod header;
mod laid_rows;
mod network;
mod numbers;
mod reader;
mod writer;

pub use fault::LargeFault;
pub use network::LargeNetwork;
pub use reader::{file_tail, read_large, read_sequentially};
pub use writer::{large_bytes, tailed_bytes};
