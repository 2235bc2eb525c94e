//! Lists of edges between named nodes, packed into networks of any size that memory holds.

mod ends;
mod fault;
mod options;
mod pack;
mod survey;

pub use fault::NamesPackFault;
pub(crate) use options::named_options;
pub use pack::{NamedNetwork, pack_names};
