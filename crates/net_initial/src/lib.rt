//! Network files with other initial values.
#![tactic(auto)]

mod amount;
mod asking;
mod draw;
mod fault;
mod field_sets;
mod network_links;
mod node_list;
mod opening;
mod table;
mod text;
mod value_draw;

pub use amount::{ALL_NODES, Amount};
pub use draw::{DrawFault, drawn_nodes};
pub use fault::OpenFault;
pub use network_links::listed;
pub use node_list::{NodeLine, node_lines};
pub use opening::{Chosen, Opening, Values};
pub use text::{opened_settings, opened_text};
pub use value_draw::drawn_values;
