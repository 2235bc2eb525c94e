//! The commands that make, import, change and describe networks.
#![tactic(auto)]

mod block_request;
mod generate;
mod generate_request;
mod import;
mod import_columns;
mod import_packed;
mod import_refusals;
mod import_request;
mod info;
mod info_request;
mod init;
mod init_cells;
mod init_request;
mod init_values;
mod json_refusals;
mod pack;
mod pack_refusals;
mod pack_request;

pub use generate::generate_network;
pub use generate_request::{GenerateRequest, Topology, Weights, generate_command};
pub use import::import_network;
pub use import_request::{
    ColumnWord, ColumnWords, Delimiter, Format, ImportRequest, import_command,
};
pub use info::show_info;
pub use info_request::{InfoRequest, info_command};
pub use init::init_network;
pub use init_request::{CellsWord, InitRequest, RangeWord, init_command};
pub use pack::pack_network;
pub use pack_request::{PackRequest, pack_command};
