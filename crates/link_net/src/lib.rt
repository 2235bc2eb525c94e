//! Network files: nodes, undirected links with weights, an opening phase and initial values.
#![tactic(auto)]

ghost use Rattle.std.specs.Prelude.{◌≡◌, false, Err};
ghost use Rattle.std.specs.Str.{is_utf8};
ghost use Rattle.toml.specs.View.{table_view};
ghost use Rattle.link_net.specs.declared.fault.NetFault.TheVariants.{NotToml};
ghost use Rattle.link_net.specs.Reading.{IsAnswer, reading_of, description_in};

mod cause;
mod diagnosis;
mod document;
mod draft;
mod fault;
mod field_set;
mod lent;
mod link_causes;
mod net_file;
mod network;
mod number_causes;
mod numbers;
mod shape_causes;
mod simple;
mod tables;

pub use cause::NetCause;
pub use diagnosis::diagnose;
pub use fault::NetFault;
pub use field_set::{FieldSet, Name, Pairs};
pub use lent::NetRows;
pub use net_file::NetFile;
pub use network::Network;
pub use numbers::MOST_NODES;
pub use simple::{SimpleFault, check_simple};
use std::alloc::Global;
pub use tables::{
    Arc, Link, MOST_LINKS, MOST_NEIGHBOURS, arcs, has_self_link, link_network, sorted_arcs,
    targets, weights,
};
use toml::Table;

/// Reads a network file: the description that its bytes are, or the first fault in the order of [`NetFault`],
/// `BadWeight` after the others; `Memory` comes only where memory runs out. Bytes that are no UTF-8 take no memory.
pub fn read_network(alloc: Global, bytes: &[u8]) -> Result<NetFile, NetFault>
    ensures answer { IsAnswer (reading_of bytes.now) result }
    ensures at_once { is_utf8 bytes.now ≡ false → result ≡ Err NotToml }
{
    let table = document::read_table(alloc, bytes)?;
    describe_table(alloc, &table)
}

/// What a table describes.
fn describe_table(alloc: Global, table: &Table) -> Result<NetFile, NetFault>
    ensures answer { IsAnswer (description_in (table_view table.now)) result }
{
    if !document::knows_keys(table) {
        return Err(NetFault::UnknownKey);
    }
    let draft = document::read_draft(alloc, table)?;
    numbers::describe(alloc, draft)
}
