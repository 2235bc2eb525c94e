//! Lists of edges between named nodes, packed into networks.
ghost use Rattle.std.specs.Prelude.{◌≡◌, IfOk, IfErr, Ok, Err};
ghost use Rattle.std.specs.Result.{result_map_both};
ghost use Rattle.large_pack.specs.Packing.{IsAnswerOr};
ghost use Rattle.import_network.specs.declared.packed_names.fault.NamesPackFault.TheVariants.{Memory};
ghost use Rattle.import_network.specs.PackNaming.{sound_of, names_of, packing_of};

use crate::packed_names::ends::named_edges;
use crate::packed_names::fault::NamesPackFault;
use crate::packed_names::options::named_options;
use crate::packed_names::survey::check_edges;
use import_formats::edges::edge_lines;
use large_pack::{PackOptions, Packed, pack_ranked};
use net_names::NameList;
use std::alloc::Global;

/// A list of edges between named nodes that is packed.
#[derive(Drop)]
pub struct NamedNetwork {
    /// The network, and what was left out of it.
    pub packed: Packed,
    /// The names of the nodes.
    pub names: NameList,
}

/// The network that a list of edges between named nodes makes, and the names of its nodes: each once, in the order in
/// which they first appear, the first end of an edge before the second, also where edges are turned round. Node k has
/// name k, counted from 0.
///
/// A line says an edge as `read_line` says: `a b` or `a b weight`, where a and b are any words. Lines without words, or
/// whose first word begins with `#` or `%`, are passed over, and so is the first other one where it is a header. An edge
/// makes b a neighbour of a, and where edges have no direction also a one of b. What is done with self-loops and with
/// edges that join the same two nodes is as the options say; the number of nodes that they give is left aside.
///
/// Where several things are wrong the fault is the first as [`NamesPackFault`] says. `Lines`, and the `NoNode` and
/// `SelfLoop` of `Edges` come whether memory runs out or not; `Memory` comes only where it does.
pub fn pack_names(
    alloc: Global,
    text: &[u8],
    options: &PackOptions,
) -> Result<NamedNetwork, NamesPackFault>
    ensures answer { IsAnswerOr Memory (packing_of options.now text.now) (result_map_both (λ named. named.packed) (λ fault. fault) result) }
    ensures names { IfOk result (λ named. names_of options.now text.now ≡ Ok named.names) }
    ensures refused { IfErr (sound_of options.now text.now) (λ fault. result ≡ Err fault) }
{
    check_edges(text, options)?;
    let named = named_edges(alloc, edge_lines(text, options.header), options)?;
    let nodes = named.names.count();
    let packing = named_options(options, nodes);
    let packed = pack_ranked(alloc, nodes, named.edges, &packing)?;
    Ok(NamedNetwork {
        packed,
        names: named.names,
    })
}
