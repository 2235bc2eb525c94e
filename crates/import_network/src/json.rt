//! Networks of graphs in node-link JSON.
ghost use Rattle.std.specs.Prelude.{IfOk, IfErr};
ghost use Rattle.import_formats.specs.json.Graphs.{graph_of};
ghost use Rattle.import_network.specs.Makings.{most_of};
ghost use Rattle.import_network.specs.Drafts.{IsImported, json_draft};
ghost use Rattle.import_network.specs.Naming.{IsNamesOfNodes, IsJsonFault};

use crate::fault::ImportFault;
use crate::finish::finished;
use crate::imported::Imported;
use crate::making::Making;
use import_formats::json::{JsonReading, read_json};
use net_names::names_text;
use std::alloc::Global;

/// The network of a graph in node-link JSON, as [`read_json`] reads it, and the file of the names of its nodes, in
/// the order of the graph. The links are settled as `making` says; the line of one is its place in its list, counted
/// from 0.
///
/// `Json` comes where the text is no such graph; `Settle` where its links make no network; `Memory` only where memory
/// runs out.
pub fn network_from_json(
    alloc: Global,
    text: &[u8],
    reading: &JsonReading,
    making: Making,
) -> Result<Imported, ImportFault>
    ensures network { IfOk result (IsImported making (json_draft (most_of making) reading.now.undirected reading.now.factor text.now)) }
    ensures names { IfOk result (λ imported. IsNamesOfNodes (graph_of (most_of making) reading.now.undirected reading.now.factor text.now) imported.names.items) }
    ensures fault { IfErr result (IsJsonFault making (graph_of (most_of making) reading.now.undirected reading.now.factor text.now)) }
{
    let graph = read_json(alloc, text, reading, making.most_nodes())?;
    let names = names_text(alloc, &graph.names)?;
    let nodes = graph.names.count();
    finished(alloc, nodes, graph.links.as_slice(), making, names)
}
