//! Networks of graphs in Graphviz's language.
ghost use Rattle.std.specs.Prelude.{◌≡◌, IfOk, IfErr, Err};
ghost use Rattle.import_formats.specs.declared.dot.fault.DotFault.{DotFault};
ghost use Rattle.import_formats.specs.dot.Graphs.{Says};
ghost use Rattle.import_network.specs.Faults.{dot_fault};
ghost use Rattle.import_network.specs.Drafts.{IsImportedGraph};
ghost use Rattle.import_network.specs.Naming.{IsNamesOfGraph, IsDotFault};

use crate::edges::join_and_finish;
use crate::fault::ImportFault;
use crate::imported::Imported;
use crate::making::Making;
use import_formats::dot::{Reading, read_dot};
use import_links::mentioned;
use std::alloc::Global;

/// The network of a graph in Graphviz's language, as [`read_dot`] reads it, and the file of the names of its
/// nodes, which are numbered in the order of their first appearance. The links are settled as `making` says.
///
/// `Dot` comes where the text is no such graph, also where memory runs out; `Join` where a node has no number; `Settle`
/// where the links make no network; `Memory` only where memory runs out.
pub fn network_from_dot(
    alloc: Global,
    text: &[u8],
    reading: &Reading,
    making: Making,
) -> Result<Imported, ImportFault>
    ensures network { IfOk result (IsImportedGraph making (Says reading.now.undirected reading.now.factor text.now)) }
    ensures names { IfOk result (λ imported. IsNamesOfGraph (Says reading.now.undirected reading.now.factor text.now) imported.names.items) }
    ensures fault { IfErr result (IsDotFault making (Says reading.now.undirected reading.now.factor text.now)) }
    ensures refused { (fault : DotFault) → Says reading.now.undirected reading.now.factor text.now (Err fault) → result ≡ Err (dot_fault fault) }
{
    let graph = read_dot(alloc, text, reading)?;
    let names = mentioned(alloc, graph.nodes.as_slice(), making.most_nodes())?;
    join_and_finish(alloc, names, graph.edges.as_slice(), making)
}
