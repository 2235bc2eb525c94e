//! Networks of edges whose ends are names.
ghost use Rattle.std.specs.Prelude.{◌≡◌, [], IfOk, IfErr, Ok, Err};
ghost use Rattle.import_formats.specs.edges.Edges.{edges_of};
ghost use Rattle.import_links.specs.Joining.{names_with};
ghost use Rattle.import_network.specs.Faults.{edge_fault};
ghost use Rattle.import_network.specs.Drafts.{IsImported, IsMadeOf, named_draft, edges_draft};
ghost use Rattle.import_network.specs.Naming.{IsNameFile, IsJoinFault, IsNamesOf, IsEdgesFault};

use crate::fault::ImportFault;
use crate::finish::finished;
use crate::imported::Imported;
use crate::making::Making;
use import_formats::edges::{Edge, Reading, read_edges};
use import_links::join;
use net_names::{NodeNames, names_text};
use std::alloc::Global;

/// The network of edges whose ends are names, and the file of these names, those that are given before the others.
pub(crate) fn join_and_finish(
    alloc: Global,
    names: NodeNames,
    edges: &[Edge],
    making: Making,
) -> Result<Imported, ImportFault>
    ensures network { IfOk result (IsMadeOf making (named_draft names edges.now)) }
    ensures names { IfOk result (λ imported. IsNameFile (names_with names edges.now) imported.names.items) }
    ensures fault { IfErr result (IsJoinFault making names edges.now) }
{
    let joined = join(alloc, names, edges, making.most_nodes())?;
    let names = names_text(alloc, &joined.names)?;
    let nodes = joined.names.count();
    finished(alloc, nodes, joined.links.as_slice(), making, names)
}

/// The network of a list of edges, as [`read_edges`] reads it, whose ends are names, and the file of these names.
/// The nodes are numbered in the order in which their names appear first. The links are settled as `making` says.
///
/// `Edges` comes where a line is bad, also where memory runs out; `Join` where an end has no number; `Settle` where the
/// links make no network; `Memory` only where memory runs out.
pub fn network_from_edges(
    alloc: Global,
    text: &[u8],
    reading: &Reading,
    making: Making,
) -> Result<Imported, ImportFault>
    ensures network { IfOk result (IsImported making (edges_draft reading.now text.now)) }
    ensures names { IfOk result (λ imported. IsNamesOf (edges_of reading.now text.now) imported.names.items) }
    ensures fault { IfErr result (IsEdgesFault making (edges_of reading.now text.now)) }
    ensures refused { IfErr (edges_of reading.now text.now) (λ fault. result ≡ Err (edge_fault fault)) }
{
    let edges = read_edges(alloc, text, reading)?;
    join_and_finish(alloc, NodeNames::new(alloc), edges.as_slice(), making)
}
