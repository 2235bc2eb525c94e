//! Networks of edges whose ends are numbers.
ghost use Rattle.std.specs.Prelude.{◌≡◌, ◌≢◌, [], IfOk, IfErr, Err};
ghost use Rattle.import_formats.specs.edges.Edges.{edges_of};
ghost use Rattle.import_network.specs.declared.fault.ImportFault.TheVariants.{Memory};
ghost use Rattle.import_network.specs.Faults.{edge_fault};
ghost use Rattle.import_network.specs.Makings.{most_of};
ghost use Rattle.import_network.specs.Drafts.{IsImported, numbered_draft, numbers_draft, made_in};

use crate::fault::ImportFault;
use crate::finish::finished;
use crate::imported::Imported;
use crate::making::Making;
use import_formats::edges::{Edge, Reading, read_edges};
use import_links::join_numbers;
use std::alloc::Global;

/// The network of edges whose ends are numbers.
pub(crate) fn number_and_finish(
    alloc: Global,
    edges: &[Edge],
    making: Making,
) -> Result<Imported, ImportFault>
    ensures network { IfOk result (IsImported making (numbered_draft (most_of making) edges.now)) }
    ensures names { IfOk result (λ imported. imported.names.items ≡ []) }
    ensures fault { IfErr result (λ fault. fault ≢ Memory → made_in making (numbered_draft (most_of making) edges.now) ≡ Err fault) }
{
    let joined = join_numbers(alloc, edges, making.most_nodes())?;
    finished(
        alloc,
        joined.nodes,
        joined.links.as_slice(),
        making,
        Vec::new(alloc),
    )
}

/// The network of a list of edges, as [`read_edges`] reads it, whose ends are the numbers of nodes. There are as
/// many nodes as the greatest number asks for. The links are settled as `making` says. Nodes have no names.
///
/// `Edges` comes where a line is bad, also where memory runs out; `Numbers` where an end is no number of a node;
/// `Settle` where the links make no network; `Memory` only where memory runs out.
pub fn network_from_numbers(
    alloc: Global,
    text: &[u8],
    reading: &Reading,
    making: Making,
) -> Result<Imported, ImportFault>
    ensures network { IfOk result (IsImported making (numbers_draft (most_of making) reading.now text.now)) }
    ensures names { IfOk result (λ imported. imported.names.items ≡ []) }
    ensures fault { IfErr result (λ fault. fault ≢ Memory → made_in making (numbers_draft (most_of making) reading.now text.now) ≡ Err fault) }
    ensures refused { IfErr (edges_of reading.now text.now) (λ fault. result ≡ Err (edge_fault fault)) }
{
    let edges = read_edges(alloc, text, reading)?;
    number_and_finish(alloc, edges.as_slice(), making)
}
