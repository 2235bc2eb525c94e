//! Networks of tables of edges.
ghost use Rattle.std.specs.Prelude.{◌≡◌, ◌≢◌, [], IfOk, IfErr, Err};
ghost use Rattle.import_formats.specs.edges.Tables.{table_edges};
ghost use Rattle.import_network.specs.declared.fault.ImportFault.TheVariants.{Memory};
ghost use Rattle.import_network.specs.Makings.{most_of};
ghost use Rattle.import_network.specs.Drafts.{IsImported, table_draft, table_numbers_draft, made_in};
ghost use Rattle.import_network.specs.Naming.{IsNamesOf, IsTableFault};

use crate::edges::join_and_finish;
use crate::fault::ImportFault;
use crate::imported::Imported;
use crate::making::Making;
use crate::numbers::number_and_finish;
use import_formats::edges::{TableReading, read_rows, row_edges};
use net_names::NodeNames;
use std::alloc::Global;

/// The network of a table of edges, as [`read_rows`] and [`row_edges`] read it, whose ends are names, and the file of
/// these names. The nodes are numbered in the order in which their names appear first. The links are settled as `making`
/// says.
///
/// `Table` comes where a row is bad; `Join` where an end has no number; `Settle` where the links make no network; `Memory`
/// only where memory runs out.
pub fn network_from_table(
    alloc: Global,
    text: &[u8],
    reading: &TableReading,
    making: Making,
) -> Result<Imported, ImportFault>
    ensures network { IfOk result (IsImported making (table_draft reading.now text.now)) }
    ensures names { IfOk result (λ imported. IsNamesOf (table_edges reading.now text.now) imported.names.items) }
    ensures fault { IfErr result (IsTableFault making (table_edges reading.now text.now)) }
{
    let rows = read_rows(alloc, text, reading)?;
    let edges = row_edges(alloc, rows.as_slice(), reading)?;
    join_and_finish(alloc, NodeNames::new(alloc), edges.as_slice(), making)
}

/// The network of a table of edges, as [`read_rows`] and [`row_edges`] read it, whose ends are the numbers of nodes.
/// There are as many nodes as the greatest number asks for. The links are settled as `making` says. Nodes have no names.
///
/// `Table` comes where a row is bad; `Numbers` where an end is no number of a node; `Settle` where the links make no
/// network; `Memory` only where memory runs out.
pub fn network_from_table_numbers(
    alloc: Global,
    text: &[u8],
    reading: &TableReading,
    making: Making,
) -> Result<Imported, ImportFault>
    ensures network { IfOk result (IsImported making (table_numbers_draft (most_of making) reading.now text.now)) }
    ensures names { IfOk result (λ imported. imported.names.items ≡ []) }
    ensures fault { IfErr result (λ fault. fault ≢ Memory → made_in making (table_numbers_draft (most_of making) reading.now text.now) ≡ Err fault) }
{
    let rows = read_rows(alloc, text, reading)?;
    let edges = row_edges(alloc, rows.as_slice(), reading)?;
    number_and_finish(alloc, edges.as_slice(), making)
}
