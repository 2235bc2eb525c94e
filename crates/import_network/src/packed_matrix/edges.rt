//! The edges of a matrix.
ghost use Rattle.std.specs.Prelude.{◌≡◌, ◌≢◌, ◌+◌, ◌<◌, ◌≤◌, ◌^◌, length, IfOk, Ok, Err, MatchResult};
ghost use Rattle.import_formats.specs.matrix_market.Steps.{and_then, told_as};
ghost use Rattle.import_formats.specs.matrix_market.Matrices.{links_left};
ghost use Rattle.large_pack.specs.Ranks.{LinesRise, RankedWithin};
ghost use Rattle.large_pack.specs.Sound.{loop_fault, first_fault};
ghost use Rattle.import_network.specs.declared.packed_matrix.fault.MatrixPackFault.TheVariants.{Memory};
ghost use Rattle.import_network.specs.MatrixFaults.{matrix_fault};
ghost use Rattle.import_network.specs.Entries.{edge_of, edges_of};
ghost use Rattle.import_network.specs.MatrixSteps.{ranked_in};

use crate::packed_matrix::fault::MatrixPackFault;
use import_formats::matrix_market::{Entries, MatrixFault};
use import_links::PlacedLink;
use large_pack::{EdgeLine, PackFault, PackOptions, Ranked, SelfLoops, loop_fault, rank_edge};
use std::alloc::Global;

/// The edge that an entry says, from its row to its column.
fn edge_of(link: &PlacedLink) -> EdgeLine
    ensures { result ≡ edge_of link.now }
{
    EdgeLine {
        first: link.link.0,
        second: link.link.1,
        weight: link.link.2,
        line: link.line,
    }
}

/// The fault of the first self-loop among the entries that are left, where these are refused.
pub(crate) fn first_loop(
    from: Entries<'_>,
    self_loops: SelfLoops,
) -> Result<Option<PackFault>, MatrixFault>
    requires room { from.lines.passed + length from.lines.bytes.now < 2 ^ 64 }
    requires most { from.found ≤ from.said }
    ensures { result ≡ and_then (links_left from.entry) (λ links. Ok (first_fault (loop_fault self_loops) (edges_of links))) }
{
    let mut entries = from;
    let mut first = None;
    while let Some(link) = entries.next_link()? {
        first = first.or(loop_fault(self_loops, &edge_of(&link)));
    }
    Ok(first)
}

/// The edges of the entries that are left, as they are compared.
pub(crate) fn ranked_entries(
    alloc: Global,
    from: Entries<'_>,
    options: &PackOptions,
) -> Result<Vec<Ranked>, MatrixPackFault>
    requires room { from.lines.passed + length from.lines.bytes.now < 2 ^ 64 }
    requires most { from.found ≤ from.said }
    ensures edges { MatchResult result (λ v. ranked_in options.now (links_left from.entry) ≡ Ok v.items) (λ fault. fault ≢ Memory → told_as matrix_fault (links_left from.entry) ≡ Err fault) }
    ensures rising { IfOk result (λ v. LinesRise v.items) }
    ensures within { IfOk result (λ v. RankedWithin from.entry.form.nodes v.items) }
{
    let mut entries = from;
    let mut edges = Vec::new(alloc);
    while let Some(link) = entries.next_link()? {
        edges.push(rank_edge(&edge_of(&link), options))?;
    }
    Ok(edges)
}
