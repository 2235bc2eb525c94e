//! Edges between the numbers of names.
ghost use Rattle.std.specs.Prelude.{◌≡◌, ◌≢◌, ◌+◌, ◌++◌, ◌∷◌, [], ◌<◌, ◌^◌, List, length, map, IfOk, IfErr, OnOk, Ok, MatchResult};
ghost use Rattle.link_net.specs.Limits.{most_rows};
ghost use Rattle.import_lines.specs.Named.{NamedEdge};
ghost use Rattle.import_lines.specs.Texts.{told_from};
ghost use Rattle.import_formats.specs.edges.Edges.{edges_in};
ghost use Rattle.import_links.specs.Joining.{with_ends, names_with};
ghost use Rattle.net_names.specs.declared.fault.NameListFault.TheVariants.{Memory as NoMemory};
ghost use Rattle.large_pack.specs.Lines.{turned};
ghost use Rattle.large_pack.specs.Ranks.{ranked, LinesRise};
ghost use Rattle.import_network.specs.declared.packed_names.fault.NamesPackFault.TheVariants.{TooManyNames, Memory};
ghost use Rattle.import_network.specs.PackNaming.{edge_in, numbered, reading_of};

use crate::packed_names::fault::NamesPackFault;
use crate::packed_names::options::read_edge;
use import_lines::{Edge, Lines};
use large_pack::{EdgeLine, PackOptions, Ranked, rank_edge};
use net_names::{NameList, NameListFault};
use std::alloc::Global;

/// The edge between two numbers, or where edges are turned round the one from the second to the first.
fn edge_between(first: u32, second: u32, edge: &Edge, reverse: bool) -> EdgeLine
    ensures { result ≡ turned reverse (record { first = first; second = second; weight = edge.now.weight; line = edge.now.line }) }
{
    let (first, second) = if reverse {
        (second, first)
    } else {
        (first, second)
    };
    EdgeLine {
        first,
        second,
        weight: edge.weight(),
        line: edge.line(),
    }
}

/// The edge between the numbers of its ends, which are put among the names; turned round where that is asked.
fn number_edge(names: &mut NameList, edge: &Edge, reverse: bool) -> Result<EdgeLine, NameListFault>
    ensures names { OnOk result (names.new ≡ with_ends names.old edge.now) }
    ensures edge { IfOk result (λ numbered. numbered ≡ edge_in reverse (with_ends names.old edge.now) edge.now) }
    ensures crowd { IfErr result (λ fault. fault ≢ NoMemory → most_rows < length (with_ends names.old edge.now)) }
{
    let first = names.number(edge.first())?;
    let second = names.number(edge.second())?;
    Ok(edge_between(first, second, edge, reverse))
}

/// Adds an edge, as it is compared.
fn push_edge(
    names: &mut NameList,
    edges: &mut Vec<Ranked>,
    edge: &Edge,
    options: &PackOptions,
) -> Result<(), NamesPackFault>
    ensures names { OnOk result (names.new ≡ with_ends names.old edge.now) }
    ensures edges { OnOk result (edges.new.items ≡ edges.old.items ++ ranked options.now (edge_in options.now.reverse (with_ends names.old edge.now) edge.now) ∷ []) }
    ensures kind { IfErr result (λ fault. fault ≢ Memory → fault ≡ TooManyNames) }
    ensures crowd { IfErr result (λ fault. fault ≢ Memory → most_rows < length (with_ends names.old edge.now)) }
{
    let numbered = number_edge(names, edge, options.reverse)?;
    edges.push(rank_edge(&numbered, options))?;
    Ok(())
}

/// Edges between the numbers of names, as they are compared, and these names.
#[derive(Drop)]
pub(crate) struct NamedEdges {
    pub names: NameList,
    pub edges: Vec<Ranked>,
}

/// The edges of the lines that are left, none of which is bad, and the names of their ends.
pub(crate) fn named_edges(
    alloc: Global,
    from: Lines<'_>,
    options: &PackOptions,
) -> Result<NamedEdges, NamesPackFault>
    requires room { from.passed + length from.bytes.now < 2 ^ 64 }
    ensures names { (es : List NamedEdge) → edges_in (reading_of options.now) (told_from (from.entry.passed + 1) from.entry.bytes.now) ≡ Ok es → IfOk result (λ named. named.names ≡ names_with [] es) }
    ensures edges { (es : List NamedEdge) → edges_in (reading_of options.now) (told_from (from.entry.passed + 1) from.entry.bytes.now) ≡ Ok es → IfOk result (λ named. named.edges.items ≡ map (ranked options.now) (numbered options.now.reverse (names_with [] es) es)) }
    ensures kind { (es : List NamedEdge) → edges_in (reading_of options.now) (told_from (from.entry.passed + 1) from.entry.bytes.now) ≡ Ok es → IfErr result (λ fault. fault ≢ Memory → fault ≡ TooManyNames) }
    ensures crowd { (es : List NamedEdge) → edges_in (reading_of options.now) (told_from (from.entry.passed + 1) from.entry.bytes.now) ≡ Ok es → IfErr result (λ fault. fault ≢ Memory → most_rows < length (names_with [] es)) }
    ensures rising { IfOk result (λ named. LinesRise named.edges.items) }
{
    let mut lines = from;
    let mut names = NameList::new(alloc);
    let mut edges = Vec::new(alloc);
    while let Some((number, line)) = lines.next_told() {
        let edge = read_edge(number, line, options)?;
        push_edge(&mut names, &mut edges, &edge, options)?;
    }
    Ok(NamedEdges { names, edges })
}
