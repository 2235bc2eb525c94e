//! What a list of edges tells before it is kept.
ghost use Rattle.std.specs.Prelude.{◌≡◌, ◌+◌, ◌<◌, ◌≤◌, ◌^◌, length};
ghost use Rattle.import_lines.specs.Texts.{told_from};
ghost use Rattle.large_pack.specs.Lines.{most_node};
ghost use Rattle.large_pack.specs.Sound.{outside_fault, loop_fault};
ghost use Rattle.large_pack.specs.Surveys.{with_edge, count_in};
ghost use Rattle.large_pack.specs.Keys.{IsReadOf};

use crate::edge_line::{EdgeLine, read_line};
use crate::fault::PackFault;
use crate::keys::{KeyedEdges, no_edges, with_arcs};
use crate::options::{PackOptions, SelfLoops};
use import_lines::Lines;
use std::alloc::Global;

/// What the edges of a text tell together.
#[derive(Clone, Copy)]
pub(crate) struct Survey {
    /// The least number above those of all ends.
    pub reach: u32,
    /// The fault of the first edge with an end that is no node.
    pub outside: Option<PackFault>,
    /// The fault of the first self-loop that is refused.
    pub self_loop: Option<PackFault>,
}

/// The fault of an edge with an end that is not below the number of nodes, where that is given.
pub fn outside_fault(nodes: Option<u32>, edge: &EdgeLine) -> Option<PackFault>
    ensures fault { result ≡ outside_fault nodes edge.now }
{
    let nodes = nodes?;
    if edge.first >= nodes {
        return Some(PackFault::NodeOutside {
            line: edge.line,
            node: edge.first,
        });
    }
    if edge.second >= nodes {
        return Some(PackFault::NodeOutside {
            line: edge.line,
            node: edge.second,
        });
    }
    None
}

/// The fault of an edge that is a self-loop, where these are refused.
pub fn loop_fault(self_loops: SelfLoops, edge: &EdgeLine) -> Option<PackFault>
    ensures fault { result ≡ loop_fault self_loops edge.now }
{
    if self_loops == SelfLoops::Refuse && edge.first == edge.second {
        return Some(PackFault::SelfLoop { line: edge.line });
    }
    None
}

/// What edges tell together with one more.
fn with_edge(survey: Survey, edge: &EdgeLine, options: &PackOptions) -> Survey
    requires first { edge.now.first ≤ most_node }
    requires second { edge.now.second ≤ most_node }
    ensures { result ≡ with_edge options.now survey edge.now }
{
    let reach = survey.reach.max(edge.first + 1).max(edge.second + 1);
    let outside = survey.outside.or(outside_fault(options.nodes, edge));
    let self_loop = survey.self_loop.or(loop_fault(options.self_loops, edge));
    Survey {
        reach,
        outside,
        self_loop,
    }
}

/// What the edges of a text tell together, and their arcs, where all have the weight of an edge that says none.
#[derive(Drop)]
pub(crate) struct Reading {
    pub survey: Survey,
    pub keyed: Option<KeyedEdges>,
}

/// What the edges of the lines that are left tell together, and their arcs: none where an edge has another weight than
/// one that says none, or memory runs out.
pub(crate) fn read_edges(
    alloc: Global,
    from: Lines<'_>,
    options: &PackOptions,
) -> Result<Reading, PackFault>
    requires room { from.passed + length from.bytes.now < 2 ^ 64 }
    ensures { IsReadOf options.now (told_from (from.entry.passed + 1) from.entry.bytes.now) result }
{
    let mut lines = from;
    let mut survey = Survey {
        reach: 0,
        outside: None,
        self_loop: None,
    };
    let start = no_edges(alloc, options.parallel);
    let mut keyed = start;
    while let Some((number, line)) = lines.next_told() {
        let edge = read_line(number, line, options)?;
        survey = with_edge(survey, &edge, options);
        keyed = with_arcs(keyed, &edge, options);
    }
    Ok(Reading { survey, keyed })
}

/// How many nodes there are, where edges that tell this are sound.
pub(crate) fn count_nodes(survey: &Survey, options: &PackOptions) -> Result<u32, PackFault>
    ensures { result ≡ count_in options.now survey.now }
{
    let nodes = options.nodes.unwrap_or(survey.reach);
    if nodes == 0 {
        return Err(PackFault::NoNode);
    }
    if let Some(fault) = survey.outside {
        return Err(fault);
    }
    if let Some(fault) = survey.self_loop {
        return Err(fault);
    }
    Ok(nodes)
}
