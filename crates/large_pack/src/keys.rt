//! Arcs as single numbers.
ghost use Rattle.std.specs.Prelude.{◌≡◌, ◌≤◌, ◌++◌, ◌∷◌, [], List, map, IfSome, OnOk};
ghost use Rattle.large_pack.specs.declared.edge_line.EdgeLine.{EdgeLine};
ghost use Rattle.large_pack.specs.Lines.{most_node};
ghost use Rattle.large_pack.specs.Packing.{edge_arcs};
ghost use Rattle.large_pack.specs.Keys.{key_of, is_dropped, repeats, AreKeyed};

use crate::edge_line::EdgeLine;
use crate::options::{PackOptions, Parallel, SelfLoops};
use std::alloc::{AllocError, Global};

/// What the node that an arc comes from is multiplied by in the arc's number.
pub(crate) const SPAN: u64 = 4_294_967_296;

/// The arcs of edges that all have the weight of an edge that says none, each as one number: the node that it comes from
/// times 4,294,967,296, and the one that it leads to added.
#[derive(Drop)]
pub(crate) struct KeyedEdges {
    /// The arcs of the edges that stay.
    pub keys: Vec<u64>,
    /// How many edges there are.
    pub lines: u64,
    /// How many of them are self-loops that are left out.
    pub dropped_loops: u64,
}

/// No edges yet, where their arcs are kept as numbers: not where edges that join the same two nodes are merged.
pub(crate) fn no_edges(alloc: Global, parallel: Parallel) -> Option<KeyedEdges>
    ensures none { (options : PackOptions) → IfSome result (λ k. AreKeyed options [] k) }
{
    match parallel {
        Parallel::Refuse | Parallel::Keep => Some(KeyedEdges {
            keys: Vec::new(alloc),
            lines: 0,
            dropped_loops: 0,
        }),
        Parallel::Least | Parallel::Greatest | Parallel::First => None,
    }
}

/// An arc as one number.
pub(crate) fn key(from: u32, to: u32) -> u64
    ensures { result ≡ key_of (from, to, 1) }
{
    from as u64 * SPAN + to as u64
}

/// Adds the arcs of an edge.
fn push_arcs(keys: &mut Vec<u64>, edge: &EdgeLine, is_directed: bool) -> Result<(), AllocError>
    ensures { OnOk result (keys.new.items ≡ keys.old.items ++ map key_of (edge_arcs is_directed edge.now)) }
{
    keys.push(key(edge.first, edge.second))?;
    if is_directed || edge.first == edge.second {
        return Ok(());
    }
    keys.push(key(edge.second, edge.first))?;
    Ok(())
}

/// Whether an edge is a self-loop that is left out.
fn is_dropped(self_loops: SelfLoops, edge: &EdgeLine) -> bool
    ensures { result ≡ is_dropped self_loops edge.now }
{
    self_loops == SelfLoops::Drop && edge.first == edge.second
}

/// The arcs of one more edge beside those of the others; none where it has another weight or memory runs out.
pub(crate) fn with_arcs(
    keyed: Option<KeyedEdges>,
    edge: &EdgeLine,
    options: &PackOptions,
) -> Option<KeyedEdges>
    requires first { edge.now.first ≤ most_node }
    requires second { edge.now.second ≤ most_node }
    ensures kept { (done : List EdgeLine) → IfSome keyed (λ k. AreKeyed options.now done k) → IfSome result (λ k. AreKeyed options.now (done ++ edge.now ∷ []) k) }
{
    let mut keyed = keyed?;
    if edge.weight != options.factor.unwrap_or(1) {
        return None;
    }
    keyed.lines = keyed.lines.checked_add(1)?;
    if is_dropped(options.self_loops, edge) {
        keyed.dropped_loops = keyed.dropped_loops.checked_add(1)?;
        return Some(keyed);
    }
    let Ok(()) = push_arcs(&mut keyed.keys, edge, options.is_directed) else {
        return None;
    };
    Some(keyed)
}

/// Whether some number is the one before it.
pub(crate) fn has_repeat(keys: &[u64]) -> bool
    ensures { result ≡ repeats keys.now }
{
    let Some((first, rest)) = keys.split_first() else {
        return false;
    };
    let mut last = *first;
    for key in rest {
        if *key == last {
            return true;
        }
        last = *key;
    }
    false
}
