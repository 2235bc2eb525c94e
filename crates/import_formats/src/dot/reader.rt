//! Graphs that are read.
ghost use Rattle.std.specs.Prelude.{◌≡◌, IfOk, IfErr, Result, Ok, Err};
ghost use Rattle.std.specs.Option.{unwrap_or};
ghost use Rattle.std.specs.Result.{result_err};
ghost use Rattle.import_formats.specs.declared.dot.fault.DotFault.{DotFault};
ghost use Rattle.import_formats.specs.declared.dot.fault.DotFault.TheVariants.{Memory};
ghost use Rattle.import_formats.specs.dot.Graphs.{AreNamed, DotGraph, IsAnswer, Says, start};
ghost use Rattle.import_formats.specs.dot.Reading.{read_graph};
ghost use Rattle.import_formats.specs.dot.Meaning.{Spells, meaning};
ghost use Rattle.import_formats.specs.dot.Syntax.{DotTree};
ghost use Rattle.import_formats.specs.dot.View.{graph_view};

use crate::dot::builder::{Builder, Graph};
use crate::dot::events::turn;
use crate::dot::fault::DotFault;
use crate::dot::state::{Owner, Place, State};
use crate::dot::tokens::Tokens;
use std::alloc::Global;

/// How a text is read.
#[derive(Clone, Copy, Default)]
pub struct Reading {
    /// What weights are multiplied by; none for whole weights alone.
    pub factor: Option<u32>,
    /// Whether a directed graph is read as an undirected one.
    pub undirected: bool,
}

/// At a text's start.
fn start() -> State
    ensures { result ≡ start }
{
    State {
        place: Place::Start,
        depth: 0,
        directed: false,
        owner: Owner::Other,
        weighs: false,
    }
}

/// The graph of a text.
fn collect<'a>(alloc: Global, text: &'a [u8], reading: Reading) -> Result<Graph<'a>, DotFault>
    ensures { IfOk result (λ g. read_graph reading.undirected reading.factor text.now ≡ Ok (graph_view g)) }
{
    let mut tokens = Tokens::of(text);
    let mut state = start();
    let mut builder = Builder::new(alloc, reading.factor);
    while let Some(token) = tokens.next_token() {
        let (next, event) = turn(reading.undirected, reading.factor, state, token, tokens)?;
        builder.take(event)?;
        state = next;
    }
    Ok(builder.finish()?)
}

/// The first fault of a text; `Memory` where it has none.
fn first_fault(text: &[u8], reading: Reading) -> DotFault
    ensures { result ≡ unwrap_or (result_err (read_graph reading.undirected reading.factor text.now)) Memory }
{
    let mut tokens = Tokens::of(text);
    let mut state = start();
    while let Some(token) = tokens.next_token() {
        match turn(reading.undirected, reading.factor, state, token, tokens) {
            Ok((next, _)) => state = next,
            Err(fault) => return fault,
        }
    }
    DotFault::Memory
}

/// The graph of a text in Graphviz's DOT language.
///
/// The text is `strict` or not, `graph` or `digraph`, a name or none, and statements in braces, with nothing after
/// them. Keywords are read in any case. A statement, which a semicolon may follow, is one of these:
///
/// - a node, as `a`, or nodes with `--` between them, as `a -- b -- c`; with attributes or without;
/// - `graph`, `node` or `edge` with attributes, or a value, as `rankdir = LR`, which are passed over;
/// - a subgraph: statements in braces, with `subgraph` before them, or that and a name, or neither. Its statements are
///   read as if they stood outside it.
///
/// A name is a word of letters, digits, `_` and characters beyond ASCII; a numeral; or a string in double quotes, of
/// which the bytes between the quotes count. Ports after a name, as `a:b:c`, are passed over. Attributes stand in
/// brackets, as `[weight=2, color=red]`. Of an edge statement the last `weight` counts, which is read by `read_weight`
/// with the factor; it is the weight of each of the statement's edges. Without one it is 1, or the factor where there
/// is one. Other attributes are passed over, and may have strings in angle brackets as values.
///
/// Comments run from `//` to the line's end or from `/*` to `*/`; a line whose first byte is `#` is one too. A line
/// ends at LF, and a CR is a blank. Comments may hold any bytes; words and strings are UTF-8.
///
/// `nodes` has each name of a node that stands in the text, also those of edges, as often as it does; `edges` has the
/// edges as they stand, each with the line of its first end, and join nodes of `nodes`. Edges that stand twice are
/// kept, also in a `strict` graph.
///
/// A text is read exactly where it spells a tree of this grammar, and then it has the nodes and the edges that the tree
/// means.
///
/// Refused are also, each by a fault of its own: a directed graph, unless `undirected` is set, which reads `a -> b` as
/// `a -- b`; a subgraph as an end of an edge; a weight for all edges, as `edge [weight=2]`; an attribute without a
/// value; a backslash, a control character or a string in angle brackets in a node's name; more than 64 subgraphs in
/// one another.
///
/// `BadLine` names the first fault of the text, also where memory runs out before it. `Memory` comes only where it runs
/// out.
pub fn read_dot<'a>(alloc: Global, text: &'a [u8], reading: &Reading) -> Result<Graph<'a>, DotFault>
    ensures answer { (said : Result DotGraph DotFault) × Says reading.now.undirected reading.now.factor text.now said × IsAnswer graph_view said result }
    ensures refused { (fault : DotFault) → Says reading.now.undirected reading.now.factor text.now (Err fault) → result ≡ Err fault }
    ensures ends { IfOk result (λ g. AreNamed (graph_view g)) }
    ensures grammar { (tree : DotTree) → Spells reading.now.undirected reading.now.factor text.now tree → IsAnswer graph_view (Ok (meaning reading.now.factor tree)) result }
    ensures tree { IfOk result (λ g. (tree : DotTree) × Spells reading.now.undirected reading.now.factor text.now tree × (graph_view g ≡ meaning reading.now.factor tree)) }
    ensures memory { IfErr result (λ fault. fault ≡ Memory → (tree : DotTree) × Spells reading.now.undirected reading.now.factor text.now tree) }
{
    match collect(alloc, text, *reading) {
        Ok(graph) => Ok(graph),
        Err(_) => Err(first_fault(text, *reading)),
    }
}
