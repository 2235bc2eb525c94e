//! The links of edges, one after another.
ghost use Rattle.std.specs.Prelude.{◌≡◌, ◌≢◌, ◌<◌, ◌≤◌, ◌++◌, ◌∷◌, [], false, Ok, Err, length, map, IfOk, IfErr, OnOk};
ghost use Rattle.net_names.specs.Naming.{AreNames, with_name, place_in};
ghost use Rattle.import_links.specs.Joining.{with_ends, names_with, link_in, links_of};
ghost use Rattle.import_links.specs.Refusals.{IsRefusal, IsEdgeFault, IsNameFault, at_line};

use crate::{JoinFault, PlacedLink};
use import_lines::Edge;
use net_names::{NamesFault, NodeNames};
use std::alloc::Global;

/// The fault of a name that stands in a line.
pub(crate) fn at_line(fault: NamesFault, line: u64) -> JoinFault
    ensures { result ≡ at_line line fault }
{
    match fault {
        NamesFault::BadName => JoinFault::BadName { line },
        NamesFault::TooManyNames => JoinFault::TooManyNodes { line },
        NamesFault::Memory => JoinFault::Memory,
    }
}

/// The number of a name that stands in a line, below so many.
pub(crate) fn number(
    names: &mut NodeNames,
    name: &str,
    line: u64,
    most: u32,
) -> Result<u32, JoinFault>
    requires { AreNames names.old }
    ensures names { OnOk result (names.new ≡ with_name names.old name.now) }
    ensures are_names { OnOk result (AreNames names.new) }
    ensures place { IfOk result (λ number. number ≡ place_in names.old name.now) }
    ensures few { length names.old ≤ most → OnOk result (length names.new ≤ most) }
    ensures refused { IfErr result (IsNameFault most names.old name.now line) }
{
    match names.number(name, most) {
        Ok(number) => Ok(number),
        Err(fault) => Err(at_line(fault, line)),
    }
}

/// The link that an edge is, between so many nodes at most.
fn link(names: &mut NodeNames, edge: &Edge, most: u32) -> Result<PlacedLink, JoinFault>
    requires { AreNames names.old }
    ensures names { OnOk result (names.new ≡ with_ends names.old edge.now) }
    ensures are_names { OnOk result (AreNames names.new) }
    ensures link { IfOk result (λ link. link ≡ link_in (with_ends names.old edge.now) edge.now) }
    ensures few { length names.old ≤ most → OnOk result (length names.new ≤ most) }
    ensures refused { IfErr result (IsEdgeFault most names.old edge.now) }
{
    let line = edge.line();
    let first = number(names, edge.first(), line, most)?;
    let second = number(names, edge.second(), line, most)?;
    Ok(PlacedLink {
        link: (first, second, edge.weight()),
        line,
        exact: edge.is_exact(),
    })
}

/// The nodes and the links of edges: node k has name k, and the links stand in the order of the edges.
#[derive(Drop)]
pub struct Joined {
    /// The names of the nodes.
    pub names: NodeNames,
    /// The links between the numbers of these names.
    pub links: Vec<PlacedLink>,
}

/// The links of edges, each between the numbers of its ends. The nodes have the names that are given; the ends of the
/// edges that are not among them are numbered after them, in the order of their first appearance, the first end of an
/// edge before the second. There may be so many nodes at most. Else the fault of the first end that has no number;
/// `Memory` comes only where memory runs out.
pub fn join(alloc: Global, names: NodeNames, edges: &[Edge], most: u32) -> Result<Joined, JoinFault>
    ensures named { IfOk result (λ joined. joined.names ≡ names_with names edges.now) }
    ensures links { IfOk result (λ joined. joined.links.items ≡ links_of names edges.now) }
    ensures are_names { IfOk result (λ joined. AreNames joined.names) }
    ensures few { length names ≤ most → IfOk result (λ joined. length joined.names ≤ most) }
    ensures refused { IfErr result (IsRefusal most names edges.now) }
{
    let mut names = names;
    let mut links = Vec::with_capacity(alloc, edges.len())?;
    for edge in edges {
        let link = link(&mut names, edge, most)?;
        links.push(link)?;
    }
    Ok(Joined { names, links })
}
