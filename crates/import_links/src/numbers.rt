//! The links of edges whose ends are numbers.
ghost use Rattle.std.specs.Prelude.{◌≡◌, ◌≢◌, ◌<◌, None, Ok, Err, IfOk, IfErr};
ghost use Rattle.std.specs.Option.{unwrap_or};
ghost use Rattle.std.specs.Result.{result_err};
ghost use Rattle.import_links.specs.declared.numbers.NumberFault.TheVariants.{Memory};
ghost use Rattle.import_links.specs.Numbering.{number_fault, number_of, link_of, links_in, nodes_of};

use crate::PlacedLink;
use import_lines::{Edge, WeightFault, read_weight};
use std::alloc::{AllocError, AllocFailed, Global};
use thiserror::Error;

/// Why the ends of edges are no numbers of nodes: the first end that is none.
#[derive(Clone, Copy, Debug, PartialEq, Eq, Error)]
pub enum NumberFault {
    /// It is no whole number in decimal digits.
    #[error("line {line}: the name is no number")]
    NoNumber { line: u64 },
    /// It is as great as the number of nodes that there may be, or greater.
    #[error("line {line}: the number is greater than that of any node")]
    NumberTooLarge { line: u64 },
    /// Memory ran out.
    #[error("not enough memory")]
    Memory,
}

impl From<AllocError> for NumberFault {
    ghost from_gives = { λ _ e. e ≡ Memory };

    fn from(_error: AllocError) -> NumberFault {
        NumberFault::Memory
    }
}

impl<T: Drop> From<AllocFailed<T>> for NumberFault {
    ghost from_gives = { λ _ e. e ≡ Memory };

    fn from(_error: AllocFailed<T>) -> NumberFault {
        NumberFault::Memory
    }
}

/// The links of edges whose ends are numbers.
#[derive(Drop)]
pub struct Numbered {
    /// How many nodes there are: one more than the greatest number of an end, none where there are no edges.
    pub nodes: u32,
    /// The links between these numbers, in the order of the edges.
    pub links: Vec<PlacedLink>,
}

/// Why a name in a line is no number, from why it is no whole weight.
fn at_line(fault: WeightFault, line: u64) -> NumberFault
    ensures { result ≡ number_fault line fault }
{
    match fault {
        WeightFault::WeightTooLarge => NumberFault::NumberTooLarge { line },
        _ => NumberFault::NoNumber { line },
    }
}

/// The number that a name in a line is, below so many.
fn number(name: &str, line: u64, most: u32) -> Result<u32, NumberFault>
    ensures number { result ≡ number_of most line name.now }
    ensures few { IfOk result (λ n. n < most) }
{
    match read_weight(name, None) {
        Ok(weight) => {
            if weight.value >= most {
                return Err(NumberFault::NumberTooLarge { line });
            }
            Ok(weight.value)
        }
        Err(fault) => Err(at_line(fault, line)),
    }
}

/// The link that an edge is, between so many nodes at most.
fn link(edge: &Edge, most: u32) -> Result<PlacedLink, NumberFault>
    ensures link { result ≡ link_of most edge.now }
    ensures first { IfOk result (λ p. p.link.0 < most) }
    ensures second { IfOk result (λ p. p.link.1 < most) }
{
    let line = edge.line();
    let first = number(edge.first(), line, most)?;
    let second = number(edge.second(), line, most)?;
    Ok(PlacedLink {
        link: (first, second, edge.weight()),
        line,
        exact: edge.is_exact(),
    })
}

/// The links of edges, and how many nodes they ask for.
fn collect(alloc: Global, edges: &[Edge], most: u32) -> Result<Numbered, NumberFault>
    ensures links { IfOk result (λ n. links_in most edges.now ≡ Ok n.links.items) }
    ensures nodes { IfOk result (λ n. n.nodes ≡ nodes_of n.links.items) }
{
    let mut nodes = 0;
    let mut links = Vec::with_capacity(alloc, edges.len())?;
    for edge in edges {
        let placed = link(edge, most)?;
        nodes = nodes.max(placed.link.0 + 1).max(placed.link.1 + 1);
        links.push(placed)?;
    }
    Ok(Numbered { nodes, links })
}

/// The fault of the first edge whose ends are no numbers; `Memory` where there is none.
fn first_fault(edges: &[Edge], most: u32) -> NumberFault
    ensures { result ≡ unwrap_or (result_err (links_in most edges.now)) Memory }
{
    for edge in edges {
        if let Err(fault) = link(edge, most) {
            return fault;
        }
    }
    NumberFault::Memory
}

/// The links of edges whose ends are the numbers of nodes, as they stand, of which there may be so many at most. Else the
/// fault of the first end that is no number of one, also where memory runs out before it; `Memory` comes only where
/// memory runs out.
pub fn join_numbers(alloc: Global, edges: &[Edge], most: u32) -> Result<Numbered, NumberFault>
    ensures links { IfOk result (λ n. links_in most edges.now ≡ Ok n.links.items) }
    ensures nodes { IfOk result (λ n. n.nodes ≡ nodes_of n.links.items) }
    ensures fault { IfErr result (λ fault. fault ≢ Memory → links_in most edges.now ≡ Err fault) }
    ensures refused { IfErr (links_in most edges.now) (λ fault. result ≡ Err fault) }
{
    match collect(alloc, edges, most) {
        Ok(numbered) => Ok(numbered),
        Err(_) => Err(first_fault(edges, most)),
    }
}
