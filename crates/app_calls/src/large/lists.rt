//! What may be wrong with the lists of a network.
ghost use Rattle.std.specs.Prelude.{◌≡◌, ◌+◌, ◌-◌, ◌<◌, ◌≤◌, length, find, position, nat_le, MatchResult, OnOk, Some, None};
ghost use Rattle.link_net.specs.Neighbours.{numbers_below};
ghost use Rattle.large_net.specs.File.{is_bad_offset, is_wide, rows_fault};
ghost use Rattle.app_calls.specs.Lists.{AreRows, lists_fault};

use crate::large::fault::ListsFault;
use large_net::LargeFault;

/// The lists of a network: the neighbours of node u stand from offset u up to the next one, and beside them the weights of
/// the links, of which there are none where each is 1.
#[derive(Clone, Copy)]
pub struct Lists<'a> {
    pub offsets: &'a [usize],
    pub neighbours: &'a [u32],
    pub weights: &'a [u32],
}

/// The most nodes, and the most neighbours that a node may have.
const MOST_ROWS: usize = 4_294_967_295;

/// Whether the offset of a node is bad: the first is not 0, or the next is lower, or the last is not the number of
/// neighbours.
fn is_bad_offset(offsets: &[usize], ends: usize, node: usize) -> bool
    requires within { node < length offsets.now }
    ensures { result ≡ is_bad_offset offsets.now ends node }
{
    let offset = offsets[node];
    if node + 1 == offsets.len() {
        return offset != ends;
    }
    (node == 0 && offset != 0) || offsets[node + 1] < offset
}

/// The first bad offset.
#[tactic(auto, using(link_net::proofs::Searches::find_next, link_net::proofs::Searches::find_last))]
fn first_bad_offset(offsets: &[usize], ends: usize) -> Option<u64>
    ensures { result ≡ find (is_bad_offset offsets.now ends) (numbers_below (length offsets.now)) }
{
    for node in 0..offsets.len() {
        if is_bad_offset(offsets, ends, node) {
            return Some(node as u64);
        }
    }
    None
}

/// Whether a node has more neighbours than a word can say.
fn is_wide(offsets: &[usize], node: usize) -> bool
    requires within { node + 1 < length offsets.now }
    ensures { result ≡ is_wide offsets.now node }
{
    offsets[node + 1].saturating_sub(offsets[node]) > MOST_ROWS
}

/// The first node with too many neighbours.
#[tactic(auto, using(link_net::proofs::Searches::find_next, link_net::proofs::Searches::find_last))]
fn first_wide_row(offsets: &[usize]) -> Option<u64>
    requires some { 1 ≤ length offsets.now }
    ensures { result ≡ find (is_wide offsets.now) (numbers_below (length offsets.now - 1)) }
{
    for node in 0..offsets.len() - 1 {
        if is_wide(offsets, node) {
            return Some(node as u64);
        }
    }
    None
}

/// The first place among the neighbours at which no node stands.
fn first_stray(neighbours: &[u32], nodes: usize) -> Option<usize>
    ensures { result ≡ position (λ v. nat_le nodes v) neighbours.now }
{
    neighbours
        .iter()
        .position(|neighbour| *neighbour as usize >= nodes)
}

/// Refuses offsets and neighbours that are no rows, with their first fault.
fn check_rows(offsets: &[usize], neighbours: &[u32]) -> Result<(), LargeFault>
    requires some { 1 ≤ length offsets.now }
    ensures { MatchResult result (λ _. rows_fault offsets.now neighbours.now ≡ None) (λ fault. rows_fault offsets.now neighbours.now ≡ Some fault) }
{
    if let Some(node) = first_bad_offset(offsets, neighbours.len()) {
        return Err(LargeFault::Offsets { node });
    }
    if let Some(node) = first_wide_row(offsets) {
        return Err(LargeFault::TooManyNeighbours { node });
    }
    if let Some(end) = first_stray(neighbours, offsets.len() - 1) {
        return Err(LargeFault::Neighbour { end: end as u64 });
    }
    Ok(())
}

/// Whether these lists are the rows of a network: row u goes from offset u up to the next one. Each weight is 1 where
/// there are none. No memory is taken.
///
/// The first fault is told, in this order: `NodeCount` where there are not 2 to 4,294,967,296 offsets; `WeightCount` where
/// there are weights, and not as many as neighbours; `Offsets`, `TooManyNeighbours` and `Neighbour`, each at the first
/// place.
pub fn check_lists(lists: &Lists<'_>) -> Result<(), ListsFault>
    ensures fault { MatchResult result (λ _. lists_fault lists.now.offsets.now lists.now.neighbours.now lists.now.weights.now ≡ None) (λ fault. lists_fault lists.now.offsets.now lists.now.neighbours.now lists.now.weights.now ≡ Some fault) }
    ensures rows { OnOk result (AreRows lists.now) }
{
    let nodes = lists.offsets.len().saturating_sub(1);
    if nodes == 0 || nodes > MOST_ROWS {
        return Err(ListsFault::Rows(LargeFault::NodeCount {
            nodes: nodes as u64,
        }));
    }
    if !lists.weights.is_empty() && lists.weights.len() != lists.neighbours.len() {
        return Err(ListsFault::WeightCount {
            weights: lists.weights.len() as u64,
        });
    }
    match check_rows(lists.offsets, lists.neighbours) {
        Ok(()) => Ok(()),
        Err(fault) => Err(ListsFault::Rows(fault)),
    }
}
