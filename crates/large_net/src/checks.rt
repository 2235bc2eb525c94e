//! What may be wrong with the rows of a network file.
ghost use Rattle.std.specs.Prelude.{◌≡◌, ◌<◌, ◌≤◌, length, map, ◌+◌, ◌-◌, find, position, nat_le, MatchResult, Some, None};
ghost use Rattle.std.specs.Int.{from_le_bytes, w32, w64};
ghost use Rattle.link_net.specs.Neighbours.{numbers_below};
ghost use Rattle.large_net.specs.File.{is_bad_offset, is_wide, rows_fault};

use crate::fault::LargeFault;
use crate::numbers::long_in;

/// The most neighbours that a node may have.
const MOST_NEIGHBOURS: u64 = 4_294_967_295;

/// Whether the offset of a node is bad: the first is not 0, or the next is lower, or the last is not the number of ends.
fn is_bad_offset(offsets: &[[u8; 8]], ends: u64, node: usize) -> bool
    requires within { node < length offsets.now }
    ensures { result ≡ is_bad_offset (map (from_le_bytes w64) offsets.now) ends node }
{
    let offset = long_in(offsets, node);
    if node + 1 == offsets.len() {
        return offset != ends;
    }
    (node == 0 && offset != 0) || long_in(offsets, node + 1) < offset
}

/// The first bad offset.
#[tactic(auto, using(link_net::proofs::Searches::find_next, link_net::proofs::Searches::find_last))]
fn first_bad_offset(offsets: &[[u8; 8]], ends: u64) -> Option<u64>
    ensures { result ≡ find (is_bad_offset (map (from_le_bytes w64) offsets.now) ends) (numbers_below (length offsets.now)) }
{
    for node in 0..offsets.len() {
        if is_bad_offset(offsets, ends, node) {
            return Some(node as u64);
        }
    }
    None
}

/// Whether a node has more neighbours than a word can say.
fn is_wide(offsets: &[[u8; 8]], node: usize) -> bool
    requires within { node + 1 < length offsets.now }
    ensures { result ≡ is_wide (map (from_le_bytes w64) offsets.now) node }
{
    long_in(offsets, node + 1).saturating_sub(long_in(offsets, node)) > MOST_NEIGHBOURS
}

/// The first node with too many neighbours.
#[tactic(auto, using(link_net::proofs::Searches::find_next, link_net::proofs::Searches::find_last))]
fn first_wide_row(offsets: &[[u8; 8]]) -> Option<u64>
    requires some { 1 ≤ length offsets.now }
    ensures { result ≡ find (is_wide (map (from_le_bytes w64) offsets.now)) (numbers_below (length offsets.now - 1)) }
{
    for node in 0..offsets.len() - 1 {
        if is_wide(offsets, node) {
            return Some(node as u64);
        }
    }
    None
}

/// The first piece in which no node stands.
fn stray_place(neighbours: &[[u8; 4]], nodes: u64) -> Option<usize>
    ensures { result ≡ position (λ piece. nat_le nodes (from_le_bytes w32 piece)) neighbours.now }
{
    neighbours
        .iter()
        .position(|piece| u32::from_le_bytes(*piece) as u64 >= nodes)
}

/// The first place among the neighbours at which no node stands.
#[tactic(auto, using(crate::proofs::Searches::position_mapped))]
fn first_stray(neighbours: &[[u8; 4]], nodes: u64) -> Option<u64>
    ensures { result ≡ position (λ v. nat_le nodes v) (map (from_le_bytes w32) neighbours.now) }
{
    let place = stray_place(neighbours, nodes)?;
    Some(place as u64)
}

/// Refuses offsets and neighbours that are no rows, with their first fault.
pub(crate) fn check_rows(offsets: &[[u8; 8]], neighbours: &[[u8; 4]]) -> Result<(), LargeFault>
    requires some { 1 ≤ length offsets.now }
    ensures { MatchResult result (λ _. rows_fault (map (from_le_bytes w64) offsets.now) (map (from_le_bytes w32) neighbours.now) ≡ None) (λ fault. rows_fault (map (from_le_bytes w64) offsets.now) (map (from_le_bytes w32) neighbours.now) ≡ Some fault) }
{
    if let Some(node) = first_bad_offset(offsets, neighbours.len() as u64) {
        return Err(LargeFault::Offsets { node });
    }
    if let Some(node) = first_wide_row(offsets) {
        return Err(LargeFault::TooManyNeighbours { node });
    }
    if let Some(end) = first_stray(neighbours, (offsets.len() - 1) as u64) {
        return Err(LargeFault::Neighbour { end });
    }
    Ok(())
}
