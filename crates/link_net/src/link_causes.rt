//! Why links between nodes are refused.
ghost use Rattle.std.specs.Prelude.{◌≡◌, ◌+◌, ◌-◌, ◌≤◌, false, length, take, option_map, is_some, position, find, nat_lt, slice_index, IfOk, IfSome};
ghost use Rattle.std.specs.List.{list_any};
ghost use Rattle.std.specs.List.Sorted.{IsNonDecreasing};
ghost use Rattle.link_net.specs.Causes.{fault_of, refusal_of, fault_if, AreTwice, IsLinkCause};
ghost use Rattle.link_net.specs.Limits.{most_neighbours};
ghost use Rattle.link_net.specs.Links.{is_self_link, has_link_twice, AllWithin};
ghost use Rattle.link_net.specs.Neighbours.{numbers_below};
ghost use Rattle.link_net.specs.Reading.{is_crowded};
ghost use Rattle.link_net.specs.Tables.{network_in};

use crate::tables::{Link, MOST_LINKS, MOST_NEIGHBOURS, offsets, sorted_arcs};
use crate::{NetCause, NetFault};
use std::alloc::{AllocError, Global};
use std::collections::BTreeMap;

/// The first link that joins a node with itself.
fn self_link(links: &[Link]) -> Option<usize>
    ensures { result ≡ position is_self_link links.now }
{
    links.iter().position(|link| link.0 == link.1)
}

/// The first link that joins the same two nodes as an earlier one, and that one.
fn link_twice(alloc: Global, links: &[Link]) -> Result<Option<(usize, usize)>, AllocError>
    ensures some { IfOk result (λ pair. is_some pair ≡ has_link_twice links.now) }
    ensures twice { IfOk result (λ pair. IfSome pair (λ p. AreTwice links.now p.1 p.0)) }
    ensures first { IfOk result (λ pair. IfSome pair (λ p. has_link_twice (take p.0 links.now) ≡ false)) }
{
    let mut seen = BTreeMap::new(alloc);
    for (number, link) in links.iter().enumerate() {
        let ends = (link.0.min(link.1), link.0.max(link.1));
        if let Some(earlier) = seen.insert(ends, number)? {
            return Ok(Some((number, earlier)));
        }
    }
    Ok(None)
}

/// The first node whose part between the offsets is longer than is allowed, and how long it is.
fn longest_part(offsets: &[usize]) -> Option<(u32, usize)>
    requires some { 1 ≤ length offsets.now }
    requires small { length offsets.now ≤ 65537 }
    requires rising { IsNonDecreasing offsets.now }
    ensures node { option_map (λ p. p.0) result ≡ find (λ u. nat_lt most_neighbours (slice_index offsets.now (u + 1) - slice_index offsets.now u)) (numbers_below (length offsets.now - 1)) }
    ensures long { IfSome result (λ p. p.1 ≡ slice_index offsets.now (p.0 + 1) - slice_index offsets.now p.0) }
{
    for node in 0..offsets.len() - 1 {
        let neighbours = offsets[node + 1] - offsets[node];
        if neighbours > MOST_NEIGHBOURS {
            return Some((node as u32, neighbours));
        }
    }
    None
}

/// The first node with more neighbours than are allowed, and how many it has.
fn crowded_node(alloc: Global, nodes: u32, links: &[Link]) -> Result<Option<NetCause>, AllocError>
    requires within { AllWithin nodes links.now }
    requires small { nodes ≤ 65536 }
    requires straight { list_any is_self_link links.now ≡ false }
    ensures agrees { IfOk result (λ cause. option_map fault_of cause ≡ fault_if (is_crowded nodes links.now) NetFault.TooManyNeighbours) }
    ensures named { IfOk result (λ cause. IfSome cause (IsLinkCause nodes links.now)) }
{
    let Ok(arcs) = sorted_arcs(alloc, links) else {
        return Err(AllocError);
    };
    let offsets = offsets(alloc, arcs.as_slice(), nodes)?;
    let Some(part) = longest_part(offsets.as_slice()) else {
        return Ok(None);
    };
    let (node, neighbours) = part;
    Ok(Some(NetCause::TooManyNeighbours { node, neighbours }))
}

/// Why the links are refused.
pub(crate) fn link_cause(
    alloc: Global,
    nodes: u32,
    links: &[Link],
) -> Result<Option<NetCause>, AllocError>
    requires within { AllWithin nodes links.now }
    requires small { nodes ≤ 65536 }
    ensures agrees { IfOk result (λ cause. option_map fault_of cause ≡ refusal_of (network_in nodes links.now)) }
    ensures named { IfOk result (λ cause. IfSome cause (IsLinkCause nodes links.now)) }
{
    if let Some(link) = self_link(links) {
        return Ok(Some(NetCause::SelfLink { link }));
    }
    if let Some(pair) = link_twice(alloc, links)? {
        let (link, earlier) = pair;
        return Ok(Some(NetCause::LinkTwice { link, earlier }));
    }
    let count = links.len();
    if count > MOST_LINKS {
        return Ok(Some(NetCause::TooManyLinks { links: count }));
    }
    let cause = crowded_node(alloc, nodes, links)?;
    Ok(cause)
}
