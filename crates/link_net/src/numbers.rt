//! The numbers of a draft: nodes, ends of links, the phase, weights.
ghost use Rattle.std.specs.Prelude.{◌≡◌, ◌+◌, ◌-◌, ◌<◌, ◌≤◌, option_map, map, is_some, not, IfOk};
ghost use Rattle.std.specs.Option.{ok_or, unwrap_or};
ghost use Rattle.std.specs.List.{list_any};
ghost use Rattle.link_net.specs.Limits.{most_weight};
ghost use Rattle.link_net.specs.Links.{AllWithin};
ghost use Rattle.link_net.specs.Reading.{IsAnswer, IsAnswerBy, number_in, placed, all_placed, description_of};
ghost use Rattle.link_net.specs.Tables.{settled, is_off, drawn, opened};

use crate::draft::Draft;
use crate::tables::{Link, link_network};
use crate::{NetFault, NetFile, Network};
use std::alloc::Global;

/// The most nodes of a network.
pub const MOST_NODES: u32 = 65_536;

/// The last of the three phases.
pub(crate) const LAST_PHASE: u32 = 2;

/// The number, where it is from low to high.
pub(crate) fn number_in(low: u32, high: u32, number: i64) -> Option<u32>
    ensures { result ≡ number_in low high number }
{
    if number < low as i64 || number > high as i64 {
        return None;
    }
    Some(number as u32)
}

/// A link whose ends are nodes. A weight out of range is held as 0 until it is refused.
pub(crate) fn read_link(last: u32, link: &(i64, i64, i64)) -> Option<Link>
    ensures { result ≡ option_map settled (placed last link.now) }
{
    let first = number_in(0, last, link.0)?;
    let second = number_in(0, last, link.1)?;
    let weight = number_in(0, u32::MAX, link.2).unwrap_or(0);
    Some((first, second, weight))
}

/// The links, where all ends are nodes.
pub(crate) fn read_links(
    alloc: Global,
    last: u32,
    draft: &[(i64, i64, i64)],
) -> Result<Vec<Link>, NetFault>
    ensures answer { IsAnswerBy (λ v. v.items) (ok_or (option_map (map settled) (all_placed last draft.now)) NetFault.BadLink) result }
    ensures within { IfOk result (λ v. AllWithin (last + 1) v.items) }
{
    let mut links = Vec::with_capacity(alloc, draft.len())?;
    for item in draft {
        let link = read_link(last, item).ok_or(NetFault::BadLink)?;
        links.push(link)?;
    }
    Ok(links)
}

/// Whether the third number is no weight.
pub(crate) fn is_off(link: &(i64, i64, i64)) -> bool
    ensures { result ≡ is_off link.now }
{
    number_in(0, u32::MAX, link.2).is_none()
}

/// Whether some weight is out of range.
fn has_bad_weight(links: &[(i64, i64, i64)]) -> bool
    ensures { result ≡ list_any is_off links.now }
{
    links.iter().any(is_off)
}

/// The network of a draft. A weight out of range is held as 0 in it.
fn draft_network(alloc: Global, draft: &Draft) -> Result<Network, NetFault>
    ensures { IsAnswer (drawn draft.now) result }
{
    let nodes = number_in(1, MOST_NODES, draft.nodes).ok_or(NetFault::NodeCount)?;
    let links = read_links(alloc, nodes - 1, draft.links.as_slice())?;
    link_network(alloc, nodes, links.as_slice())
}

/// The phase of a draft whose weights are in range.
fn draft_phase(draft: &Draft) -> Result<u8, NetFault>
    ensures exact { result ≡ opened draft.now }
    ensures bound { IfOk result (λ phase. phase ≤ 2) }
{
    let phase = number_in(0, LAST_PHASE, draft.phase).ok_or(NetFault::BadPhase)?;
    if has_bad_weight(draft.links.as_slice()) {
        return Err(NetFault::BadWeight);
    }
    Ok(phase as u8)
}

/// What a draft describes.
pub(crate) fn describe(alloc: Global, draft: Draft) -> Result<NetFile, NetFault>
    ensures { IsAnswer (description_of draft) result }
{
    let network = draft_network(alloc, &draft)?;
    let phase = draft_phase(&draft)?;
    Ok(NetFile::new(network, phase, draft.sets))
}
