//! Why the numbers of a draft are refused.
ghost use Rattle.std.specs.Prelude.{◌≡◌, option_map, is_none, position, IfOk, IfSome};
ghost use Rattle.link_net.specs.Causes.{fault_of, refusal_of, IsNumberCause};
ghost use Rattle.link_net.specs.Reading.{placed, description_of};
ghost use Rattle.link_net.specs.Tables.{is_off};

use crate::NetCause;
use crate::draft::Draft;
use crate::link_causes::link_cause;
use crate::numbers::{LAST_PHASE, MOST_NODES, is_off, number_in, read_link, read_links};
use std::alloc::{AllocError, Global};

/// Whether an end of the link is no node, up to the last one.
fn is_astray(last: u32, link: &(i64, i64, i64)) -> bool
    ensures { result ≡ is_none (placed last link.now) }
{
    read_link(last, link).is_none()
}

/// The first link with an end that is no node.
fn astray_link(last: u32, links: &[(i64, i64, i64)]) -> Option<usize>
    ensures { result ≡ position (λ l. is_none (placed last l)) links.now }
{
    links.iter().position(|link| is_astray(last, link))
}

/// The first link whose weight is none.
fn off_link(links: &[(i64, i64, i64)]) -> Option<usize>
    ensures { result ≡ position is_off links.now }
{
    links.iter().position(is_off)
}

/// Why the numbers of a draft are refused.
pub(crate) fn number_cause(alloc: Global, draft: &Draft) -> Result<Option<NetCause>, AllocError>
    ensures agrees { IfOk result (λ cause. option_map fault_of cause ≡ refusal_of (description_of draft.now)) }
    ensures named { IfOk result (λ cause. IfSome cause (IsNumberCause draft.now)) }
{
    let Some(nodes) = number_in(1, MOST_NODES, draft.nodes) else {
        return Ok(Some(NetCause::NodeCount { nodes: draft.nodes }));
    };
    if let Some(link) = astray_link(nodes - 1, draft.links.as_slice()) {
        return Ok(Some(NetCause::BadLink { link }));
    }
    let Ok(links) = read_links(alloc, nodes - 1, draft.links.as_slice()) else {
        return Err(AllocError);
    };
    if let Some(cause) = link_cause(alloc, nodes, links.as_slice())? {
        return Ok(Some(cause));
    }
    if number_in(0, LAST_PHASE, draft.phase).is_none() {
        return Ok(Some(NetCause::BadPhase { phase: draft.phase }));
    }
    let Some(link) = off_link(draft.links.as_slice()) else {
        return Ok(None);
    };
    Ok(Some(NetCause::BadWeight { link }))
}
