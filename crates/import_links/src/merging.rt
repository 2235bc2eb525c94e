//! One link in place of several that join the same two nodes.
ghost use Rattle.std.specs.Prelude.{◌≡◌, OnOk, IfOk};
ghost use Rattle.import_links.specs.Merging.{merged};
ghost use Rattle.import_links.specs.Puts.{ends, put};

use crate::kept::Kept;
use indexmap::IndexMap;
use link_net::Link;
use std::alloc::{AllocError, Global};

/// The two ends of a link, the lesser one first.
pub(crate) fn ends(link: &Link) -> (u32, u32)
    ensures { result ≡ ends link.now }
{
    (link.0.min(link.1), link.0.max(link.1))
}

/// Puts a link after the others, or keeps one weight where one of them joins the same two nodes.
fn put(made: &mut IndexMap<(u32, u32), Link>, link: &Link, kept: Kept) -> Result<(), AllocError>
    ensures { OnOk result (made.new.entries ≡ put kept link.now made.old.entries) }
{
    let key = ends(link);
    let link = match made.get(&key) {
        Some(first) => (first.0, first.1, kept.of(first.2, link.2)),
        None => *link,
    };
    made.insert(key, link)?;
    Ok(())
}

/// Links that join different nodes each: the first of those that join the same two nodes, in the order of the links,
/// with the weight that is kept of all of them. The error says that memory ran out.
pub fn merged(alloc: Global, links: &[Link], kept: Kept) -> Result<Vec<Link>, AllocError>
    ensures merged { IfOk result (λ made. made.items ≡ merged kept links.now) }
{
    let mut made = IndexMap::new(alloc);
    for link in links {
        put(&mut made, link, kept)?;
    }
    Vec::from_slice(alloc, made.values().as_slice())
}
