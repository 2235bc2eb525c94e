//! Links that join the same two nodes.
ghost use Rattle.std.specs.Prelude.{◌≡◌, ◌≢◌, ◌≤◌, length, OnOk, IfOk, IfErr, Ok, Err};
ghost use Rattle.import_links.specs.declared.settle_fault.SettleFault.TheVariants.{Memory};
ghost use Rattle.import_links.specs.Settling.{first_parallel, links_of, single};

use crate::mending::ParallelLinks;
use crate::merging::{ends, merged};
use crate::placed::PlacedLink;
use crate::settle_fault::SettleFault;
use indexmap::IndexMap;
use link_net::Link;
use std::alloc::{AllocError, Global};

/// The links without their lines.
fn plain(alloc: Global, links: &[PlacedLink]) -> Result<Vec<Link>, AllocError>
    ensures { IfOk result (λ v. v.items ≡ links_of links.now) }
{
    let mut plain = Vec::with_capacity(alloc, links.len())?;
    for placed in links {
        plain.push(placed.link)?;
    }
    Ok(plain)
}

/// The lines of the first link that joins the same two nodes as an earlier one, and of the first of those.
fn first_parallel(alloc: Global, links: &[PlacedLink]) -> Result<Option<(u64, u64)>, AllocError>
    ensures { IfOk result (λ lines. lines ≡ first_parallel links.now) }
{
    let mut lines = IndexMap::new(alloc);
    for placed in links {
        let key = ends(&placed.link);
        if let Some(first) = lines.get(&key) {
            return Ok(Some((placed.line, *first)));
        }
        lines.insert(key, placed.line)?;
    }
    Ok(None)
}

/// One link for each two nodes that links join.
pub(crate) fn single(
    alloc: Global,
    links: &[PlacedLink],
    parallel: ParallelLinks,
) -> Result<Vec<Link>, SettleFault>
    ensures single { IfOk result (λ v. single parallel links.now ≡ Ok v.items) }
    ensures few { IfOk result (λ v. length v.items ≤ length links.now) }
    ensures fault { IfErr result (λ fault. fault ≢ Memory → single parallel links.now ≡ Err fault) }
{
    let plain = plain(alloc, links)?;
    match parallel {
        ParallelLinks::Merged(kept) => Ok(merged(alloc, plain.as_slice(), kept)?),
        ParallelLinks::Refused => match first_parallel(alloc, links)? {
            Some((line, first)) => Err(SettleFault::ParallelEdge { line, first }),
            None => Ok(plain),
        },
    }
}
