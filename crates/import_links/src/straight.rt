//! Links of a node with itself.
ghost use Rattle.std.specs.Prelude.{◌≡◌, ◌≢◌, ◌≤◌, length, OnOk, IfOk, IfErr, Ok, Err};
ghost use Rattle.link_net.specs.Links.{is_self_link};
ghost use Rattle.import_links.specs.declared.settle_fault.SettleFault.TheVariants.{Memory};
ghost use Rattle.import_links.specs.Settling.{is_self_loop, first_self_loop, left_by, straight, unlooped};

use crate::mending::SelfLoops;
use crate::placed::PlacedLink;
use crate::settle_fault::SettleFault;
use std::alloc::{AllocError, Global};

/// Whether a link joins a node with itself.
fn is_self_loop(placed: &PlacedLink) -> bool
    ensures { result ≡ is_self_loop placed.now }
{
    placed.link.0 == placed.link.1
}

/// The line of the first link of a node with itself.
fn first_self_loop(links: &[PlacedLink]) -> Option<u64>
    ensures { result ≡ first_self_loop links.now }
{
    for placed in links {
        if is_self_loop(placed) {
            return Some(placed.line);
        }
    }
    None
}

/// The links that join different nodes.
fn straight(alloc: Global, links: &[PlacedLink]) -> Result<Vec<PlacedLink>, AllocError>
    ensures { IfOk result (λ v. v.items ≡ straight links.now) }
{
    let mut left = Vec::new(alloc);
    for placed in links {
        if !is_self_loop(placed) {
            left.push(*placed)?;
        }
    }
    Ok(left)
}

/// The links without those of a node with itself, where these are dropped; all links, where these are refused.
pub(crate) fn unlooped(
    alloc: Global,
    links: &[PlacedLink],
    self_loops: SelfLoops,
) -> Result<Vec<PlacedLink>, SettleFault>
    ensures left { IfOk result (λ v. v.items ≡ left_by self_loops links.now) }
    ensures few { IfOk result (λ v. length v.items ≤ length links.now) }
    ensures unlooped { IfOk result (λ v. unlooped self_loops links.now ≡ Ok v.items) }
    ensures fault { IfErr result (λ fault. fault ≢ Memory → unlooped self_loops links.now ≡ Err fault) }
    ensures refused { IfErr (unlooped self_loops links.now) (λ fault. result ≡ Err fault) }
{
    match self_loops {
        SelfLoops::Dropped => Ok(straight(alloc, links)?),
        SelfLoops::Refused => match first_self_loop(links) {
            Some(line) => Err(SettleFault::SelfLoop { line }),
            None => Ok(Vec::from_slice(alloc, links)?),
        },
    }
}
