//! Different nodes before a node, drawn in proportion to the links that they have.
ghost use Rattle.std.specs.Prelude.{◌≡◌, ◌≤◌, ◌<◌, ℕ, min, length, OnOk, IfOk, IfSome};
ghost use Rattle.link_net.specs.Links.{AllWithin};
ghost use Rattle.link_net.specs.Limits.{most_rows};
ghost use Rattle.net_random.specs.Growth.{IsChoice, with_choice};

use indexmap::IndexSet;
use link_net::Link;
use rand::RngExt;
use rand::seq::IndexedRandom;
use rand_pcg::Pcg64;
use std::alloc::{AllocError, Global};

/// How often a node is drawn at most for each one that is wanted.
const MOST_DRAWS: usize = 64;

/// An end of a link, all of which are alike, so that a node comes in proportion to the links that it has. Where there is no
/// link there is none.
fn drawn_end(rng: &mut Pcg64, links: &[Link]) -> Option<u32>
    ensures { IfSome result (λ end. (n : ℕ) → AllWithin n links.now → end < n) }
{
    let link = links.choose(rng)?;
    let first: bool = rng.random();
    Some(if first { link.0 } else { link.1 })
}

/// Adds a node to the chosen ones, where it is not among them yet.
fn choose(chosen: &mut IndexSet<u32>, node: u32) -> Result<(), AllocError>
    ensures { OnOk result (chosen.new.keys ≡ with_choice node chosen.old.keys) }
{
    chosen.insert(node)?;
    Ok(())
}

/// Different nodes in proportion to the links that they have, so many or fewer: the draws are bounded.
fn drawn_nodes(
    alloc: Global,
    rng: &mut Pcg64,
    links: &[Link],
    count: usize,
) -> Result<IndexSet<u32>, AllocError>
    requires { count ≤ most_rows }
    ensures different { IfOk result (λ v. (n : ℕ) → AllWithin n links.now → IsChoice n v.keys) }
    ensures few { IfOk result (λ v. length v.keys ≤ count) }
{
    let mut chosen = IndexSet::with_capacity(alloc, count)?;
    for _ in 0..MOST_DRAWS * count {
        if chosen.len() >= count {
            return Ok(chosen);
        }
        if let Some(end) = drawn_end(rng, links) {
            choose(&mut chosen, end)?;
        }
    }
    Ok(chosen)
}

/// Adds the lowest-numbered nodes before a node that are not chosen yet, until there are so many.
fn fill(chosen: &mut IndexSet<u32>, node: u32, count: usize) -> Result<(), AllocError>
    requires different { IsChoice node chosen.old.keys }
    requires few { length chosen.old.keys ≤ count }
    requires enough { count ≤ node }
    ensures different { OnOk result (IsChoice node chosen.new.keys) }
    ensures count { OnOk result (length chosen.new.keys ≡ count) }
{
    for other in 0..node {
        if chosen.len() >= count {
            return Ok(());
        }
        choose(chosen, other)?;
    }
    Ok(())
}

/// So many different nodes before a node, or all of them where they are fewer, drawn in proportion to the links that they
/// have. Where the draws run out the lowest-numbered ones are taken.
pub(crate) fn chosen_nodes(
    alloc: Global,
    rng: &mut Pcg64,
    links: &[Link],
    node: u32,
    each: u32,
) -> Result<IndexSet<u32>, AllocError>
    requires within { AllWithin node links.now }
    ensures different { IfOk result (λ v. IsChoice node v.keys) }
    ensures count { IfOk result (λ v. length v.keys ≡ min each node) }
{
    let count = each.min(node) as usize;
    let draws = if each < node { count } else { 0 };
    let mut chosen = drawn_nodes(alloc, rng, links, draws)?;
    fill(&mut chosen, node, count)?;
    Ok(chosen)
}
