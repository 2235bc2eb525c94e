//! Links whose weights are drawn.
ghost use Rattle.std.specs.Prelude.{◌≡◌, ◌≤◌, map, IfOk, IfErr};
ghost use Rattle.net_random.specs.Weights.{ends, AllBetween, HasWeights, IsFaultOf};

use crate::WeightFault;
use link_net::Link;
use net_text::LinkList;
use rand::RngExt;
use rand_core::SeedableRng;
use rand_pcg::Pcg64;
use std::alloc::{AllocError, Global};

/// From where to where the weights of links are drawn, both ends included, and by which seed. A `high` below `low` is taken
/// as `low`.
#[derive(Clone, Copy)]
pub struct WeightDraw {
    pub low: u32,
    pub high: u32,
    pub seed: u64,
}

/// The links in their order, each with a weight from `low` to `high`, all of which are alike.
fn drawn_weights(
    alloc: Global,
    rng: &mut Pcg64,
    links: &[Link],
    low: u32,
    high: u32,
) -> Result<Vec<Link>, AllocError>
    requires { low ≤ high }
    ensures ends { IfOk result (λ v. map ends v.items ≡ map ends links.now) }
    ensures weights { IfOk result (λ v. AllBetween low high v.items) }
{
    let mut drawn = Vec::with_capacity(alloc, links.len())?;
    for link in links {
        let weight = rng.random_range(low..=high);
        drawn.push((link.0, link.1, weight))?;
    }
    Ok(drawn)
}

/// The links in their order, with weights that are drawn where that is asked, and else as they are.
pub(crate) fn with_weights(
    alloc: Global,
    links: Vec<Link>,
    weights: Option<WeightDraw>,
) -> Result<Vec<Link>, AllocError>
    ensures weights { IfOk result (λ v. HasWeights weights links.items v.items) }
{
    let Some(asked) = weights else {
        return Ok(links);
    };
    let mut rng = Pcg64::seed_from_u64(asked.seed);
    drawn_weights(
        alloc,
        &mut rng,
        &links,
        asked.low,
        asked.high.max(asked.low),
    )
}

/// The links of the list in their order, each with a weight from `low` to `high`, both included, that the seed draws;
/// the weights that they had are not looked at. `NoWeight` where `low` is above `high`; `Memory` only where memory runs
/// out, and not where there is no weight.
pub fn weighted(
    alloc: Global,
    list: &LinkList,
    low: u32,
    high: u32,
    seed: u64,
) -> Result<LinkList, WeightFault>
    ensures nodes { IfOk result (λ drawn. drawn.nodes ≡ list.now.nodes) }
    ensures ends { IfOk result (λ drawn. map ends drawn.links ≡ map ends list.now.links) }
    ensures weights { IfOk result (λ drawn. AllBetween low high drawn.links) }
    ensures fits { IfOk result (λ _. low ≤ high) }
    ensures refused { IfErr result (IsFaultOf low high) }
{
    if low > high {
        return Err(WeightFault::NoWeight);
    }
    let mut rng = Pcg64::seed_from_u64(seed);
    let links = drawn_weights(alloc, &mut rng, list.links(), low, high)?;
    Ok(LinkList::sound(list.nodes(), links))
}
