//! Links that are drawn by changing those round a ring.
ghost use Rattle.std.specs.Prelude.{◌≡◌, ◌≤◌, ◌<◌, ◌*◌, ℕ, IfOk, OnOk};
ghost use Rattle.net_random.specs.declared.random_network.RandomNetwork.TheVariants.{SmallWorld};
ghost use Rattle.net_random.specs.Changed.{AreKnown};
ghost use Rattle.net_random.specs.RandomNetworks.{pair_count, IsOutcome, starts};

use crate::changed::Changed;
use crate::lattice::{put_opposite, ring_links};
use link_net::Link;
use rand::RngExt;
use rand_pcg::Pcg64;
use std::alloc::{AllocError, Global};

/// How often each link is exchanged with another one.
const EXCHANGES: u32 = 5;

/// How often a node is drawn at most for a link that is led elsewhere.
const MOST_LEADS: u32 = 64;

/// Exchanges the ends of each link with one that is drawn.
fn exchange_each(rng: &mut Pcg64, changed: &mut Changed) -> Result<(), AllocError> {
    let count = changed.len();
    for place in 0..count {
        let other = rng.random_range(0..count);
        changed.exchange(place, other, rng.random())?;
    }
    Ok(())
}

/// Links of which each node has so many: those round a ring, after exchanges.
pub(crate) fn regular_links(
    alloc: Global,
    rng: &mut Pcg64,
    nodes: u32,
    degree: u32,
) -> Result<Vec<Link>, AllocError> {
    let mut links = ring_links(alloc, nodes, degree / 2)?;
    if degree % 2 == 1 {
        put_opposite(&mut links, nodes)?;
    }
    let mut changed = Changed::new(alloc, links)?;
    for _ in 0..EXCHANGES {
        exchange_each(rng, &mut changed)?;
    }
    Ok(changed.into_links())
}

/// Leads a link to a node that is drawn, where one is found.
fn lead_elsewhere(
    rng: &mut Pcg64,
    changed: &mut Changed,
    place: usize,
    nodes: u32,
) -> Result<(), AllocError>
    requires { 1 ≤ nodes }
    ensures known { OnOk result (AreKnown nodes changed.old.links.items changed.old.pairs.keys
        → AreKnown nodes changed.new.links.items changed.new.pairs.keys) }
    ensures starts { OnOk result (starts changed.new.links.items ≡ starts changed.old.links.items) }
{
    for _ in 0..MOST_LEADS {
        let node = rng.random_range(0..nodes);
        if changed.lead(place, node)? {
            return Ok(());
        }
    }
    Ok(())
}

/// The links of a small world: those round a ring, of which `rewire` in `of` are led elsewhere.
pub(crate) fn small_world_links(
    alloc: Global,
    rng: &mut Pcg64,
    nodes: u32,
    near: u32,
    rewire: u32,
    of: u32,
) -> Result<Vec<Link>, AllocError>
    requires some { 1 ≤ nodes }
    requires room { nodes * near ≤ pair_count nodes }
    ensures { IfOk result (λ v. IsOutcome (SmallWorld nodes near rewire of) v.items) }
{
    let mut changed = Changed::new(alloc, ring_links(alloc, nodes, near)?)?;
    for place in 0..changed.len() {
        if rng.random_range(0..of.max(1)) < rewire {
            lead_elsewhere(rng, &mut changed, place, nodes)?;
        }
    }
    Ok(changed.into_links())
}
