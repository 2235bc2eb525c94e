//! Which nodes are enabled, and which of them are drawn.
ghost use Rattle.std.specs.Prelude.{◌≡◌, ◌<◌, ◌&&◌, ◌++◌, ◌∷◌, [], length, IfOk, OnOk, if◌then◌else◌};
ghost use Rattle.unison_world.specs.Turns.{any_behind};
ghost use Rattle.run_schedule.specs.Daemons.{AreDrawn, MayBePut, free_nodes, is_but, is_enabled, is_free};

use crate::walk::Walk;
use rand::RngExt;
use rand_pcg::Pcg64;
use std::alloc::{AllocError, Global};

/// Whether some neighbour of a node has moved less often.
fn any_behind(walk: &Walk, node: u32) -> bool
    requires node { node < length walk.now.world.plan.network }
    ensures behind { result ≡ any_behind walk.now.world.plan.network walk.now.world.counts node }
{
    let neighbours = walk.network().neighbours_of(node);
    for slot in 0..neighbours.len() {
        if walk.is_behind(neighbours[slot], node) {
            return true;
        }
    }
    false
}

/// Whether a node is enabled.
fn is_enabled(walk: &Walk, node: u32) -> bool
    ensures { result ≡ is_enabled walk.now.world.plan.network walk.now.world.stop walk.now.world.counts node }
{
    node < walk.network().nodes() && !walk.is_at_stop(node) && !any_behind(walk, node)
}

/// Whether a node is not this one, where there is one.
fn is_but(but: Option<u32>, node: u32) -> bool
    ensures { result ≡ is_but but node }
{
    match but {
        None => true,
        Some(other) => node != other,
    }
}

/// Whether a node is enabled, and not this one.
pub(crate) fn is_free(walk: &Walk, but: Option<u32>, node: u32) -> bool
    ensures { result ≡ is_free walk.now.world but node }
{
    is_but(but, node) && is_enabled(walk, node)
}

/// Puts a node at the end, where it is free.
fn put_free(walk: &Walk, but: Option<u32>, free: &mut Vec<u32>, node: u32) -> Result<(), AllocError>
    ensures put { OnOk result (free.new.items ≡ (if is_free walk.now.world but node then free.old.items ++ node ∷ [] else free.old.items)) }
{
    if is_free(walk, but, node) {
        free.push(node)?;
    }
    Ok(())
}

/// The enabled nodes by rising number, without this one.
pub(crate) fn free_nodes(
    alloc: Global,
    walk: &Walk,
    but: Option<u32>,
) -> Result<Vec<u32>, AllocError>
    ensures free { IfOk result (λ v. v.items ≡ free_nodes walk.now.world but) }
{
    let mut free = Vec::new(alloc);
    for node in 0..walk.network().nodes() {
        put_free(walk, but, &mut free, node)?;
    }
    Ok(free)
}

/// Puts a node at the end, where it is enabled, with so many chances of a hundred.
fn put_drawn(
    walk: &Walk,
    rng: &mut Pcg64,
    share: u32,
    drawn: &mut Vec<u32>,
    node: u32,
) -> Result<(), AllocError>
    ensures put { OnOk result (MayBePut walk.now.world share node drawn.old.items drawn.new.items) }
{
    if is_free(walk, None, node) && rng.random_range(0..100u32) < share {
        drawn.push(node)?;
    }
    Ok(())
}

/// The enabled nodes that are drawn, by rising number: each with so many chances of a hundred.
pub(crate) fn drawn_nodes(
    alloc: Global,
    walk: &Walk,
    rng: &mut Pcg64,
    share: u32,
) -> Result<Vec<u32>, AllocError>
    ensures drawn { IfOk result (λ v. AreDrawn walk.now.world share v.items) }
{
    let mut drawn = Vec::new(alloc);
    for node in 0..walk.network().nodes() {
        put_drawn(walk, rng, share, &mut drawn, node)?;
    }
    Ok(drawn)
}
