//! Nodes drawn at random.
ghost use Rattle.std.specs.Prelude.{◌≡◌, ◌≢◌, ◌+◌, ◌<◌, ◌≤◌, ◌^◌, ℕ, length, map, All, Err, IfOk, IfErr};
ghost use Rattle.std.specs.List.{flat_map, sum};
ghost use Rattle.rand.specs.Sample.{IsSampleOf};
ghost use Rattle.net_initial.specs.declared.draw.DrawFault.TheVariants.{TooManyNodes, Memory};
ghost use Rattle.net_initial.specs.Draws.{IsBeyond};

use rand::seq::index::sample;
use rand_core::SeedableRng;
use rand_pcg::Pcg64;
use std::alloc::{AllocError, Global};
use thiserror::Error;

/// Why no nodes are drawn.
#[derive(Clone, Copy, Debug, PartialEq, Eq, Error)]
pub enum DrawFault {
    /// The count at this place, counted from 0, is more than so many nodes, which those before it leave.
    #[error("TooManyNodes")]
    TooManyNodes { place: usize, left: u32 },
    /// Memory ran out.
    #[error("Memory")]
    Memory,
}

impl From<AllocError> for DrawFault {
    ghost from_gives = { λ _ e. e ≡ Memory };

    fn from(_error: AllocError) -> DrawFault {
        DrawFault::Memory
    }
}

/// How many nodes all counts leave, or the first count that is more than those before it leave.
fn left_by(nodes: u32, counts: &[u64]) -> Result<u32, DrawFault>
    ensures left { IfOk result (λ left. left + sum counts.now ≡ nodes) }
    ensures beyond { IfErr result (λ fault. IsBeyond nodes counts.now fault) }
{
    let mut left = nodes;
    for place in 0..counts.len() {
        let count = counts[place];
        if count > left as u64 {
            return Err(DrawFault::TooManyNodes { place, left });
        }
        left -= count as u32;
    }
    Ok(left)
}

/// Places as numbers of nodes.
fn as_nodes(alloc: Global, places: &[usize]) -> Result<Vec<u32>, AllocError>
    requires { All (λ place. place < 2 ^ 32) places.now }
    ensures { IfOk result (λ v. v.items ≡ places.now) }
{
    let mut nodes = Vec::with_capacity(alloc, places.len())?;
    for place in places {
        nodes.push(*place as u32)?;
    }
    Ok(nodes)
}

/// So many different nodes, drawn at random, in the order in which they are drawn.
fn sampled(alloc: Global, nodes: u32, count: u32, seed: u64) -> Result<Vec<u32>, AllocError>
    requires { count ≤ nodes }
    ensures drawn { IfOk result (λ v. IsSampleOf nodes count v.items) }
{
    let mut rng = Pcg64::seed_from_u64(seed);
    let places = sample(alloc, &mut rng, nodes as usize, count as usize)?;
    let drawn = as_nodes(alloc, places.into_vec().as_slice())?;
    Ok(drawn)
}

/// Nodes in parts of these lengths, one after the other.
fn parted(alloc: Global, nodes: &[u32], counts: &[u64]) -> Result<Vec<Vec<u32>>, AllocError>
    requires { sum counts.now ≡ length nodes.now }
    ensures counts { IfOk result (λ v. map (λ part. length part.items) v.items ≡ counts.now) }
    ensures nodes { IfOk result (λ v. flat_map (λ part. part.items) v.items ≡ nodes.now) }
{
    let mut parts = Vec::with_capacity(alloc, counts.len())?;
    let mut rest = nodes;
    for count in counts {
        let (part, behind) = rest.split_at(*count as usize);
        parts.push(Vec::from_slice(alloc, part)?)?;
        rest = behind;
    }
    Ok(parts)
}

/// For each count so many nodes of a network with so many nodes, drawn at random; all of them are different ones. The same
/// seed and counts draw the same nodes on every machine. `Memory` comes only where memory runs out, and where nothing
/// refuses.
pub fn drawn_nodes(
    alloc: Global,
    nodes: u32,
    counts: &[u64],
    seed: u64,
) -> Result<Vec<Vec<u32>>, DrawFault>
    ensures counts { IfOk result (λ v. map (λ part. length part.items) v.items ≡ counts.now) }
    ensures drawn { IfOk result (λ v. IsSampleOf nodes (sum counts.now) (flat_map (λ part. part.items) v.items)) }
    ensures refused { IfErr result (λ fault. fault ≢ DrawFault.Memory → IsBeyond nodes counts.now fault) }
    ensures at_once { nodes < sum counts.now → (place : ℕ) × (left : ℕ) × (result ≡ Err (TooManyNodes place left)) }
{
    let left = left_by(nodes, counts)?;
    let drawn = sampled(alloc, nodes, nodes - left, seed)?;
    let parts = parted(alloc, drawn.as_slice(), counts)?;
    Ok(parts)
}
