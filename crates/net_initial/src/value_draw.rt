//! Numbers drawn at random, one for each node.
ghost use Rattle.std.specs.Prelude.{◌≡◌, ◌≤◌, length, All, IfOk};
ghost use Rattle.rand_core.specs.Steps.{stream_of, steps_u64_low};
ghost use Rattle.rand_pcg.specs.Pcg.{pcg64};
ghost use Rattle.rand.specs.Uniform.{canon, usize_between};
ghost use Rattle.net_initial.specs.Draws.{stream_by, values_from};

use rand::RngExt;
use rand_core::SeedableRng;
use rand_pcg::Pcg64;
use std::alloc::{AllocError, Global};

/// A number between two, both included.
fn between(rng: &mut Pcg64, low: u32, high: u32) -> u32
    requires { low ≤ high }
    ensures within { (low ≤ result) × (result ≤ high) }
    ensures drawn { (result, stream_of (steps_u64_low pcg64) rng.new) ≡ usize_between canon low high (stream_of (steps_u64_low pcg64) rng.old) }
{
    rng.random_range(low as usize..=high as usize) as u32
}

/// For each of so many nodes a number from `low` to `high`, both included, all of which are alike. The same seed draws the
/// same numbers on every machine: by Canon's method, from the 32-bit words of the generator PCG XSL RR 128/64 that the seed
/// starts.
pub fn drawn_values(
    alloc: Global,
    nodes: u32,
    low: u32,
    high: u32,
    seed: u64,
) -> Result<Vec<u32>, AllocError>
    requires { low ≤ high }
    ensures count { IfOk result (λ v. length v.items ≡ nodes) }
    ensures within { IfOk result (λ v. All (λ x. (low ≤ x) × (x ≤ high)) v.items) }
    ensures drawn { IfOk result (λ v. v.items ≡ values_from nodes low high (stream_by seed)) }
{
    let mut rng = Pcg64::seed_from_u64(seed);
    let mut values = Vec::with_capacity(alloc, nodes as usize)?;
    for _node in 0..nodes {
        let value = between(&mut rng, low, high);
        values.push(value)?;
    }
    Ok(values)
}
