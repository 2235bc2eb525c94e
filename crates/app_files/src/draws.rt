//! Nodes that the words of `--set-random` draw.
ghost use Rattle.std.specs.Prelude.{◌≡◌, ◌<◌, ◌+◌, ◌%◌, ◌^◌, length, map, IfOk};
ghost use Rattle.std.specs.List.{flat_map, sum};
ghost use Rattle.std.specs.Result.{IsErr};
ghost use Rattle.rand.specs.Sample.{IsSampleOf};
ghost use Rattle.net_initial.specs.Draws.{amount_of};

use crate::ending::Ending;
use net_initial::{Amount, DrawFault, drawn_nodes};
use std::alloc::{AllocError, Global};

/// The seed of the word of `--set-random` that follows a word with this one; of the first word where this is the seed that
/// the command names. So words draw by different seeds, and by none that a command can name.
pub fn next_draw(seed: u64) -> u64
    ensures { result ≡ (seed + 2 ^ 32) % 2 ^ 64 }
{
    seed.wrapping_add(4_294_967_296)
}

/// How many of so many nodes each of the amounts is.
fn counts_of(alloc: Global, nodes: u32, amounts: &[Amount]) -> Result<Vec<u64>, AllocError>
    ensures { IfOk result (λ v. v.items ≡ map (λ amount. amount_of amount nodes) amounts.now) }
{
    let mut counts = Vec::with_capacity(alloc, amounts.len())?;
    for amount in amounts {
        counts.push(amount.of_nodes(nodes))?;
    }
    Ok(counts)
}

/// What is told where so many nodes are asked for, and the words before leave fewer.
fn too_many(alloc: Global, nodes: u32, left: u32, count: u64) -> Result<String, AllocError> {
    if left == nodes {
        return format!(in alloc;
            "--set-random: {count} nodes are asked for, and the network has {nodes}"
        );
    }
    format!(in alloc;
        "--set-random: {count} nodes are asked for, and of {nodes} the words before leave {left}; with --overlap each draws among all nodes"
    )
}

/// The ending where no nodes are drawn.
fn no_draw(alloc: Global, nodes: u32, counts: &[u64], fault: DrawFault) -> Ending {
    match fault {
        DrawFault::TooManyNodes { place, left } => {
            let count = counts.get(place).copied().unwrap_or(0);
            Ending::usage(too_many(alloc, nodes, left, count))
        }
        DrawFault::Memory => Ending::Memory,
    }
}

/// Puts lists after others.
fn put_parts(parts: &mut Vec<Vec<u32>>, drawn: Vec<Vec<u32>>) -> Result<(), AllocError> {
    for part in drawn {
        parts.push(part)?;
    }
    Ok(())
}

/// For each of the amounts so many nodes of a network, which words of `--set-random` draw under the seed that the command
/// names: all of them different ones, or each amount among all nodes. Invalid arguments where the network has fewer.
pub fn drawn_parts(
    alloc: Global,
    nodes: u32,
    amounts: &[Amount],
    seed: u32,
    overlap: bool,
) -> Result<Vec<Vec<u32>>, Ending> {
    let mut draw = next_draw(seed as u64);
    if !overlap {
        return drawn_for(alloc, nodes, amounts, draw);
    }
    let mut parts = Vec::with_capacity(alloc, amounts.len())?;
    for amount in amounts.chunks(1) {
        put_parts(&mut parts, drawn_for(alloc, nodes, amount, draw)?)?;
        draw = next_draw(draw);
    }
    Ok(parts)
}

/// For each of the amounts so many nodes of a network, which words of `--set-random` draw by a seed; all of them are
/// different ones. Invalid arguments where the network has fewer.
pub fn drawn_for(
    alloc: Global,
    nodes: u32,
    amounts: &[Amount],
    seed: u64,
) -> Result<Vec<Vec<u32>>, Ending>
    ensures drawn { IfOk result (λ v. IsSampleOf nodes (sum (map (λ amount. amount_of amount nodes) amounts.now)) (flat_map (λ part. part.items) v.items)) }
    ensures counts { IfOk result (λ v. map (λ part. length part.items) v.items ≡ map (λ amount. amount_of amount nodes) amounts.now) }
    ensures refused { nodes < sum (map (λ amount. amount_of amount nodes) amounts.now) → IsErr result }
{
    let counts = counts_of(alloc, nodes, amounts)?;
    match drawn_nodes(alloc, nodes, &counts, seed) {
        Ok(drawn) => Ok(drawn),
        Err(fault) => Err(no_draw(alloc, nodes, &counts, fault)),
    }
}
