//! Networks whose nodes stand in blocks: the stochastic block model.
ghost use Rattle.std.specs.Prelude.{◌≡◌, ◌≢◌, ◌≤◌, ◌<◌, ◌⊎◌, ◌++◌, length, replicate, OnOk, IfOk, IfErr, IfNone, IfSome};
ghost use Rattle.std.specs.List.{sum};
ghost use Rattle.link_net.specs.Limits.{most_nodes};
ghost use Rattle.net_random.specs.declared.fault.RandomFault.TheVariants.{TooManyLinks, Memory};
ghost use Rattle.net_random.specs.Blocks.{blocks_of, block_links};
ghost use Rattle.net_random.specs.Chances.{IsChanceFault, IsChanceText};
ghost use Rattle.net_random.specs.RandomNetworks.{AreSimpleLinks};

use crate::chance::hit_links;
use crate::listed::listed;
use crate::{BlockChances, RandomFault};
use link_net::{FieldSet, Link, MOST_LINKS, MOST_NODES};
use net_text::{LinkList, write_network};
use std::alloc::{AllocError, Global};

/// How many nodes blocks of these sizes have together, where that is 1 or more and so many at most.
pub fn block_total(sizes: &[u32], most: u32) -> Option<u32>
    ensures total { IfSome result (λ n. (n ≡ sum sizes.now) × (1 ≤ n) × (n ≤ most)) }
    ensures refused { IfNone result ((sum sizes.now < 1) ⊎ (most < sum sizes.now)) }
{
    let mut nodes: u64 = 0;
    for size in sizes {
        nodes += *size as u64;
        if nodes > most as u64 {
            return None;
        }
    }
    if nodes < 1 {
        return None;
    }
    Some(nodes as u32)
}

/// Puts the nodes of a block after those of others.
fn put_block(blocks: &mut Vec<usize>, block: usize, size: u32) -> Result<(), AllocError>
    ensures { OnOk result (blocks.new.items ≡ blocks.old.items ++ replicate size block) }
{
    for _ in 0..size {
        blocks.push(block)?;
    }
    Ok(())
}

/// The block of each node, where blocks have these sizes.
fn blocks_of(alloc: Global, sizes: &[u32]) -> Result<Vec<usize>, AllocError>
    ensures { IfOk result (λ v. v.items ≡ blocks_of sizes.now) }
{
    let mut blocks = Vec::new(alloc);
    for block in 0..sizes.len() {
        put_block(&mut blocks, block, sizes[block])?;
    }
    Ok(blocks)
}

/// The links that are drawn between the nodes of blocks, of which there are so many at most.
pub(crate) fn block_links(
    alloc: Global,
    sizes: &[u32],
    nodes: u32,
    chances: BlockChances,
    most: usize,
    seed: u64,
) -> Result<Vec<Link>, RandomFault>
    requires nodes { nodes ≡ sum sizes.now }
    requires some { 1 ≤ nodes }
    ensures few { IfOk result (λ v. length v.items ≤ most) }
    ensures simple { IfOk result (λ v. AreSimpleLinks nodes v.items) }
    ensures links { IfOk result (λ v. v.items ≡ block_links sizes.now chances seed) }
    ensures many { IfErr result (λ fault. fault ≢ Memory → (fault ≡ TooManyLinks) × (most < length (block_links sizes.now chances seed))) }
{
    let blocks = blocks_of(alloc, sizes)?;
    let links = hit_links(alloc, nodes, &blocks, chances, most, seed)?;
    Ok(links)
}

/// The random network whose nodes stand in blocks of these sizes, those of the first block first (the stochastic block
/// model of Holland, Laskey and Leinhardt, 1983); each link has weight 1. For each pair of nodes the seed draws a number
/// from 0 to 999,999,999, and those are linked whose number is below `within`, where both stand in one block, or below
/// `between`, where they do not. A block may be empty.
///
/// `NodeCount` comes at once, before any memory is taken, where there is no node or more than 65,536, `TooManyLinks` where
/// more than 262,144 links are drawn, `TooManyNeighbours` where they are not too many and a node has more than 4,096
/// neighbours, and `Memory` only where memory runs out, and not where the number of nodes is at fault.
pub fn block_list(
    alloc: Global,
    sizes: &[u32],
    chances: BlockChances,
    seed: u64,
) -> Result<LinkList, RandomFault>
    ensures list { IfOk result (λ list. list ≡ record { nodes = sum sizes.now; links = block_links sizes.now chances seed }) }
    ensures simple { IfOk result (λ list. AreSimpleLinks (sum sizes.now) list.links) }
    ensures size { IfOk result (λ _. (1 ≤ sum sizes.now) × (sum sizes.now ≤ most_nodes)) }
    ensures refused { IfErr result (IsChanceFault (sum sizes.now) (block_links sizes.now chances seed)) }
{
    let Some(nodes) = block_total(sizes, MOST_NODES) else {
        return Err(RandomFault::NodeCount);
    };
    let links = block_links(alloc, sizes, nodes, chances, MOST_LINKS as usize, seed)?;
    let list = listed(alloc, nodes, links)?;
    Ok(list)
}

/// The text of the network file of such a network, in phase 0 and without initial values, or why there is none, as
/// `block_list` says it.
pub fn block_text(
    alloc: Global,
    sizes: &[u32],
    chances: BlockChances,
    seed: u64,
) -> Result<Vec<u8>, RandomFault>
    ensures reads { IfOk result (λ text. IsChanceText (sum sizes.now) (block_links sizes.now chances seed) text.items) }
    ensures size { IfOk result (λ _. (1 ≤ sum sizes.now) × (sum sizes.now ≤ most_nodes)) }
    ensures refused { IfErr result (IsChanceFault (sum sizes.now) (block_links sizes.now chances seed)) }
{
    let list = block_list(alloc, sizes, chances, seed)?;
    let none: Vec<FieldSet> = Vec::new(alloc);
    let text = write_network(alloc, &list, 0, &none)?;
    Ok(text)
}
