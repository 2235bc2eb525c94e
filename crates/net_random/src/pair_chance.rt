//! With which chance two nodes are linked.
ghost use Rattle.std.specs.Prelude.{◌≡◌, ◌≤◌, ◌<◌, ◌==◌, get_or, nat_lt};
ghost use Rattle.net_random.specs.Blocks.{pair_chance};
ghost use Rattle.net_random.specs.Chances.{chance_at};
ghost use Rattle.net_random.specs.Pairs.{place_count};

use crate::pairs::link_at;
use link_net::Link;

/// With which chances, in billionths, two nodes of one block and two nodes of different blocks are linked: 0 for none,
/// 1,000,000,000 or more for all.
#[derive(Clone, Copy)]
pub struct BlockChances {
    pub within: u32,
    pub between: u32,
}

/// The block of a node; where none is told, 0.
fn block_at(blocks: &[usize], node: u32) -> usize
    ensures { result ≡ get_or blocks.now node 0 }
{
    match blocks.get(node as usize) {
        Some(block) => *block,
        None => 0,
    }
}

/// The chance, in billionths, with which the two nodes of a link are linked.
fn pair_chance(blocks: &[usize], chances: BlockChances, link: Link) -> u32
    ensures { result ≡ pair_chance blocks.now chances link }
{
    if block_at(blocks, link.0) == block_at(blocks, link.1) {
        chances.within
    } else {
        chances.between
    }
}

/// Whether the number that was drawn for a place is below the chance of its pair.
pub(crate) fn is_hit(
    nodes: u32,
    blocks: &[usize],
    chances: BlockChances,
    place: usize,
    number: usize,
) -> bool
    requires some { 1 ≤ nodes }
    requires low { place < place_count nodes }
    ensures { result ≡ nat_lt number (chance_at (pair_chance blocks.now chances) nodes place) }
{
    if number >= chances.within.max(chances.between) as usize {
        return false;
    }
    number < pair_chance(blocks, chances, link_at(nodes, place)) as usize
}
