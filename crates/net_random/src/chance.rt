//! Networks each of whose pairs of nodes is linked with a chance.
ghost use Rattle.std.specs.Prelude.{◌≡◌, ◌≢◌, ◌≤◌, ◌<◌, ◌+◌, ◌++◌, ℕ, List, length, IfOk, IfErr, OnOk};
ghost use Rattle.rand_core.specs.Steps.{stream_of, steps_u64_low};
ghost use Rattle.rand_pcg.specs.Pcg.{pcg64};
ghost use Rattle.link_net.specs.Limits.{most_nodes};
ghost use Rattle.net_random.specs.declared.fault.RandomFault.TheVariants.{TooManyLinks, Memory};
ghost use Rattle.net_random.specs.Blocks.{pair_chance};
ghost use Rattle.net_random.specs.Chances.{IsChanceFault, IsChanceText, chance_at, chance_links, links_by_chance, number_in, place_before, places_from};
ghost use Rattle.net_random.specs.Pairs.{place_count};
ghost use Rattle.net_random.specs.RandomNetworks.{AreSimpleLinks};

use crate::listed::listed;
use crate::pair_chance::is_hit;
use crate::pairs::{links_at, place_count};
use crate::{BlockChances, RandomFault};
use link_net::{FieldSet, Link, MOST_LINKS, MOST_NODES};
use net_text::{LinkList, write_network};
use rand::RngExt;
use rand_core::SeedableRng;
use rand_pcg::Pcg64;
use std::alloc::Global;

/// The greatest number that is drawn for a pair: one less than there are billionths.
const GREATEST: usize = 999_999_999;

/// A number from 0 to 999,999,999.
fn number_in(rng: &mut Pcg64) -> usize
    ensures drawn { (result, stream_of (steps_u64_low pcg64) rng.new) ≡ number_in (stream_of (steps_u64_low pcg64) rng.old) }
{
    rng.random_range(0..=GREATEST)
}

/// Puts a place after others, of which there are so many at most, where it is hit.
fn put_place(
    places: &mut Vec<usize>,
    place: usize,
    hit: bool,
    most: usize,
) -> Result<(), RandomFault>
    requires few { length places.old.items ≤ most }
    ensures few { OnOk result (length places.new.items ≤ most) }
    ensures put { OnOk result ((rest : List ℕ) → places.new.items ++ rest ≡ places.old.items ++ place_before hit place rest) }
    ensures many { IfErr result (λ fault. fault ≢ Memory → (fault ≡ TooManyLinks) × ((rest : List ℕ) → most < length (places.old.items ++ place_before hit place rest))) }
{
    if !hit {
        return Ok(());
    }
    if places.len() >= most {
        return Err(RandomFault::TooManyLinks);
    }
    places.push(place)?;
    Ok(())
}

/// The places of all pairs whose numbers are below their chance, of which there are so many at most.
fn hit_places(
    alloc: Global,
    rng: &mut Pcg64,
    nodes: u32,
    blocks: &[usize],
    chances: BlockChances,
    most: usize,
) -> Result<Vec<usize>, RandomFault>
    requires some { 1 ≤ nodes }
    ensures few { IfOk result (λ v. length v.items ≤ most) }
    ensures drawn { IfOk result (λ v. v.items ≡ places_from (chance_at (pair_chance blocks.now chances) nodes) (place_count nodes) 0 (stream_of (steps_u64_low pcg64) rng.old)) }
    ensures many { IfErr result (λ fault. fault ≢ Memory → (fault ≡ TooManyLinks) × (most < length (places_from (chance_at (pair_chance blocks.now chances) nodes) (place_count nodes) 0 (stream_of (steps_u64_low pcg64) rng.old)))) }
{
    let mut places = Vec::new(alloc);
    for place in 0..place_count(nodes) {
        let number = number_in(rng);
        let hit = is_hit(nodes, blocks, chances, place, number);
        put_place(&mut places, place, hit, most)?;
    }
    Ok(places)
}

/// The links of the pairs whose numbers are below their chance, of which there are so many at most; each node stands in the
/// block that is told for it.
pub(crate) fn hit_links(
    alloc: Global,
    nodes: u32,
    blocks: &[usize],
    chances: BlockChances,
    most: usize,
    seed: u64,
) -> Result<Vec<Link>, RandomFault>
    requires some { 1 ≤ nodes }
    ensures few { IfOk result (λ v. length v.items ≤ most) }
    ensures simple { IfOk result (λ v. AreSimpleLinks nodes v.items) }
    ensures links { IfOk result (λ v. v.items ≡ links_by_chance (pair_chance blocks.now chances) nodes seed) }
    ensures many { IfErr result (λ fault. fault ≢ Memory → (fault ≡ TooManyLinks) × (most < length (links_by_chance (pair_chance blocks.now chances) nodes seed))) }
{
    let mut rng = Pcg64::seed_from_u64(seed);
    let places = hit_places(alloc, &mut rng, nodes, blocks, chances, most)?;
    let links = links_at(alloc, nodes, &places)?;
    Ok(links)
}

/// The links of the pairs that are drawn with the same chance, of which there are so many at most. Where nodes of one block
/// and of two blocks have the same chance, it does not matter in which block they stand.
pub(crate) fn even_links(
    alloc: Global,
    nodes: u32,
    billionths: u32,
    most: usize,
    seed: u64,
) -> Result<Vec<Link>, RandomFault>
    requires some { 1 ≤ nodes }
    ensures few { IfOk result (λ v. length v.items ≤ most) }
    ensures simple { IfOk result (λ v. AreSimpleLinks nodes v.items) }
    ensures links { IfOk result (λ v. v.items ≡ chance_links nodes billionths seed) }
    ensures many { IfErr result (λ fault. fault ≢ Memory → (fault ≡ TooManyLinks) × (most < length (chance_links nodes billionths seed))) }
{
    let chances = BlockChances {
        within: billionths,
        between: billionths,
    };
    hit_links(alloc, nodes, &[], chances, most, seed)
}

/// The random network of so many nodes each pair of which is linked with the same chance, of so many billionths (Gilbert
/// 1959); each link has weight 1. For each pair the seed draws a number from 0 to 999,999,999, and those are linked whose
/// number is below `billionths`: none for 0, all for 1,000,000,000 or more.
///
/// `NodeCount` comes at once where there is no node or more than 65,536, `TooManyLinks` where more than 262,144 links are
/// drawn, `TooManyNeighbours` where they are not too many and a node has more than 4,096 neighbours, and `Memory` only
/// where memory runs out, and not where the number of nodes is at fault.
pub fn chance_list(
    alloc: Global,
    nodes: u32,
    billionths: u32,
    seed: u64,
) -> Result<LinkList, RandomFault>
    ensures list { IfOk result (λ list. list ≡ record { nodes = nodes; links = chance_links nodes billionths seed }) }
    ensures simple { IfOk result (λ list. AreSimpleLinks nodes list.links) }
    ensures size { IfOk result (λ _. (1 ≤ nodes) × (nodes ≤ most_nodes)) }
    ensures refused { IfErr result (IsChanceFault nodes (chance_links nodes billionths seed)) }
{
    if nodes < 1 || nodes > MOST_NODES {
        return Err(RandomFault::NodeCount);
    }
    let links = even_links(alloc, nodes, billionths, MOST_LINKS as usize, seed)?;
    let list = listed(alloc, nodes, links)?;
    Ok(list)
}

/// The text of the network file of such a network, in phase 0 and without initial values, or why there is none, as
/// `chance_list` says it.
pub fn chance_text(
    alloc: Global,
    nodes: u32,
    billionths: u32,
    seed: u64,
) -> Result<Vec<u8>, RandomFault>
    ensures reads { IfOk result (λ text. IsChanceText nodes (chance_links nodes billionths seed) text.items) }
    ensures size { IfOk result (λ _. (1 ≤ nodes) × (nodes ≤ most_nodes)) }
    ensures refused { IfErr result (IsChanceFault nodes (chance_links nodes billionths seed)) }
{
    let list = chance_list(alloc, nodes, billionths, seed)?;
    let none: Vec<FieldSet> = Vec::new(alloc);
    let text = write_network(alloc, &list, 0, &none)?;
    Ok(text)
}
