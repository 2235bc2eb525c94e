//! Links that were drawn by trial, and whether they make the network that is asked for.
ghost use Rattle.std.specs.Prelude.{◌≡◌, ◌≤◌, ◌<◌, ◌⊎◌, ℕ, true, false, length, IfOk, IfErr};
ghost use Rattle.std.specs.Bool.{OnTrue};
ghost use Rattle.std.specs.List.{AllByRecursion, list_any};
ghost use Rattle.link_net.specs.Links.{has_link_twice, is_self_link, network_of};
ghost use Rattle.link_net.specs.Neighbours.{degree};
ghost use Rattle.net_random.specs.declared.fault.RandomFault.TheVariants.{Undrawn, Memory};
ghost use Rattle.net_random.specs.RandomNetworks.{node_count, link_count, is_by_trial, AreSimpleLinks, IsOutcome, IsDegree};
ghost use Rattle.net_random.specs.Sizes.{most_large_links};

use crate::large::{MOST_LARGE_LINKS, linked};
use crate::sizes::{link_count, node_count};
use crate::{RandomFault, RandomNetwork};
use link_net::{Link, NetFault, NetRows, has_self_link, sorted_arcs};
use net_text::all_within;
use std::alloc::{AllocError, Global};

/// Whether each link has weight 1.
fn are_plain(links: &[Link]) -> bool
    ensures { OnTrue result (AllByRecursion (λ l. l.2 ≡ 1) links.now) }
{
    links.iter().all(|link| link.2 == 1)
}

/// Whether no link stands twice.
fn stand_once(alloc: Global, links: &[Link]) -> Result<bool, AllocError>
    requires straight { list_any is_self_link links.now ≡ false }
    ensures once { IfOk result (λ once. OnTrue once (has_link_twice links.now ≡ false)) }
{
    match sorted_arcs(alloc, links) {
        Ok(_) => Ok(true),
        Err(NetFault::Memory) => Err(AllocError),
        Err(_) => Ok(false),
    }
}

/// Whether links have weight 1 and join different nodes below so many, no two the same.
#[tactic(auto, using(net_text::proofs::Listings::within_from_test))]
fn are_simple(alloc: Global, nodes: u32, links: &[Link]) -> Result<bool, AllocError>
    ensures simple { IfOk result (λ simple. OnTrue simple (AreSimpleLinks nodes links.now)) }
{
    if !are_plain(links) || !all_within(nodes, links) || has_self_link(links) {
        return Ok(false);
    }
    stand_once(alloc, links)
}

/// Whether a node of such a network may have so many neighbours.
fn is_degree(wanted: &RandomNetwork, neighbours: u32) -> bool
    ensures { OnTrue result (IsDegree wanted.now neighbours) }
{
    match *wanted {
        RandomNetwork::Regular { degree, .. } => neighbours == degree,
        RandomNetwork::SmallWorld { near, .. } => neighbours >= near,
        _ => true,
    }
}

/// Whether each node has as many neighbours as such a network has.
fn has_degrees(wanted: &RandomNetwork, rows: &NetRows<'_>) -> bool
    ensures { OnTrue result ((u : ℕ) → u < length rows.now → IsDegree wanted.now (degree rows.now u)) }
{
    for node in 0..rows.nodes() {
        if !is_degree(wanted, rows.degree_of(node)) {
            return false;
        }
    }
    true
}

/// Whether each node of the network of these links has as many neighbours as such a network has.
fn make_degrees(alloc: Global, wanted: &RandomNetwork, links: &[Link]) -> Result<bool, AllocError>
    requires some { 1 ≤ node_count wanted.now }
    requires few { length links.now ≤ most_large_links }
    requires simple { AreSimpleLinks (node_count wanted.now) links.now }
    ensures degrees { IfOk result (λ made. OnTrue made ((u : ℕ) → u < length (network_of (node_count wanted.now) links.now) → IsDegree wanted.now (degree (network_of (node_count wanted.now) links.now) u))) }
{
    let network = linked(alloc, node_count(wanted), links)?;
    Ok(has_degrees(wanted, &network.rows()))
}

/// Whether links make the network that is asked for, where that is drawn by trial.
fn is_outcome(alloc: Global, wanted: &RandomNetwork, links: &[Link]) -> Result<bool, AllocError>
    requires some { 1 ≤ node_count wanted.now }
    ensures outcome { IfOk result (λ is. OnTrue is (is_by_trial wanted.now ≡ true → IsOutcome wanted.now links.now)) }
{
    if links.len() as u64 != link_count(wanted) || links.len() > MOST_LARGE_LINKS {
        return Ok(false);
    }
    if !are_simple(alloc, node_count(wanted), links)? {
        return Ok(false);
    }
    make_degrees(alloc, wanted, links)
}

/// The links that were drawn by trial, where they make the network that is asked for.
pub(crate) fn tried(
    alloc: Global,
    wanted: &RandomNetwork,
    links: Vec<Link>,
) -> Result<Vec<Link>, RandomFault>
    requires some { 1 ≤ node_count wanted.now }
    ensures links { IfOk result (λ v. is_by_trial wanted.now ≡ true → IsOutcome wanted.now v.items) }
    ensures refused { IfErr result (λ fault. (fault ≡ Undrawn) ⊎ (fault ≡ Memory)) }
{
    if !is_outcome(alloc, wanted, &links)? {
        return Err(RandomFault::Undrawn);
    }
    Ok(links)
}
