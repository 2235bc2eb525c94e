//! The links of a network, from those of a text.
ghost use Rattle.std.specs.Prelude.{◌≡◌, ◌≢◌, ◌+◌, length, IfOk, IfErr, IfSome, Ok, Err};
ghost use Rattle.net_text.specs.Listing.{listing_of};
ghost use Rattle.import_links.specs.declared.settle_fault.SettleFault.TheVariants.{SelfLoop, Memory};
ghost use Rattle.import_links.specs.Settling.{left_by, refused_self_loop, as_settled, settled};

use crate::mending::Mending;
use crate::parallel::single;
use crate::placed::PlacedLink;
use crate::settle_fault::SettleFault;
use crate::straight::unlooped;
use link_net::{Link, NetFault};
use net_text::LinkList;
use std::alloc::Global;

/// The links of a network that links of a text made.
#[derive(Drop)]
pub struct Settled {
    /// The links.
    pub list: LinkList,
    /// How many links of a node with itself were dropped.
    pub dropped: usize,
    /// How many links were merged into earlier ones.
    pub merged: usize,
}

/// The list of links between so many nodes.
fn listed(alloc: Global, nodes: u32, links: Vec<Link>) -> Result<LinkList, SettleFault>
    ensures list { IfOk result (λ list. as_settled (listing_of nodes links.items) ≡ Ok list) }
    ensures fault { IfErr result (λ fault. fault ≢ Memory → as_settled (listing_of nodes links.items) ≡ Err fault) }
{
    match LinkList::new(alloc, nodes, links) {
        Ok(list) => Ok(list),
        Err(NetFault::Memory) => Err(SettleFault::Memory),
        Err(fault) => Err(SettleFault::Net(fault)),
    }
}

/// The links between so many nodes that these links of a text make: links of a node with itself are dropped, and links
/// that join the same two nodes are made into one, as it is asked; else they are refused. The first fault in the order
/// of [`SettleFault`]; `Memory` comes only where memory runs out, and not in place of `SelfLoop`.
pub fn settle(
    alloc: Global,
    nodes: u32,
    links: &[PlacedLink],
    mending: Mending,
) -> Result<Settled, SettleFault>
    ensures links { IfOk result (λ s. settled nodes mending links.now ≡ Ok s.list) }
    ensures dropped { IfOk result (λ s. s.dropped + length (left_by mending.self_loops links.now) ≡ length links.now) }
    ensures merged { IfOk result (λ s. s.merged + length s.list.links ≡ length (left_by mending.self_loops links.now)) }
    ensures fault { IfErr result (λ fault. fault ≢ Memory → settled nodes mending links.now ≡ Err fault) }
    ensures at_once { IfSome (refused_self_loop mending.self_loops links.now) (λ line. result ≡ Err (SelfLoop line)) }
{
    let straight = unlooped(alloc, links, mending.self_loops)?;
    let single = single(alloc, straight.as_slice(), mending.parallel)?;
    let dropped = links.len() - straight.len();
    let merged = straight.len() - single.len();
    let list = listed(alloc, nodes, single)?;
    Ok(Settled {
        list,
        dropped,
        merged,
    })
}
