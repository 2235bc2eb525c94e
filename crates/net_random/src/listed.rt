//! Links that were drawn, as a list within the bounds of a network.
ghost use Rattle.std.specs.Prelude.{◌≡◌, ◌≢◌, ◌≤◌, true, length, IfOk, IfErr};
ghost use Rattle.link_net.specs.Limits.{most_nodes, most_links};
ghost use Rattle.link_net.specs.Reading.{is_crowded};
ghost use Rattle.net_random.specs.declared.fault.RandomFault.TheVariants.{TooManyNeighbours, Memory};
ghost use Rattle.net_random.specs.RandomNetworks.{AreSimpleLinks};

use crate::RandomFault;
use link_net::{Link, NetFault};
use net_text::LinkList;
use std::alloc::Global;

/// The list of different links, in which nothing but too many neighbours of a node can be at fault.
pub(crate) fn listed(alloc: Global, nodes: u32, links: Vec<Link>) -> Result<LinkList, RandomFault>
    requires some { 1 ≤ nodes }
    requires small { nodes ≤ most_nodes }
    requires few { length links.items ≤ most_links }
    requires simple { AreSimpleLinks nodes links.items }
    ensures listing { IfOk result (λ list. list ≡ record { nodes = nodes; links = links.items }) }
    ensures crowded { IfErr result (λ fault. fault ≢ Memory → (fault ≡ TooManyNeighbours) × (is_crowded nodes links.items ≡ true)) }
{
    match LinkList::new(alloc, nodes, links) {
        Ok(list) => Ok(list),
        Err(NetFault::TooManyNeighbours) => Err(RandomFault::TooManyNeighbours),
        Err(_) => Err(RandomFault::Memory),
    }
}
