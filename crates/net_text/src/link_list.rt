//! Links between numbered nodes, within the bounds of a network.
ghost use Rattle.std.specs.Prelude.{◌≡◌};
ghost use Rattle.std.specs.List.{list_all};
ghost use Rattle.link_net.specs.Reading.{IsAnswer};
ghost use Rattle.net_text.specs.Listing.{is_within, listing_of, IsListing};

use link_net::{Link, MOST_NODES, NetFault, link_network};
use std::alloc::Global;
use std::marker::Model;

/// Links between so many nodes that a network may have: 1 to 65,536 nodes, no link of a node with itself, no two links
/// between the same two nodes, at most 262,144 links and at most 4,096 neighbours of a node.
#[derive(Drop)]
pub struct LinkList {
    nodes: u32,
    links: Vec<Link>,
}

impl Model for LinkList {
    ghost use Rattle.net_text.specs.Listing.{Listing, IsListing};

    ghost Value = { Listing };

    ghost view = { λ a. record { nodes = a.nodes; links = a.links.items } };

    ghost invariant = { λ a. IsListing (record { nodes = a.nodes; links = a.links.items }) };
}

/// Whether both ends of each link are below the number of nodes.
pub fn all_within(nodes: u32, links: &[Link]) -> bool
    ensures within { result ≡ list_all (is_within nodes) links.now }
{
    links.iter().all(|link| link.0 < nodes && link.1 < nodes)
}

impl LinkList {
    /// The list of these links between so many nodes, or the first fault: `NodeCount`, `BadLink`, `SelfLink`,
    /// `LinkTwice`, `TooManyLinks`, `TooManyNeighbours`, in this order; `Memory` comes only where memory runs out.
    pub fn new(alloc: Global, nodes: u32, links: Vec<Link>) -> Result<LinkList, NetFault>
        ensures listing { IsAnswer (listing_of nodes links.items) result }
    {
        if nodes < 1 || nodes > MOST_NODES {
            return Err(NetFault::NodeCount);
        }
        if !all_within(nodes, links.as_slice()) {
            return Err(NetFault::BadLink);
        }
        link_network(alloc, nodes, links.as_slice())?;
        Ok(LinkList { nodes, links })
    }

    /// The list of links that are known to be within the bounds.
    pub fn sound(nodes: u32, links: Vec<Link>) -> LinkList
        requires { IsListing (record { nodes = nodes; links = links.items }) }
        ensures listing { result ≡ record { nodes = nodes; links = links.items } }
    {
        LinkList { nodes, links }
    }

    /// How many nodes there are, from 1 to 65,536.
    pub fn nodes(&self) -> u32
        ensures count { result ≡ self.now.nodes }
        ensures whole { IsListing self.now }
    {
        self.nodes
    }

    /// The links.
    pub fn links(&self) -> &[Link]
        ensures links { result.now ≡ self.now.links }
        ensures whole { IsListing self.now }
    {
        self.links.as_slice()
    }
}
