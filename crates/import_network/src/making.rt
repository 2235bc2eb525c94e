//! How links become networks.
ghost use Rattle.std.specs.Prelude.{◌≡◌};
ghost use Rattle.import_network.specs.Makings.{led, most_of};

use import_links::Mending;
use large_pack::PackOptions;
use link_net::MOST_NODES;

/// How links become a network: in which form, and what becomes of links of a node with itself and of links that join the same
/// two nodes.
#[derive(Clone, Copy)]
pub enum Making {
    /// A network file, whose links have no direction.
    File(Mending),
    /// A packed network, of any size. Of the options play no part: the number of nodes, which the text says, the factor and
    /// the header.
    Packed(PackOptions),
}

impl Making {
    /// How many nodes there may be.
    pub fn most_nodes(self) -> u32
        ensures most { result ≡ most_of self }
    {
        match self {
            Making::File(_) => MOST_NODES,
            Making::Packed(_) => u32::MAX,
        }
    }

    /// The same, but that links of a packed network lead one way or both.
    pub(crate) fn led(self, is_directed: bool) -> Making
        ensures led { result ≡ led is_directed self }
    {
        match self {
            Making::File(mending) => Making::File(mending),
            Making::Packed(options) => Making::Packed(PackOptions {
                is_directed,
                ..options
            }),
        }
    }
}
