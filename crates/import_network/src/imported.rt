//! What is made from a text.
ghost use Rattle.std.specs.Prelude.{◌≡◌, count_by};
ghost use Rattle.import_network.specs.Drafts.{is_rounded};

use import_links::PlacedLink;

/// A network that was made from a text in another format.
#[derive(Drop)]
pub struct Imported {
    /// The network file, of phase 0 and without initial values; or the packed network, where that is asked.
    pub network: Vec<u8>,
    /// The file of the nodes' names; nothing where nodes have no names.
    pub names: Vec<u8>,
    /// How many links of a node with itself were dropped.
    pub dropped: u64,
    /// How many links were merged into earlier ones.
    pub merged: u64,
    /// How many of the text's links have a weight that is rounded, those that were dropped or merged among them.
    pub rounded: u64,
}

/// How many links have a weight that is rounded.
pub(crate) fn count_rounded(links: &[PlacedLink]) -> u64
    ensures { result ≡ count_by is_rounded links.now }
{
    let mut rounded: u64 = 0;
    for link in links {
        if !link.exact {
            rounded += 1;
        }
    }
    rounded
}
