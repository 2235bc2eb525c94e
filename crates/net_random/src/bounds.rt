//! How large a network may be.
ghost use Rattle.std.specs.Prelude.{◌≡◌};
ghost use Rattle.net_random.specs.Sizes.{file_bounds};

use link_net::{MOST_LINKS, MOST_NODES};

/// How large a network may be.
#[derive(Clone, Copy)]
pub struct NetworkBounds {
    /// The most nodes.
    pub nodes: u32,
    /// The most links.
    pub links: u64,
}

impl NetworkBounds {
    /// The bounds of a network file: 65,536 nodes and 262,144 links.
    pub(crate) fn of_files() -> NetworkBounds
        ensures { result ≡ file_bounds }
    {
        NetworkBounds {
            nodes: MOST_NODES,
            links: MOST_LINKS as u64,
        }
    }
}
