//! How many nodes are drawn.
ghost use Rattle.std.specs.Prelude.{◌≡◌};
ghost use Rattle.net_initial.specs.Draws.{amount_of};

/// The millionths of a percent that all nodes are.
pub const ALL_NODES: u32 = 100_000_000;

/// How many nodes are drawn.
#[derive(Clone, Copy, Drop)]
pub enum Amount {
    /// So many.
    Count(u32),
    /// A share of all nodes, in millionths of a percent.
    Share(u32),
}

impl Amount {
    /// How many of so many nodes these are: a share is rounded to the nearest whole number, a half up.
    pub fn of_nodes(self, nodes: u32) -> u64
        ensures exact { result ≡ amount_of self nodes }
    {
        match self {
            Amount::Count(count) => count as u64,
            Amount::Share(share) => (nodes as u64 * share as u64 + 50_000_000) / ALL_NODES as u64,
        }
    }
}
