//! Which nodes are linked.
ghost use Rattle.std.specs.Prelude.{◌≡◌};
ghost use Rattle.unison_world.specs.Turns.{neighbours_of};
ghost use Rattle.run_schedule.specs.Daemons.{is_linked};

use link_net::Network;

/// Whether a node is linked to another.
pub(crate) fn is_linked(network: &Network, node: u32, other: u32) -> bool
    ensures { result ≡ is_linked network.now node other }
{
    network.neighbours_of(node).contains(&other)
}
