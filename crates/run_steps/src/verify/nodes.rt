//! Nodes that lines call.
ghost use Rattle.std.specs.Prelude.{◌≡◌, ◌<◌, length, IfOk, IfSome};
ghost use Rattle.link_net.specs.Neighbours.{degree};
ghost use Rattle.run_steps.specs.verify.Nodes.{node_found, slot_found, slot_to};

use crate::verify::fault::VerifyFault;
use rounds_plan::SimplePlan;

/// The node that makes a step, where one is called.
pub(crate) fn node_found(
    plan: &SimplePlan<'_>,
    line: u64,
    called: Option<u32>,
) -> Result<u32, VerifyFault>
    requires node { IfSome called (λ u. u < length plan.now.network) }
    ensures exact { result ≡ node_found line called }
    ensures node { IfOk result (λ u. u < length plan.now.network) }
{
    match called {
        Some(node) => Ok(node),
        None => Err(VerifyFault::NoNode { line }),
    }
}

/// The slot of a node at which another stands as its neighbour, where it does.
fn slot_to(plan: &SimplePlan<'_>, node: u32, neighbour: u32) -> Option<u32>
    ensures exact { result ≡ slot_to plan.now.network node neighbour }
    ensures slot { IfSome result (λ j. j < degree plan.now.network node) }
{
    plan.slot_of(node, neighbour)
}

/// The slot of a node at which the one that is called stands as its neighbour.
pub(crate) fn slot_found(
    plan: &SimplePlan<'_>,
    line: u64,
    node: u32,
    called: Option<u32>,
) -> Result<u32, VerifyFault>
    ensures exact { result ≡ slot_found plan.now.network line node called }
    ensures slot { IfOk result (λ j. j < degree plan.now.network node) }
{
    let Some(neighbour) = called else {
        return Err(VerifyFault::NotNeighbour { line });
    };
    match slot_to(plan, node, neighbour) {
        Some(slot) => Ok(slot),
        None => Err(VerifyFault::NotNeighbour { line }),
    }
}
