//! The nodes of a plan before any step.
ghost use Rattle.std.specs.Prelude.{◌≡◌, ℕ, ◌<◌, ◌+◌, ◌%◌, IfOk, length, replicate, false};
ghost use Rattle.rounds_plan.specs.Starts.{IsSimplePlan};
ghost use Rattle.link_net.specs.Neighbours.{degree};
ghost use Rattle.unison_world.specs.Counting.{at_start};
ghost use Rattle.unison_world.specs.Pictures.{IsDrawn, IsNodePicture, counts_of};

use crate::node::Node;
use phase_register::{Phase, Register};
use rounds_plan::SimplePlan;
use std::alloc::{AllocError, Global};
use unison_node::Desk;

/// The nodes of a plan before any step.
pub fn opening_nodes(alloc: Global, plan: &SimplePlan<'_>) -> Result<Vec<Node>, AllocError>
    ensures drawn { IfOk result (λ nodes. IsDrawn plan.now nodes.items) }
    ensures counts { IfOk result (λ nodes. counts_of nodes.items ≡ at_start plan.now.network plan.now.start) }
{
    let phase = opening_phase(plan);
    let mut nodes = Vec::new(alloc);
    for node in 0..plan.nodes() {
        nodes.push(opening_node(alloc, plan, phase, node)?)?;
    }
    Ok(nodes)
}

/// The phase of every node before any step: the plan's, as many steps on as the start has rounds.
fn opening_phase(plan: &SimplePlan<'_>) -> Phase
    ensures phase { result ≡ (plan.now.phase + plan.now.start) % 3 }
    ensures plan { IsSimplePlan plan.now }
{
    // For the proof: what holds of every such plan.
    let _nodes = plan.nodes();
    let steps = plan.start() % 3;
    let number = (plan.phase() as u32 + steps) % 3;
    Phase::from_number(number as u8).unwrap()
}

/// A node before any step.
fn opening_node(
    alloc: Global,
    plan: &SimplePlan<'_>,
    phase: Phase,
    node: u32,
) -> Result<Node, AllocError>
    requires plan { IsSimplePlan plan.now }
    requires phase { phase ≡ (plan.now.phase + plan.now.start) % 3 }
    requires node { node < length plan.now.network }
    ensures picture { IfOk result (λ n. IsNodePicture plan.now node n) }
    ensures moves { IfOk result (λ n. n.moves ≡ plan.now.start) }
    ensures marks { IfOk result (λ n. n.desk.marks ≡ replicate (degree plan.now.network node) false) }
{
    let state = plan.opening(node).unwrap();
    let degree = plan.rows().degree(node).unwrap();
    let register = Register::opening(phase, state);
    let desk = Desk::new(alloc, plan.program(), degree)?;
    Ok(Node {
        moves: plan.start(),
        register,
        desk,
    })
}
