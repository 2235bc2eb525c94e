//! Steps.
ghost use Rattle.std.specs.Prelude.{◌≡◌, ℕ, ◌<◌, ◌≤◌, ◌+◌, length, map, option_map, OnOk, IfOk};
ghost use Rattle.link_net.specs.Neighbours.{slot_at};
ghost use Rattle.rounds_plan.specs.Configs.{most_rounds};
ghost use Rattle.rounds_plan.specs.Lockstep.{near_at};
ghost use Rattle.unison_world.specs.declared.step.Step.TheVariants.{Read, Write};
ghost use Rattle.run_naive.specs.Naive.{after, state_now as state_now_in};
ghost use Rattle.run_naive.specs.Differences.{nodes_after as after_first};
ghost use Rattle.run_naive.specs.Keeping.{IsKept, IsNaive, pasts_after, past_of, shown};

use crate::node::Node;
use crate::opening::opening_nodes;
use link_net::Network;
use rounds_plan::Plan;
use rule_check::{Near, State};
use std::alloc::{AllocError, Global};
use unison_world::Step;

/// The state of a node now; 0 in each word where there is no such node.
pub(crate) fn state_now(nodes: &[Node], node: u32) -> State
    ensures exact { result ≡ state_now_in (map shown nodes.now) node }
{
    match nodes.get(node as usize) {
        Some(this) => this.state,
        None => State { words: [0; 8] },
    }
}

/// The neighbour at a slot of a node as a rule sees it now, where there is one.
fn near_now(network: &Network, nodes: &[Node], node: u32, slot: u32) -> Option<Near>
    ensures exact { result ≡ option_map (near_at (state_now_in (map shown nodes.now))) (slot_at network.now node slot) }
{
    let id = network.neighbour(node, slot)?;
    let weight = network.weight(node, slot)?;
    let state = state_now(nodes, id);
    Some(Near { id, weight, state })
}

/// A node reads the state that the neighbour at one of its slots has now.
fn read(plan: &Plan, stop: u32, nodes: &mut [Node], node: u32, slot: u32)
    ensures after { map shown nodes.new ≡ after plan.now stop (map shown nodes.old) (Read node slot) }
    ensures past { map past_of nodes.new ≡ map past_of nodes.old }
{
    let reader = node as usize;
    if let Some(near) = near_now(plan.network(), nodes, node, slot) {
        if reader < nodes.len() {
            nodes[reader].take(slot, near);
        }
    }
}

/// A node moves, in the step of this number, where it stands below the stop.
fn write(
    plan: &Plan,
    stop: u32,
    nodes: &mut [Node],
    node: u32,
    number: usize,
) -> Result<(), AllocError>
    requires naive { IsNaive plan.now stop (map shown nodes.old) }
    requires limit { stop ≤ most_rounds }
    ensures after { OnOk result (map shown nodes.new ≡ after plan.now stop (map shown nodes.old) (Write node)) }
    ensures past { OnOk result (map past_of nodes.new ≡ pasts_after plan.now stop (map shown nodes.old) number (Write node) (map past_of nodes.old)) }
{
    // For the proof: what holds of every plan.
    let _phase = plan.phase();
    let mover = node as usize;
    if mover >= nodes.len() {
        return Ok(());
    }
    if nodes[mover].moves >= stop {
        return Ok(());
    }
    nodes[mover].advance(plan.program(), node, number)?;
    Ok(())
}

/// One step, with its number, counted from 1.
pub(crate) fn step(
    plan: &Plan,
    stop: u32,
    nodes: &mut [Node],
    step: Step,
    number: usize,
) -> Result<(), AllocError>
    requires naive { IsNaive plan.now stop (map shown nodes.old) }
    requires limit { stop ≤ most_rounds }
    ensures after { OnOk result (map shown nodes.new ≡ after plan.now stop (map shown nodes.old) step) }
    ensures past { OnOk result (map past_of nodes.new ≡ pasts_after plan.now stop (map shown nodes.old) number step (map past_of nodes.old)) }
{
    match step {
        Step::Read { node, slot } => {
            read(plan, stop, nodes, node, slot);
            Ok(())
        }
        Step::Write { node } => write(plan, stop, nodes, node, number),
    }
}

/// The nodes of a plan after a list of steps.
pub(crate) fn nodes_after(
    alloc: Global,
    plan: &Plan,
    stop: u32,
    steps: &[Step],
) -> Result<Vec<Node>, AllocError>
    requires limit { stop ≤ most_rounds }
    requires late { plan.now.start ≤ stop }
    ensures after { IfOk result (λ nodes. map shown nodes.items ≡ after_first plan.now stop steps.now (length steps.now)) }
    ensures kept { IfOk result (λ nodes. IsKept plan.now (after_first plan.now stop steps.now) (length steps.now) (map past_of nodes.items)) }
{
    let mut nodes = opening_nodes(alloc, plan)?;
    for (index, each) in steps.iter().enumerate() {
        step(plan, stop, nodes.as_mut_slice(), *each, index + 1)?;
    }
    Ok(nodes)
}
