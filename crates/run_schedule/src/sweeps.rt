//! Whole sweeps.
ghost use Rattle.std.specs.Prelude.{◌≡◌, ◌≤◌, ◌∷◌, ◌++◌, [], length, take, OnOk, IfOk};
ghost use Rattle.run_schedule.specs.Sweeps.{sweep_of, sweeps_of, turn_of};

use link_net::Network;
use rounds_plan::Plan;
use std::alloc::{AllocError, Global};
use unison_world::Step;

/// Puts a step at the end, where there are fewer than the limit.
fn put(steps: &mut Vec<Step>, limit: u32, step: Step) -> Result<(), AllocError>
    requires few { length steps.old.items ≤ limit }
    ensures put { OnOk result (steps.new.items ≡ take limit (steps.old.items ++ step ∷ [])) }
{
    if steps.len() < limit as usize {
        steps.push(step)?;
    }
    Ok(())
}

/// Puts a turn of a node at the end, up to the limit.
fn put_turn(
    steps: &mut Vec<Step>,
    limit: u32,
    network: &Network,
    node: u32,
) -> Result<(), AllocError>
    requires few { length steps.old.items ≤ limit }
    ensures put { OnOk result (steps.new.items ≡ take limit (steps.old.items ++ turn_of network.now node)) }
{
    for slot in 0..network.degree_of(node) {
        put(steps, limit, Step::Read { node, slot })?;
    }
    put(steps, limit, Step::Write { node })
}

/// Puts a sweep at the end, up to the limit.
fn put_sweep(steps: &mut Vec<Step>, limit: u32, network: &Network) -> Result<(), AllocError>
    requires few { length steps.old.items ≤ limit }
    ensures put { OnOk result (steps.new.items ≡ take limit (steps.old.items ++ sweep_of network.now)) }
{
    for node in 0..network.nodes() {
        put_turn(steps, limit, network, node)?;
    }
    Ok(())
}

/// The sweeps from the plan's start to a stop, up to the limit.
pub(crate) fn swept(
    alloc: Global,
    plan: &Plan,
    stop: u32,
    limit: u32,
) -> Result<Vec<Step>, AllocError>
    requires late { plan.now.start ≤ stop }
    ensures exact { IfOk result (λ v. v.items ≡ take limit (sweeps_of plan.now stop)) }
{
    let mut steps = Vec::new(alloc);
    for _round in plan.start()..stop {
        if steps.len() >= limit as usize {
            return Ok(steps);
        }
        put_sweep(&mut steps, limit, plan.network())?;
    }
    Ok(steps)
}
