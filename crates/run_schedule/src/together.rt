//! Nodes that move together.
ghost use Rattle.std.specs.Prelude.{◌≡◌, ◌++◌, map, take, None, IfOk, IfErr, OnOk};
ghost use Rattle.std.specs.List.{flat_map};
ghost use Rattle.unison_world.specs.declared.step.Step.TheVariants.{Write};
ghost use Rattle.unison_world.specs.Counting.{run};
ghost use Rattle.run_schedule.specs.Daemons.{AllChange, IsBare, MayMove, reads_of, steps_together};
ghost use Rattle.run_schedule.specs.Walks.{GoesOn, IsFull};

use crate::fault::Halt;
use crate::walk::Walk;
use link_net::Network;
use std::alloc::{AllocError, Global};
use unison_world::Step;

/// Puts the reads of all slots of a node at the end.
fn put_reads(steps: &mut Vec<Step>, network: &Network, node: u32) -> Result<(), AllocError>
    ensures put { OnOk result (steps.new.items ≡ steps.old.items ++ reads_of network.now node) }
{
    for slot in 0..network.degree_of(node) {
        steps.push(Step::Read { node, slot })?;
    }
    Ok(())
}

/// Puts the reads of some nodes at the end, one node after another.
fn put_all_reads(steps: &mut Vec<Step>, network: &Network, nodes: &[u32]) -> Result<(), AllocError>
    ensures put { OnOk result (steps.new.items ≡ steps.old.items ++ flat_map (reads_of network.now) nodes.now) }
{
    for node in nodes {
        put_reads(steps, network, *node)?;
    }
    Ok(())
}

/// Puts the moves of some nodes at the end.
fn put_moves(steps: &mut Vec<Step>, nodes: &[u32]) -> Result<(), AllocError>
    ensures put { OnOk result (steps.new.items ≡ steps.old.items ++ map (λ u. Write u) nodes.now) }
{
    for node in nodes {
        steps.push(Step::Write { node: *node })?;
    }
    Ok(())
}

/// The steps with which nodes move together.
fn steps_together(alloc: Global, network: &Network, nodes: &[u32]) -> Result<Vec<Step>, AllocError>
    ensures exact { IfOk result (λ v. v.items ≡ steps_together network.now nodes.now) }
{
    let mut steps = Vec::new(alloc);
    put_all_reads(&mut steps, network, nodes)?;
    put_moves(&mut steps, nodes)?;
    Ok(steps)
}

/// Makes steps each of which changes something, as many as may be.
fn make_all(walk: &mut Walk, steps: &[Step]) -> Result<(), Halt>
    requires none { walk.old.still ≡ None }
    requires change { AllChange walk.old.world steps.now }
    ensures goes { GoesOn walk.old walk.new }
    ensures made { OnOk result (walk.new.steps ≡ walk.old.steps ++ steps.now) }
    ensures counts { OnOk result (walk.new.world.counts ≡ run walk.old.world.plan.network walk.old.world.stop walk.old.world.counts steps.now) }
    ensures full { IfErr result (λ halt. halt ≡ Halt.Full → IsFull walk.new × (walk.new.steps ≡ take walk.old.limit (walk.old.steps ++ steps.now))) }
{
    for step in steps {
        walk.make(*step)?;
    }
    Ok(())
}

/// Some nodes move together, as far as there may be steps.
pub(crate) fn move_together(alloc: Global, walk: &mut Walk, nodes: &[u32]) -> Result<(), Halt>
    requires none { walk.old.still ≡ None }
    requires bare { IsBare walk.old.world }
    requires may { MayMove walk.old.world.plan.network walk.old.world.stop walk.old.world.counts nodes.now }
    ensures goes { GoesOn walk.old walk.new }
    ensures made { OnOk result (walk.new.steps ≡ walk.old.steps ++ steps_together walk.old.world.plan.network nodes.now) }
    ensures bare { OnOk result (IsBare walk.new.world) }
    ensures full { IfErr result (λ halt. halt ≡ Halt.Full → IsFull walk.new × (walk.new.steps ≡ take walk.old.limit (walk.old.steps ++ steps_together walk.old.world.plan.network nodes.now))) }
{
    let steps = steps_together(alloc, walk.network(), nodes)?;
    make_all(walk, &steps)
}
