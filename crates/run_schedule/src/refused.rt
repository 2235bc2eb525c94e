//! Lists of steps with refused ones among them.
ghost use Rattle.std.specs.Prelude.{◌≡◌, ◌<◌, ◌≤◌, ◌++◌, ◌∷◌, [], All, length, take, vec_len, IsSome, OnOk, IfOk, IfErr, IfSome, None, nat_lt, if◌then◌else◌};
ghost use Rattle.std.specs.Arc.{arc_value};
ghost use Rattle.link_net.specs.Neighbours.{degree};
ghost use Rattle.unison_trace.specs.Histories.{run_of};
ghost use Rattle.unison_world.specs.View.{opened};
ghost use Rattle.run_schedule.specs.declared.manner.Manner.TheVariants.{Sweeps};
ghost use Rattle.run_schedule.specs.Lists.{limit_of};
ghost use Rattle.run_schedule.specs.Manners.{IsFaultOf, refusal_of};
ghost use Rattle.run_schedule.specs.Mixing.{ArePut, HasLink, IsLinked, IsMixed, IsRefused, IsStepOf, changing_of};

use crate::fault::ListFault;
use crate::listing::{limit_of, refusal};
use crate::manner::Manner;
use link_net::Network;
use rand::RngExt;
use rand_core::SeedableRng;
use rand_pcg::Pcg64;
use rounds_plan::Plan;
use std::alloc::{AllocError, Global};
use std::sync::Arc;
use unison_trace::changes;
use unison_world::{Step, World};

/// How many refused steps stand before one of the list, at most.
const MOST_REFUSED: u32 = 1_000;

/// How many steps are drawn for a refused one, at most.
const MOST_DRAWS: u32 = 8;

/// A step of the network, drawn at random: a node, and then one of its reads or its write.
fn drawn_step(rng: &mut Pcg64, network: &Network) -> Step
    ensures there { IsStepOf network.now result }
{
    let node = rng.random_range(0..network.nodes());
    let slots = network.degree_of(node);
    let slot = rng.random_range(0..=slots);
    if slot < slots {
        Step::Read { node, slot }
    } else {
        Step::Write { node }
    }
}

/// The first refused step of some that are drawn at random, where there is one among them.
fn refused_by_lot(world: &World, rng: &mut Pcg64) -> Option<Step>
    ensures { IfSome result (IsRefused world.now.plan.network world.now.stop world.now.counts) }
{
    for _ in 0..MOST_DRAWS {
        let step = drawn_step(rng, world.plan().network());
        if !changes(world.ask(step)) {
            return Some(step);
        }
    }
    None
}

/// A refused step of a node that has a neighbour: its write, or where that would move it, a read: it has read all its slots.
fn refused_of(world: &World, node: u32) -> Step
    requires linked { IsLinked world.now.plan.network node }
    ensures { IsRefused world.now.plan.network world.now.stop world.now.counts result }
{
    let write = Step::Write { node };
    if changes(world.ask(write)) {
        return Step::Read { node, slot: 0 };
    }
    write
}

/// Puts a node to others, where it has a neighbour.
fn put_linked(linked: &mut Vec<u32>, network: &Network, node: u32) -> Result<(), AllocError>
    ensures put { OnOk result (linked.new.items ≡ (if nat_lt 0 (degree network.now node) then linked.old.items ++ node ∷ [] else linked.old.items)) }
{
    if network.degree_of(node) > 0 {
        linked.push(node)?;
    }
    Ok(())
}

/// The nodes that have a neighbour.
fn linked_nodes(alloc: Global, network: &Network) -> Result<Vec<u32>, AllocError>
    ensures linked { IfOk result (λ v. All (IsLinked network.now) v.items) }
    ensures some { IfOk result (λ v. HasLink network.now → 0 < vec_len v) }
{
    let mut linked = Vec::new(alloc);
    for node in 0..network.nodes() {
        put_linked(&mut linked, network, node)?;
    }
    Ok(linked)
}

/// A refused step, drawn at random. Where those that are drawn would all change something, one of a node that has a
/// neighbour.
fn refused_step(world: &World, rng: &mut Pcg64, linked: &[u32]) -> Option<Step>
    requires linked { All (IsLinked world.now.plan.network) linked.now }
    ensures refused { IfSome result (IsRefused world.now.plan.network world.now.stop world.now.counts) }
    ensures found { 0 < length linked.now → IsSome result }
{
    let drawn = refused_by_lot(world, rng);
    if drawn.is_some() || linked.is_empty() {
        return drawn;
    }
    let node = linked[rng.random_range(0..linked.len())];
    Some(refused_of(world, node))
}

/// Puts a refused step at the end, where there are fewer than the limit.
fn put_refused(
    world: &World,
    steps: &mut Vec<Step>,
    limit: u32,
    step: Step,
) -> Result<(), AllocError>
    requires few { length steps.old.items ≤ limit }
    requires refused { IsRefused world.now.plan.network world.now.stop world.now.counts step }
    requires arrives { run_of world.now.plan world.now.stop steps.old.items ≡ world.now.counts }
    ensures few { OnOk result (length steps.new.items ≤ limit) }
    ensures arrives { OnOk result (run_of world.now.plan world.now.stop steps.new.items ≡ world.now.counts) }
    ensures same { OnOk result (changing_of world.now.plan world.now.stop steps.new.items ≡ changing_of world.now.plan world.now.stop steps.old.items) }
    ensures put { OnOk result (steps.new.items ≡ take limit (steps.old.items ++ step ∷ [])) }
{
    if steps.len() < limit as usize {
        steps.push(step)?;
    }
    Ok(())
}

/// Puts refused steps, drawn at random, at the end, up to the limit: another one so many times in a hundred.
fn put_some_refused(
    world: &World,
    steps: &mut Vec<Step>,
    limit: u32,
    rng: &mut Pcg64,
    percent: u32,
    linked: &[u32],
) -> Result<(), AllocError>
    requires few { length steps.old.items ≤ limit }
    requires linked { All (IsLinked world.now.plan.network) linked.now }
    requires some { HasLink world.now.plan.network → 0 < length linked.now }
    requires arrives { run_of world.now.plan world.now.stop steps.old.items ≡ world.now.counts }
    ensures few { OnOk result (length steps.new.items ≤ limit) }
    ensures arrives { OnOk result (run_of world.now.plan world.now.stop steps.new.items ≡ world.now.counts) }
    ensures same { OnOk result (changing_of world.now.plan world.now.stop steps.new.items ≡ changing_of world.now.plan world.now.stop steps.old.items) }
    ensures put { OnOk result (ArePut world.now percent limit steps.old.items steps.new.items) }
{
    for _count in 0..MOST_REFUSED {
        if rng.random_range(0..100u32) >= percent {
            return Ok(());
        }
        let Some(step) = refused_step(world, rng, linked) else {
            return Ok(());
        };
        put_refused(world, steps, limit, step)?;
    }
    Ok(())
}

/// The steps on a world, with refused ones before each.
fn mix(
    alloc: Global,
    mut world: World,
    steps: &[Step],
    limit: u32,
    rng: &mut Pcg64,
    percent: u32,
) -> Result<Vec<Step>, AllocError>
    requires opened { world ≡ opened world.plan world.stop }
    ensures mixed { IfOk result (λ v. IsMixed world.plan world.stop percent limit steps.now v.items) }
{
    let linked = linked_nodes(alloc, world.plan().network())?;
    let mut mixed = Vec::new(alloc);
    for step in steps {
        put_some_refused(&world, &mut mixed, limit, rng, percent, &linked)?;
        if mixed.len() >= limit as usize {
            return Ok(mixed);
        }
        mixed.push(*step)?;
        world.step(*step);
    }
    Ok(mixed)
}

/// A list of steps with refused ones mixed in, which change nothing: so many of a hundred, on the average. Before each
/// step another one is put so many times in a hundred, at most 1,000 times, and after the last step none. It is drawn
/// at random among the steps of the network's nodes that would be refused there; in a network with no link there may be
/// none. The same seed gives the same list. It has no more steps than are asked for, and no more than 1,000,000 where
/// none or more are.
///
/// `StopTooLarge` comes above 1,000,000,000, and else `StopBelowStart` below the plan's start; `Memory` only where
/// neither does.
pub fn with_refused(
    alloc: Global,
    plan: Arc<Plan>,
    stop: u32,
    steps: &[Step],
    seed: u64,
    percent: u32,
    count: Option<u32>,
) -> Result<Vec<Step>, ListFault>
    ensures mixed { IfOk result (λ v. IsMixed (arc_value plan) stop percent (limit_of count) steps.now v.items) }
    ensures fits { IfOk result (λ _. refusal_of (arc_value plan) stop Sweeps ≡ None) }
    ensures refused { IfErr result (IsFaultOf (arc_value plan) stop Sweeps) }
{
    if let Some(fault) = refusal(&plan, stop, Manner::Sweeps) {
        return Err(fault);
    }
    let Ok(world) = World::new(alloc, plan, stop) else {
        return Err(ListFault::Memory);
    };
    let mut rng = Pcg64::seed_from_u64(seed);
    Ok(mix(alloc, world, steps, limit_of(count), &mut rng, percent)?)
}
