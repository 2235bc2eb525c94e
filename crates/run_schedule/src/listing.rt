//! Lists of steps in a manner that is asked for.
ghost use Rattle.std.specs.Prelude.{◌≡◌, ◌<◌, ◌⊎◌, None, Some, Ok, [], length, IfOk, IfErr};
ghost use Rattle.std.specs.Arc.{arc_value};
ghost use Rattle.link_net.specs.Neighbours.{Neighbours};
ghost use Rattle.unison_world.specs.Opening.{opening_of};
ghost use Rattle.unison_world.specs.View.{opened};
ghost use Rattle.run_schedule.specs.declared.manner.Manner.TheVariants.{Under};
ghost use Rattle.run_schedule.specs.Daemons.{AreStepsUnder, IsUnderDaemon, KeepsTwo};
ghost use Rattle.run_schedule.specs.Leading.{HasLed, LeadsNode, StaysAhead};
ghost use Rattle.run_schedule.specs.Lists.{GoesToStop, IsStepList, limit_of};
ghost use Rattle.run_schedule.specs.Manners.{HasManner, IsFaultOf, IsSwept, named_fault, node_fault, node_in, pair_fault, pair_in, refusal_of};
ghost use Rattle.run_schedule.specs.Starving.{StarvesNode};
ghost use Rattle.run_schedule.specs.Walks.{AtRest, IsFull};

use crate::ahead::lead;
use crate::daemon::Daemon;
use crate::driving::drive;
use crate::fault::{Halt, ListFault};
use crate::links::is_linked;
use crate::manner::Manner;
use crate::queue::{Order, Queue};
use crate::rest::come_to_rest;
use crate::sweeps::swept;
use crate::walk::Walk;
use link_net::Network;
use rand_core::SeedableRng;
use rand_pcg::Pcg64;
use rounds_plan::{MOST_ROUNDS, Plan};
use std::alloc::Global;
use std::sync::Arc;
use unison_trace::MOST_STEPS;
use unison_world::Step;

/// The node that a manner names.
fn node_in(manner: Manner) -> Option<u32>
    ensures { result ≡ node_in manner }
{
    match manner {
        Manner::Starve { node } => Some(node),
        Manner::Ahead { node } => Some(node),
        Manner::Sweeps => None,
        Manner::Random { .. } => None,
        Manner::SlowLinks { .. } => None,
        Manner::Under { .. } => None,
    }
}

/// The two nodes that a manner names.
fn pair_in(manner: Manner) -> Option<(u32, u32)>
    ensures { result ≡ pair_in manner }
{
    match manner {
        Manner::Under {
            daemon: Daemon::Adversary { ahead, behind, .. },
        } => Some((ahead, behind)),
        _ => None,
    }
}

/// The fault of a node that is none of the network's.
fn node_fault(network: &Network, node: Option<u32>) -> Option<ListFault>
    ensures { result ≡ node_fault network.now node }
{
    let node = node?;
    if node >= network.nodes() {
        Some(ListFault::NoNode { node })
    } else {
        None
    }
}

/// The fault of two nodes, of which one is none of the network's, or which are not linked.
fn pair_fault(network: &Network, pair: Option<(u32, u32)>) -> Option<ListFault>
    ensures { result ≡ pair_fault network.now pair }
{
    let (node, other) = pair?;
    if node >= network.nodes() {
        return Some(ListFault::NoNode { node });
    }
    if other >= network.nodes() {
        return Some(ListFault::NoNode { node: other });
    }
    if is_linked(network, node, other) {
        None
    } else {
        Some(ListFault::NotLinked { node, other })
    }
}

/// The fault of the nodes that a manner names.
fn named_fault(network: &Network, manner: Manner) -> Option<ListFault>
    ensures { result ≡ named_fault network.now manner }
{
    match node_fault(network, node_in(manner)) {
        Some(fault) => Some(fault),
        None => pair_fault(network, pair_in(manner)),
    }
}

/// Why there is no list, whatever memory there is.
pub(crate) fn refusal(plan: &Plan, stop: u32, manner: Manner) -> Option<ListFault>
    ensures { result ≡ refusal_of plan.now stop manner }
{
    if stop > MOST_ROUNDS {
        return Some(ListFault::StopTooLarge);
    }
    if stop < plan.start() {
        return Some(ListFault::StopBelowStart);
    }
    named_fault(plan.network(), manner)
}

/// How many steps a list may have.
pub(crate) fn limit_of(count: Option<u32>) -> u32
    ensures { result ≡ limit_of count }
{
    match count {
        None => MOST_STEPS,
        Some(count) => count.min(MOST_STEPS),
    }
}

/// A walk that came to rest, or made as many steps as it may.
fn walked(alloc: Global, mut walk: Walk, order: Order, slow: Option<u64>) -> Result<Walk, ListFault>
    ensures plan { IfOk result (λ w. (w.world.plan ≡ walk.world.plan) × (w.world.stop ≡ walk.world.stop)) }
    ensures still { IfOk result (λ w. (w.still ≡ walk.still) × (w.limit ≡ walk.limit)) }
    ensures ends { IfOk result (λ w. AtRest w ⊎ IsFull w) }
    ensures memory { IfErr result (λ fault. fault ≡ ListFault.Memory) }
{
    let mut queue = Queue::new(alloc, walk.network(), order, slow)?;
    match come_to_rest(alloc, &mut walk, &mut queue) {
        Ok(()) => Ok(walk),
        Err(Halt::Full) => Ok(walk),
        Err(Halt::Memory) => Err(ListFault::Memory),
    }
}

/// Steps at random until every node stands at the stop. A second seed makes some links slow.
fn to_stop(
    alloc: Global,
    plan: Arc<Plan>,
    stop: u32,
    limit: u32,
    seed: u64,
    slow: Option<u64>,
) -> Result<Vec<Step>, ListFault>
    requires opens { opening_of (arc_value plan) stop ≡ Ok (opened (arc_value plan) stop) }
    ensures goes { IfOk result (λ v. GoesToStop (arc_value plan) stop limit v.items) }
    ensures memory { IfErr result (λ fault. fault ≡ ListFault.Memory) }
{
    let walk = Walk::new(alloc, plan, stop, None, limit)?;
    let order = Order::ByLot(Pcg64::seed_from_u64(seed));
    let ended = walked(alloc, walk, order, slow)?;
    Ok(ended.into_steps())
}

/// Steps of all nodes but one, in turn, until they come to rest.
fn starved(
    alloc: Global,
    plan: Arc<Plan>,
    stop: u32,
    limit: u32,
    node: u32,
) -> Result<Vec<Step>, ListFault>
    requires opens { opening_of (arc_value plan) stop ≡ Ok (opened (arc_value plan) stop) }
    requires node { node < length (arc_value plan).network }
    ensures starved { IfOk result (λ v. StarvesNode (arc_value plan) stop node limit v.items) }
    ensures memory { IfErr result (λ fault. fault ≡ ListFault.Memory) }
{
    let walk = Walk::new(alloc, plan, stop, Some(node), limit)?;
    let ended = walked(alloc, walk, Order::InTurn, None)?;
    Ok(ended.into_steps())
}

/// A walk whose node was led to the stop, or that made as many steps as it may.
fn led(alloc: Global, mut walk: Walk, node: u32) -> Result<Walk, ListFault>
    requires node { node < length walk.world.plan.network }
    requires none { walk.still ≡ None }
    requires opened { walk.world ≡ opened walk.world.plan walk.world.stop }
    requires begun { walk.steps ≡ [] }
    ensures plan { IfOk result (λ w. (w.world.plan ≡ walk.world.plan) × (w.world.stop ≡ walk.world.stop)) }
    ensures limit { IfOk result (λ w. w.limit ≡ walk.limit) }
    ensures ahead { IfOk result (λ w. StaysAhead w.world.plan w.world.stop node w.steps) }
    ensures ends { IfOk result (λ w. HasLed w.world node ⊎ IsFull w) }
    ensures memory { IfErr result (λ fault. fault ≡ ListFault.Memory) }
{
    match lead(alloc, &mut walk, node) {
        Ok(()) => Ok(walk),
        Err(Halt::Full) => Ok(walk),
        Err(Halt::Memory) => Err(ListFault::Memory),
    }
}

/// Steps that lead a node to the stop.
fn led_ahead(
    alloc: Global,
    plan: Arc<Plan>,
    stop: u32,
    limit: u32,
    node: u32,
) -> Result<Vec<Step>, ListFault>
    requires opens { opening_of (arc_value plan) stop ≡ Ok (opened (arc_value plan) stop) }
    requires node { node < length (arc_value plan).network }
    ensures ahead { IfOk result (λ v. LeadsNode (arc_value plan) stop node limit v.items) }
    ensures memory { IfErr result (λ fault. fault ≡ ListFault.Memory) }
{
    let walk = Walk::new(alloc, plan, stop, None, limit)?;
    let ended = led(alloc, walk, node)?;
    Ok(ended.into_steps())
}

/// A walk whose nodes a daemon chose until none was enabled, or that made as many steps as it may.
fn driven(alloc: Global, mut walk: Walk, daemon: Daemon) -> Result<Walk, ListFault>
    requires two { KeepsTwo daemon }
    requires none { walk.still ≡ None }
    requires opened { walk.world ≡ opened walk.world.plan walk.world.stop }
    requires begun { walk.steps ≡ [] }
    ensures plan { IfOk result (λ w. (w.world.plan ≡ walk.world.plan) × (w.world.stop ≡ walk.world.stop)) }
    ensures still { IfOk result (λ w. (w.still ≡ walk.still) × (w.limit ≡ walk.limit)) }
    ensures under { IfOk result (λ w. AreStepsUnder w.world.plan w.world.stop daemon w.limit w.steps) }
    ensures ends { IfOk result (λ w. AtRest w ⊎ IsFull w) }
    ensures memory { IfErr result (λ fault. fault ≡ ListFault.Memory) }
{
    match drive(alloc, &mut walk, daemon) {
        Ok(()) => Ok(walk),
        Err(Halt::Full) => Ok(walk),
        Err(Halt::Memory) => Err(ListFault::Memory),
    }
}

/// Steps of the nodes that a daemon chooses, until every node stands at the stop.
fn chosen_by(
    alloc: Global,
    plan: Arc<Plan>,
    stop: u32,
    limit: u32,
    daemon: Daemon,
) -> Result<Vec<Step>, ListFault>
    requires opens { opening_of (arc_value plan) stop ≡ Ok (opened (arc_value plan) stop) }
    requires fits { refusal_of (arc_value plan) stop (Under daemon) ≡ None }
    ensures under { IfOk result (λ v. IsUnderDaemon (arc_value plan) stop daemon limit v.items) }
    ensures memory { IfErr result (λ fault. fault ≡ ListFault.Memory) }
{
    let walk = Walk::new(alloc, plan, stop, None, limit)?;
    // For the proof alone: the call tells what holds of every world.
    let _network = walk.network();
    let ended = driven(alloc, walk, daemon)?;
    Ok(ended.into_steps())
}

/// The whole sweeps up to the stop.
fn swept_whole(alloc: Global, plan: &Plan, stop: u32, limit: u32) -> Result<Vec<Step>, ListFault>
    requires opens { opening_of plan.now stop ≡ Ok (opened plan.now stop) }
    ensures swept { IfOk result (λ v. IsSwept plan.now stop limit v.items) }
    ensures memory { IfErr result (λ fault. fault ≡ ListFault.Memory) }
{
    // For the proof alone: the call tells what holds of every plan.
    let _phase = plan.phase();
    let steps = swept(alloc, plan, stop, limit)?;
    Ok(steps)
}

/// The list of a manner, where nothing refuses it.
fn made(
    alloc: Global,
    plan: Arc<Plan>,
    stop: u32,
    manner: Manner,
    limit: u32,
) -> Result<Vec<Step>, ListFault>
    requires fits { refusal_of (arc_value plan) stop manner ≡ None }
    ensures manner { IfOk result (λ v. HasManner (arc_value plan) stop manner limit v.items) }
    ensures memory { IfErr result (λ fault. fault ≡ ListFault.Memory) }
{
    match manner {
        Manner::Sweeps => swept_whole(alloc, &plan, stop, limit),
        Manner::Random { seed } => to_stop(alloc, plan, stop, limit, seed, None),
        Manner::Starve { node } => starved(alloc, plan, stop, limit, node),
        Manner::Ahead { node } => led_ahead(alloc, plan, stop, limit, node),
        Manner::SlowLinks { seed } => to_stop(alloc, plan, stop, limit, seed, Some(seed)),
        Manner::Under { daemon } => chosen_by(alloc, plan, stop, limit, daemon),
    }
}

/// The list of steps of a manner on a plan, up to a stop, from all nodes at the plan's start on. It has no more steps
/// than are asked for, and no more than 1,000,000 where none or more are.
///
/// `StopTooLarge` comes above 1,000,000,000, else `StopBelowStart` below the plan's start, else `NoNode` where the manner
/// names a node that is none of the network's, and else `NotLinked` where an adversary's two nodes are not linked; `Memory`
/// only where none of them does.
pub fn listed(
    alloc: Global,
    plan: Arc<Plan>,
    stop: u32,
    manner: Manner,
    count: Option<u32>,
) -> Result<Vec<Step>, ListFault>
    ensures list { IfOk result (λ v. IsStepList (arc_value plan) stop (limit_of count) v.items) }
    ensures manner { IfOk result (λ v. HasManner (arc_value plan) stop manner (limit_of count) v.items) }
    ensures fits { IfOk result (λ _. refusal_of (arc_value plan) stop manner ≡ None) }
    ensures refused { IfErr result (IsFaultOf (arc_value plan) stop manner) }
{
    if let Some(fault) = refusal(&plan, stop, manner) {
        return Err(fault);
    }
    made(alloc, plan, stop, manner, limit_of(count))
}
