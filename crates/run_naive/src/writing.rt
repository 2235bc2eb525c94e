//! The states to which steps move nodes that do not wait.
ghost use Rattle.std.specs.Prelude.{◌≡◌, ◌≢◌, ◌≤◌, Err, IfErr, IfOk, MatchOption, OnOk, Some, map, option_map};
ghost use Rattle.rounds_plan.specs.Configs.{most_rounds};
ghost use Rattle.unison_world.specs.declared.fault.OpenFault.TheVariants.{Memory};
ghost use Rattle.run_naive.specs.Keeping.{IsNaive, shown};
ghost use Rattle.run_naive.specs.Naive.{after, state_now as state_now_in};
ghost use Rattle.run_naive.specs.Telling.{refusal_of};
ghost use Rattle.run_naive.specs.Writing.{all_written, last_count, mover as mover_in, written};

use crate::node::Node;
use crate::opening::opening_nodes;
use crate::rounds::most_moves;
use crate::stepping::{state_now, step};
use rounds_plan::{MOST_ROUNDS, Plan};
use rule_check::State;
use std::alloc::{AllocError, Global};
use unison_world::{OpenFault, Step};

/// What the steps of a list lead to, made by nodes that do not wait.
#[derive(Drop)]
pub struct Writes {
    /// For each step the state to which it moves its node; none where it moves none.
    pub states: Vec<Option<State>>,
    /// The greatest count of a node after all steps, or the plan's start where none is above it.
    pub last: u32,
}

/// The node that a step moves; none where it is a read.
fn mover(stop: u32, nodes: &[Node], step: Step) -> Option<u32>
    ensures exact { result ≡ mover_in stop (map shown nodes.now) step }
{
    let Step::Write { node } = step else {
        return None;
    };
    match nodes.get(node as usize) {
        Some(this) => { if this.moves < stop { Some(node) } else { None } }
        None => None,
    }
}

/// The state of a node now, where one is given.
fn state_of(nodes: &[Node], node: Option<u32>) -> Option<State>
    ensures exact { result ≡ option_map (state_now_in (map shown nodes.now)) node }
{
    match node {
        Some(node) => Some(state_now(nodes, node)),
        None => None,
    }
}

/// Makes a step with its number, counted from 1; the state to which it moves its node.
fn make(
    plan: &Plan,
    stop: u32,
    nodes: &mut [Node],
    each: Step,
    number: usize,
) -> Result<Option<State>, AllocError>
    requires naive { IsNaive plan.now stop (map shown nodes.old) }
    requires limit { stop ≤ most_rounds }
    ensures state { IfOk result (λ state. state ≡ written plan.now stop (map shown nodes.old) each) }
    ensures after { OnOk result (map shown nodes.new ≡ after plan.now stop (map shown nodes.old) each) }
{
    let moved = mover(stop, nodes, each);
    step(plan, stop, nodes, each, number)?;
    Ok(state_of(nodes, moved))
}

/// What the steps lead to, where nothing refuses the stop.
fn written_on(alloc: Global, plan: &Plan, stop: u32, steps: &[Step]) -> Result<Writes, AllocError>
    requires limit { stop ≤ most_rounds }
    requires late { plan.now.start ≤ stop }
    ensures states { IfOk result (λ w. w.states.items ≡ all_written plan.now stop steps.now) }
    ensures last { IfOk result (λ w. w.last ≡ last_count plan.now stop steps.now) }
    ensures late { IfOk result (λ w. plan.now.start ≤ w.last) }
    ensures within { IfOk result (λ w. w.last ≤ stop) }
{
    let mut nodes = opening_nodes(alloc, plan)?;
    let mut states = Vec::with_capacity(alloc, steps.len())?;
    for (index, each) in steps.iter().enumerate() {
        let state = make(plan, stop, nodes.as_mut_slice(), *each, index + 1)?;
        states.push(state)?;
    }
    let last = most_moves(plan, &nodes);
    Ok(Writes { states, last })
}

/// For each step of a list the state to which it moves its node, where the steps are made in order by nodes that do not wait
/// and keep no state but the current one, as `told` has them; and the greatest count after all of them. The nodes are those
/// of a plan, and move up to a stop.
///
/// `StopTooLarge` comes above 1,000,000,000, and else `StopBelowStart` below the plan's start, both before anything is
/// done; `Memory` only where neither does.
pub fn naive_writes(
    alloc: Global,
    plan: &Plan,
    stop: u32,
    steps: &[Step],
) -> Result<Writes, OpenFault>
    ensures states { IfOk result (λ w. w.states.items ≡ all_written plan.now stop steps.now) }
    ensures last { IfOk result (λ w. w.last ≡ last_count plan.now stop steps.now) }
    ensures late { IfOk result (λ w. plan.now.start ≤ w.last) }
    ensures within { IfOk result (λ w. w.last ≤ stop) }
    ensures refused { IfErr result (λ fault. fault ≢ Memory → refusal_of plan.now stop ≡ Some fault) }
    ensures at_once { MatchOption (refusal_of plan.now stop) (Unit {0}) (λ fault. result ≡ Err fault) }
{
    if stop > MOST_ROUNDS {
        return Err(OpenFault::StopTooLarge);
    }
    if stop < plan.start() {
        return Err(OpenFault::StopBelowStart);
    }
    let writes = written_on(alloc, plan, stop, steps)?;
    Ok(writes)
}
