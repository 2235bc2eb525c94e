//! Lists of steps that are told.
ghost use Rattle.std.specs.Prelude.{◌≡◌, ◌≢◌, ◌≤◌, ◌++◌, ◌∷◌, [], Err, cond, IfErr, IfOk, MatchOption, OnOk, Some, length, map, string_bytes};
ghost use Rattle.std.specs.List.{flat_map};
ghost use Rattle.link_net.specs.Neighbours.{numbers_below};
ghost use Rattle.rule_check.specs.Value.{names_of};
ghost use Rattle.rounds_plan.specs.Configs.{most_rounds};
ghost use Rattle.unison_world.specs.declared.fault.OpenFault.TheVariants.{Memory};
ghost use Rattle.run_naive.specs.Differences.{differing, is_same};
ghost use Rattle.run_naive.specs.Telling.{IsTold, differing_line, lockstep_part, node_line, refusal_of, standing};
ghost use Rattle.run_naive.specs.Keeping.{AreAllKnown, difference_line, shown};

use crate::difference::{Difference, is_same};
use crate::node::Node;
use crate::rounds::compare;
use crate::stepping::nodes_after;
use report_text::put_fields;
use rounds_plan::{MOST_ROUNDS, Plan, state_at};
use rule_check::{Program, State};
use std::alloc::{AllocError, Global};
use unison_world::{OpenFault, Step};

/// A node's lockstep state, where it has another one.
fn put_lockstep_part(
    out: &mut String,
    program: &Program,
    state: &State,
    lockstep: &State,
) -> Result<(), AllocError>
    ensures text { OnOk result (string_bytes out.new ≡ string_bytes out.old ++ lockstep_part (names_of program.now) (is_same state.now lockstep.now) lockstep.now) }
{
    if is_same(state, lockstep) {
        return Ok(());
    }
    out.push_str("  lockstep")?;
    put_fields(out, program, lockstep)
}

/// A node with its count, its state and, where that is another one, its lockstep state, to the end of the line.
fn put_standing(
    out: &mut String,
    program: &Program,
    node: u32,
    moves: u32,
    state: &State,
    lockstep: &State,
) -> Result<(), AllocError>
    ensures text { OnOk result (string_bytes out.new ≡ string_bytes out.old ++ (standing (names_of program.now) node moves state.now lockstep.now ++ 10 ∷ [])) }
{
    write!(out, "{node} moves {moves}")?;
    put_fields(out, program, state)?;
    put_lockstep_part(out, program, state, lockstep)?;
    out.push_str("\n")
}

/// The lines of all nodes.
fn put_nodes(
    out: &mut String,
    plan: &Plan,
    nodes: &[Node],
    lockstep: &[State],
) -> Result<(), AllocError>
    requires nodes { length nodes.now ≡ length plan.now.network }
    requires known { AreAllKnown plan.now (map shown nodes.now) lockstep.now }
    ensures lines { OnOk result (string_bytes out.new ≡ string_bytes out.old ++ flat_map (node_line plan.now (map shown nodes.now)) (numbers_below (length plan.now.network))) }
{
    for node in 0..plan.network().nodes() {
        let this = &nodes[node as usize];
        let twin = state_at(lockstep, node);
        put_standing(out, plan.program(), node, this.moves, &this.state, &twin)?;
    }
    Ok(())
}

/// One where a node has another state than its lockstep state.
fn one_if_differs(state: &State, lockstep: &State) -> u32
    ensures count { result ≡ cond (is_same state.now lockstep.now) 0 1 }
    ensures most { result ≤ 1 }
{
    if is_same(state, lockstep) { 0 } else { 1 }
}

/// How many nodes do not have their lockstep state.
fn differing(plan: &Plan, nodes: &[Node], lockstep: &[State]) -> u32
    requires nodes { length nodes.now ≡ length plan.now.network }
    requires known { AreAllKnown plan.now (map shown nodes.now) lockstep.now }
    ensures count { result ≡ differing plan.now (map shown nodes.now) }
{
    let mut count: u32 = 0;
    for node in 0..plan.network().nodes() {
        let this = &nodes[node as usize];
        let twin = state_at(lockstep, node);
        count += one_if_differs(&this.state, &twin);
    }
    count
}

/// The line of the first difference.
fn put_first(
    out: &mut String,
    program: &Program,
    first: Option<Difference>,
) -> Result<(), AllocError>
    ensures line { OnOk result (string_bytes out.new ≡ string_bytes out.old ++ difference_line (names_of program.now) first) }
{
    let Some(found) = first else {
        return out.push_str("no difference after any step\n");
    };
    let step = found.step;
    write!(out, "first difference after step {step}: node ")?;
    put_standing(
        out,
        program,
        found.node,
        found.moves,
        &found.state,
        &found.lockstep,
    )
}

/// The line that counts the nodes that differ.
fn put_differing(
    out: &mut String,
    plan: &Plan,
    nodes: &[Node],
    lockstep: &[State],
) -> Result<(), AllocError>
    requires nodes { length nodes.now ≡ length plan.now.network }
    requires known { AreAllKnown plan.now (map shown nodes.now) lockstep.now }
    ensures line { OnOk result (string_bytes out.new ≡ string_bytes out.old ++ differing_line plan.now (map shown nodes.now)) }
{
    let count = differing(plan, nodes, lockstep);
    let all = plan.network().nodes();
    write!(out, "nodes that differ {count} of {all}\n")
}

/// The text of steps, where nothing refuses the stop.
fn told_on(alloc: Global, plan: &Plan, stop: u32, steps: &[Step]) -> Result<Vec<u8>, AllocError>
    requires limit { stop ≤ most_rounds }
    requires late { plan.now.start ≤ stop }
    ensures text { IfOk result (λ v. IsTold plan.now stop steps.now v.items) }
{
    let nodes = nodes_after(alloc, plan, stop, steps)?;
    let compared = compare(alloc, plan, &nodes)?;
    let mut out = String::new(alloc);
    put_nodes(&mut out, plan, &nodes, &compared.lockstep)?;
    out.push_str("\n")?;
    put_first(&mut out, plan.program(), compared.first)?;
    put_differing(&mut out, plan, &nodes, &compared.lockstep)?;
    Ok(out.into_bytes())
}

/// The text of a list of steps that are made, in order, by nodes that do not wait and keep no state but the current one,
/// beside the states of the lockstep rounds. The nodes are those of a plan, and move up to a stop.
///
/// A read takes a copy of the state that the neighbour has now, whatever either has moved; a write moves its node by its
/// own state and the copies that it has, which are those of the initial states at first. A step that names no node or no
/// slot, and a write at the stop, change nothing.
///
/// For each node by rising number stands a line of its number, how often it has moved, and its fields with their values;
/// where its state is not that of the lockstep round after as many moves, that one behind it, as in
/// `2 moves 1 s=8  lockstep s=6`. Then come, after an empty line, the first step after which a node differs from its
/// lockstep state, counted from 1, with this node as it stands after it, or that there is none; and how many nodes differ
/// at the end.
///
/// `StopTooLarge` comes above 1,000,000,000, and else `StopBelowStart` below the plan's start, both before anything is
/// done; `Memory` only where neither does.
pub fn told(alloc: Global, plan: &Plan, stop: u32, steps: &[Step]) -> Result<Vec<u8>, OpenFault>
    ensures text { IfOk result (λ v. IsTold plan.now stop steps.now v.items) }
    ensures refused { IfErr result (λ fault. fault ≢ Memory → refusal_of plan.now stop ≡ Some fault) }
    ensures at_once { MatchOption (refusal_of plan.now stop) (Unit {0}) (λ fault. result ≡ Err fault) }
{
    if stop > MOST_ROUNDS {
        return Err(OpenFault::StopTooLarge);
    }
    if stop < plan.start() {
        return Err(OpenFault::StopBelowStart);
    }
    let text = told_on(alloc, plan, stop, steps)?;
    Ok(text)
}
