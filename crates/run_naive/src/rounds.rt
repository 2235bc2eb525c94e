//! All moves beside the lockstep rounds, in one pass over these.
ghost use Rattle.std.specs.Prelude.{◌≡◌, ℕ, ◌-◌, ◌<◌, ◌≤◌, length, map, IfOk, OnOk};
ghost use Rattle.rounds_plan.specs.Configs.{most_rounds};
ghost use Rattle.run_naive.specs.Naive.{node_in};
ghost use Rattle.run_naive.specs.Keeping.{AreAllCompared, AreAllKnown, AreCompared, AreKnown, Before, past_of, shown};
ghost use Rattle.run_naive.specs.Writing.{greatest_count};

use crate::comparing::{compare_moves, note_lockstep};
use crate::difference::Difference;
use crate::node::Node;
use rounds_plan::Plan;
use rounds_walk::{PlanRef, RoundWalk, Start};
use rule_check::State;
use std::alloc::{AllocError, Global};

/// What the lockstep rounds tell of nodes: for each its lockstep state, and the first difference.
#[derive(Drop)]
pub(crate) struct Comparison {
    pub(crate) lockstep: Vec<State>,
    pub(crate) first: Option<Difference>,
}

/// The greatest count of nodes, or the plan's start where none is above it.
pub(crate) fn most_moves(plan: &Plan, nodes: &[Node]) -> u32
    ensures exact { result ≡ greatest_count plan.now (map shown nodes.now) }
    ensures late { plan.now.start ≤ result }
    ensures most { (u : ℕ) → u < length nodes.now → (node_in (map shown nodes.now) u).moves ≤ result }
    ensures few { (m : ℕ) → plan.now.start ≤ m → ((u : ℕ) → u < length nodes.now → (node_in (map shown nodes.now) u).moves ≤ m) → result ≤ m }
{
    let mut most = plan.start();
    for this in nodes {
        most = most.max(this.moves);
    }
    most
}

/// Goes on from the plan's start to a round, notes lockstep states on the way, and finds the first difference.
fn compare_rounds(
    alloc: Global,
    plan: &Plan,
    walk: &mut RoundWalk<'_>,
    nodes: &[Node],
    rounds: u32,
    lockstep: &mut [State],
) -> Result<Option<Difference>, AllocError>
    requires nodes { length nodes.now ≡ length plan.now.network }
    requires start { walk.old ≡ record { plan = plan.now; round = plan.now.start } }
    requires few { rounds ≤ most_rounds }
    requires late { plan.now.start ≤ rounds }
    requires room { length lockstep.old ≡ length plan.now.network }
    requires known { AreKnown plan.now (map shown nodes.now) plan.now.start lockstep.old }
    ensures first { IfOk result (AreCompared plan.now (map past_of nodes.now) (Before (rounds - plan.now.start))) }
    ensures known { OnOk result (AreKnown plan.now (map shown nodes.now) rounds lockstep.new) }
    ensures room { OnOk result (length lockstep.new ≡ length plan.now.network) }
{
    let start = plan.start();
    let mut first = None;
    for round in start..rounds {
        walk.step();
        let states = walk.states(alloc)?;
        let index = (round - start) as usize;
        note_lockstep(plan, nodes, &states, round + 1, lockstep);
        first = compare_moves(plan, nodes, &states, index, round + 1, first);
    }
    Ok(first)
}

/// What `compare_rounds` does, from the plan's start on.
fn compare_from_start(
    alloc: Global,
    plan: &Plan,
    nodes: &[Node],
    rounds: u32,
    lockstep: &mut [State],
) -> Result<Option<Difference>, AllocError>
    requires nodes { length nodes.now ≡ length plan.now.network }
    requires few { rounds ≤ most_rounds }
    requires late { plan.now.start ≤ rounds }
    requires room { length lockstep.old ≡ length plan.now.network }
    requires known { AreKnown plan.now (map shown nodes.now) plan.now.start lockstep.old }
    ensures first { IfOk result (AreCompared plan.now (map past_of nodes.now) (Before (rounds - plan.now.start))) }
    ensures known { OnOk result (AreKnown plan.now (map shown nodes.now) rounds lockstep.new) }
    ensures room { OnOk result (length lockstep.new ≡ length plan.now.network) }
{
    let start = Start::new(alloc, &PlanRef::of_plan(plan))?;
    let mut walk = start.walk(alloc)?;
    compare_rounds(alloc, plan, &mut walk, nodes, rounds, lockstep)
}

/// Compares all moves of nodes with the lockstep rounds of their plan.
pub(crate) fn compare(alloc: Global, plan: &Plan, nodes: &[Node]) -> Result<Comparison, AllocError>
    requires nodes { length nodes.now ≡ length plan.now.network }
    requires few { (u : ℕ) → u < length nodes.now → (node_in (map shown nodes.now) u).moves ≤ most_rounds }
    ensures first { IfOk result (λ c. AreAllCompared plan.now (map shown nodes.now) (map past_of nodes.now) c.first) }
    ensures known { IfOk result (λ c. AreAllKnown plan.now (map shown nodes.now) c.lockstep.items) }
{
    // For the proof: what holds of every plan.
    let _phase = plan.phase();
    let rounds = most_moves(plan, nodes);
    let mut lockstep = plan.openings().to_vec(alloc)?;
    let first = compare_from_start(alloc, plan, nodes, rounds, lockstep.as_mut_slice())?;
    Ok(Comparison { lockstep, first })
}
