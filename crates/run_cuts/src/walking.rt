//! What is cut in all rounds up to one, in one pass over them.
ghost use Rattle.std.specs.Prelude.{◌≡◌, ◌≢◌, ◌≤◌, map, Err, IfErr, IfOk, MatchOption, None, OnOk, Some};
ghost use Rattle.rounds_plan.specs.Configs.{most_rounds};
ghost use Rattle.rounds_plan.specs.declared.fault.RoundFault.{RoundFault};
ghost use Rattle.run_cuts.specs.Operators.{operators_of};
ghost use Rattle.run_cuts.specs.Cuts.{cuts_of, occasions, refusal_of};
ghost use Rattle.run_cuts.specs.Counting.{after_all};

use crate::cut::Cut;
use crate::operators::operators_in;
use crate::steps::count_step;
use crate::tally::Counted;
use crate::telling::{counted_of, told};
use rounds_plan::{MOST_ROUNDS, RoundFault};
use rounds_walk::{PlanRef, RoundWalk, Start};
use rule_lang::Source;
use std::alloc::{AllocError, Global};

/// Goes on from the plan's start to a round, and notes what is cut on the way.
fn count_rounds(
    alloc: Global,
    plan: &PlanRef<'_>,
    walk: &mut RoundWalk<'_>,
    rounds: u32,
    counted: &mut [Counted<'_>],
) -> Result<(), AllocError>
    requires start { walk.old ≡ record { plan = plan.now; round = plan.now.start } }
    requires few { rounds ≤ most_rounds }
    requires late { plan.now.start ≤ rounds }
    ensures exact { OnOk result (counted.new ≡ map (after_all (occasions plan.now rounds)) counted.old) }
{
    let mut nears = Vec::new(alloc);
    for round in plan.start()..rounds {
        let states = walk.states(alloc)?;
        count_step(plan, &states, round, &mut nears, counted)?;
        walk.step();
    }
    Ok(())
}

/// Makes the rounds of a plan up to one, and notes what is cut on the way.
fn count_plan<'a>(
    alloc: Global,
    plan: &PlanRef<'_>,
    rounds: u32,
    mut counted: Vec<Counted<'a>>,
) -> Result<Vec<Counted<'a>>, AllocError>
    requires few { rounds ≤ most_rounds }
    requires late { plan.now.start ≤ rounds }
    ensures exact { IfOk result (λ v. v.items ≡ map (after_all (occasions plan.now rounds)) counted.entry.items) }
{
    let start = Start::new(alloc, plan)?;
    let mut walk = start.walk(alloc)?;
    count_rounds(alloc, plan, &mut walk, rounds, &mut counted)?;
    Ok(counted)
}

/// What is told, where nothing refuses the round.
fn found(
    alloc: Global,
    source: &Source,
    plan: &PlanRef<'_>,
    rounds: u32,
    below: bool,
) -> Result<Vec<Cut>, AllocError>
    requires few { rounds ≤ most_rounds }
    requires late { plan.now.start ≤ rounds }
    ensures cuts { IfOk result (λ v. v.items ≡ cuts_of plan.now rounds below (operators_of source.now)) }
{
    // For the proof: what holds of every plan.
    let _nodes = plan.nodes();
    let operators = operators_in(alloc, source.items())?;
    let fresh = counted_of(alloc, &operators, below)?;
    let counted = count_plan(alloc, plan, rounds, fresh)?;
    let cuts = told(alloc, &counted)?;
    Ok(cuts)
}

/// The operators of a program that were cut in the rounds of a plan, up to a round, in the order of its text: each with
/// the first round and in it the first node, and at how many nodes it was cut in all rounds together. The states are
/// those of the plan; the source is that of its program. Differences below 0 are told where `below` asks for them.
///
/// `TooManyRounds` comes above 1,000,000,000, and else `RoundsBelowStart` below the plan's start, both before anything
/// is done; `Memory` only where neither holds.
pub fn cuts(
    alloc: Global,
    source: &Source,
    plan: &PlanRef<'_>,
    rounds: u32,
    below: bool,
) -> Result<Vec<Cut>, RoundFault>
    ensures cuts { IfOk result (λ v. v.items ≡ cuts_of plan.now rounds below (operators_of source.now)) }
    ensures fits { IfOk result (λ _. refusal_of plan.now rounds ≡ None) }
    ensures refused { IfErr result (λ fault. fault ≢ RoundFault.Memory → refusal_of plan.now rounds ≡ Some fault) }
    ensures at_once { MatchOption (refusal_of plan.now rounds) (Unit {0}) (λ fault. result ≡ Err fault) }
{
    if rounds > MOST_ROUNDS {
        return Err(RoundFault::TooManyRounds);
    }
    if rounds < plan.start() {
        return Err(RoundFault::RoundsBelowStart);
    }
    let cuts = found(alloc, source, plan, rounds, below)?;
    Ok(cuts)
}
