//! Lockstep rounds.
ghost use Rattle.std.specs.Prelude.{◌≡◌, IfOk, IfErr, Err};
ghost use Rattle.rounds_plan.specs.Answer.{IsAnswer};
ghost use Rattle.rounds_plan.specs.Lockstep.{rounds_of, lockstep_config};

use rounds_plan::{Config, Plan, RoundFault};
use rounds_walk::{PlanRef, Start, check_round};
use std::alloc::{AllocError, Global};

/// The configuration of the plan's start.
fn opening_config(alloc: Global, plan: &Plan) -> Result<Config, AllocError>
    ensures config { IfOk result (λ config. config ≡ lockstep_config plan.now plan.now.start) }
{
    // For the proof: what holds of every plan.
    let _phase = plan.phase();
    let states = plan.openings().to_vec(alloc)?;
    Ok(Config::of(plan, plan.start(), states))
}

/// The configuration of a round, counted from round 0, by the textbook synchronous round: from the plan's initial
/// states on all nodes move at once, each by its own state and its neighbours' states before. Where the program doesn't
/// read the number of the round, none is computed behind the first one that changes nothing.
///
/// `TooManyRounds` comes above 1,000,000,000, and else `RoundsBelowStart` below the plan's start, both before anything
/// is done.
pub fn lockstep(alloc: Global, plan: &Plan, rounds: u32) -> Result<Config, RoundFault>
    ensures exact { IsAnswer RoundFault.Memory (rounds_of plan.now rounds) result }
    ensures at_once { IfErr (rounds_of plan.now rounds) (λ fault. result ≡ Err fault) }
{
    check_round(plan.start(), rounds)?;
    if rounds == plan.start() {
        return Ok(opening_config(alloc, plan)?);
    }
    let start = Start::new(alloc, &PlanRef::of_plan(plan))?;
    let mut walk = start.walk(alloc)?;
    walk.go_to(rounds);
    Ok(walk.config(alloc, plan)?)
}
