//! Lockstep rounds in threads.
ghost use Rattle.std.specs.Prelude.{◌≡◌, IfErr, Err};
ghost use Rattle.rounds_plan.specs.Answer.{IsAnswer};
ghost use Rattle.rounds_plan.specs.Lockstep.{rounds_of};

use crate::rounds::lockstep;
use rayon::current_num_threads;
use rounds_blocks::is_worth_sharing;
use rounds_plan::{Config, Plan, RoundFault};
use rounds_walk::{PlanRef, Start, check_round};
use std::alloc::Global;
use std::thread::Threads;

/// Whether a whole round of a plan has as much work as threads have to save.
fn is_worth_threads(plan: &Plan) -> bool {
    let network = plan.network();
    let ends = 2 * network.links() as u64;
    is_worth_sharing(plan.program(), network.nodes() as u64, ends)
}

/// The configuration of a round, as `lockstep` gives it. Each round is shared among as many threads as there are
/// processors, or made sequentially where what has to be computed is too little to pay for them.
///
/// `TooManyRounds` comes above 1,000,000,000, and else `RoundsBelowStart` below the plan's start, both before anything
/// is done.
pub fn lockstep_par(
    rt: &(impl Threads + Sync),
    alloc: Global,
    plan: &Plan,
    rounds: u32,
) -> Result<Config, RoundFault>
    ensures exact { IsAnswer RoundFault.Memory (rounds_of plan.now rounds) result }
    ensures at_once { IfErr (rounds_of plan.now rounds) (λ fault. result ≡ Err fault) }
{
    if rounds == plan.start() || !is_worth_threads(plan) {
        return lockstep(alloc, plan, rounds);
    }
    check_round(plan.start(), rounds)?;
    let start = Start::to_share(alloc, &PlanRef::of_plan(plan))?;
    let mut walk = start.shared_walk(alloc, current_num_threads(rt))?;
    walk.go_to_shared(rt, rounds);
    Ok(walk.config(alloc, plan)?)
}
