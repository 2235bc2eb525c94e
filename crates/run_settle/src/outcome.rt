//! What becomes of the rounds of a plan, found out.
ghost use Rattle.std.specs.Prelude.{◌≡◌, ◌*◌, ◌≤◌, None, false, IfOk, IfErr};
ghost use Rattle.rule_check.specs.Rounds.{reads_round};
ghost use Rattle.rounds_plan.specs.Configs.{most_rounds};
ghost use Rattle.rounds_plan.specs.Plans.{PlanView};
ghost use Rattle.run_settle.specs.declared.settling.Settling.{Settling};
ghost use Rattle.run_settle.specs.Outcomes.{IsSettling, IsFaultOf, refusal_of};
ghost use Rattle.run_settle.specs.Searching.{IsFound, LeadsInside, last_of};

use crate::course::Course;
use crate::fault::SettleFault;
use crate::search::{Found, search};
use crate::settling::Settling;
use crate::tail::first_round;
use rounds_plan::MOST_ROUNDS;
use rounds_walk::{InThreads, InTurn, PlanRef, Start, Way};
use std::alloc::{AllocError, Global};
use std::thread::Threads;

/// Why there is no answer, whatever memory there is.
fn refusal(uses_round: bool, start: u32, limit: u32) -> Option<SettleFault>
    ensures { (p : PlanView) → reads_round p.program ≡ uses_round → p.start ≡ start → result ≡ refusal_of p limit }
{
    if uses_round {
        return Some(SettleFault::ReadsRound);
    }
    if limit > MOST_ROUNDS {
        return Some(SettleFault::LimitTooLarge);
    }
    if limit < start {
        return Some(SettleFault::LimitBelowStart);
    }
    None
}

/// What becomes of the rounds up to the limit, after what a search came upon.
fn settling_of<W: Way>(
    alloc: Global,
    course: &Course<'_, W>,
    found: Found,
    limit: u32,
) -> Result<Settling, AllocError>
    requires way { W.serves course.now.way.now }
    requires inside { LeadsInside course.now.start.now.network }
    requires unread { reads_round course.now.start.now.program ≡ false }
    requires found { IsFound course.now.start.now found }
    requires last { last_of found ≤ 2 * most_rounds }
    ensures settling { IfOk result (IsSettling course.now.start.now limit) }
{
    match found {
        Found::Still { round } => {
            if round >= limit {
                return Ok(Settling::Open { limit });
            }
            Ok(Settling::Settles { round })
        }
        Found::Again { mark, period } => {
            let round = first_round(alloc, course, mark, period)?;
            if round + period > limit {
                return Ok(Settling::Open { limit });
            }
            Ok(Settling::Repeats { round, period })
        }
    }
}

/// What becomes of the rounds up to the limit, where nothing refuses it.
fn settled<W: Way>(
    alloc: Global,
    course: &Course<'_, W>,
    limit: u32,
) -> Result<Settling, AllocError>
    requires way { W.serves course.now.way.now }
    requires inside { LeadsInside course.now.start.now.network }
    requires unread { reads_round course.now.start.now.program ≡ false }
    requires late { course.now.start.now.start ≤ limit }
    requires few { limit ≤ most_rounds }
    ensures settling { IfOk result (IsSettling course.now.start.now limit) }
    ensures only { IfOk result (λ found. (s : Settling) → IsSettling course.now.start.now limit s → s ≡ found) }
{
    let found = search(alloc, course, limit)?;
    let Some(found) = found else {
        return Ok(Settling::Open { limit });
    };
    let settling = settling_of(alloc, course, found, limit)?;
    Ok(settling)
}

/// What becomes of the rounds of a course up to the limit, where nothing refuses it.
fn settle_by<W: Way>(
    alloc: Global,
    course: &Course<'_, W>,
    limit: u32,
) -> Result<Settling, AllocError>
    requires way { W.serves course.now.way.now }
    requires fits { refusal_of course.now.start.now limit ≡ None }
    ensures settling { IfOk result (IsSettling course.now.start.now limit) }
    ensures only { IfOk result (λ found. (s : Settling) → IsSettling course.now.start.now limit s → s ≡ found) }
{
    // For the proof: what holds of every start.
    let _start = course.first_round();
    settled(alloc, course, limit)
}

/// What becomes of the lockstep rounds of a plan from its start up to a limit, a round counted from round 0: the states
/// of all nodes settle, or they repeat, or neither shows up to the limit. There is one answer for each plan and limit.
///
/// It takes memory for two walks over the rounds at a time, whatever the limit, and none makes more than twice the
/// rounds from the start to the limit.
///
/// `ReadsRound` comes where the program reads the number of the round, else `LimitTooLarge` above 1,000,000,000, and
/// else `LimitBelowStart` below the plan's start, all before any memory is taken; `Memory` only where none of them
/// does.
pub fn settle(alloc: Global, plan: &PlanRef<'_>, limit: u32) -> Result<Settling, SettleFault>
    ensures settling { IfOk result (IsSettling plan.now limit) }
    ensures only { IfOk result (λ found. (s : Settling) → IsSettling plan.now limit s → s ≡ found) }
    ensures refused { IfErr result (IsFaultOf plan.now limit) }
    ensures fits { IfOk result (λ _. refusal_of plan.now limit ≡ None) }
{
    if let Some(fault) = refusal(plan.program().uses_round(), plan.start(), limit) {
        return Err(fault);
    }
    let start = Start::new(alloc, plan)?;
    let way = InTurn;
    let course = Course {
        start: &start,
        way: &way,
        threads: 1,
    };
    let settling = settle_by(alloc, &course, limit)?;
    Ok(settling)
}

/// What `settle` tells, where each round that has enough to compute is shared among so many threads, and made
/// sequentially where they are fewer than two.
///
/// Refusals are those of `settle`, and come before any memory is taken.
pub fn settle_shared(
    rt: &(impl Threads + Sync),
    alloc: Global,
    plan: &PlanRef<'_>,
    limit: u32,
    threads: usize,
) -> Result<Settling, SettleFault>
    ensures settling { IfOk result (IsSettling plan.now limit) }
    ensures only { IfOk result (λ found. (s : Settling) → IsSettling plan.now limit s → s ≡ found) }
    ensures refused { IfErr result (IsFaultOf plan.now limit) }
    ensures fits { IfOk result (λ _. refusal_of plan.now limit ≡ None) }
{
    if threads < 2 {
        return settle(alloc, plan, limit);
    }
    if let Some(fault) = refusal(plan.program().uses_round(), plan.start(), limit) {
        return Err(fault);
    }
    let start = Start::to_share(alloc, plan)?;
    let way = InThreads { rt };
    let course = Course {
        start: &start,
        way: &way,
        threads,
    };
    let settling = settle_by(alloc, &course, limit)?;
    Ok(settling)
}
