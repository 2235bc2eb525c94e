//! Runs.
ghost use Rattle.std.specs.Prelude.{◌≡◌, ◌≤◌, ◌<◌, ◌↔◌, IfOk, IfErr, OnOk, IfSome, IsTrue, None, option_map};
ghost use Rattle.std.specs.Arc.{arc_value};
ghost use Rattle.rounds_plan.specs.Lockstep.{lockstep_config};
ghost use Rattle.unison_world.specs.Opening.{opening_of};
ghost use Rattle.unison_trace.specs.Histories.{with_log};
ghost use Rattle.unison_trace.specs.Traces.{steps_in};
ghost use Rattle.unison_pool.specs.Endings.{IsHaltAnswer, IsFinishAnswer};
ghost use Rattle.unison_pool.specs.Refusals.{Ends, Refuses, IsTooSmall, opening_refusal};
ghost use Rattle.unison_pool.specs.Runs.{IsTrace};

use crate::fault::RunFault;
use crate::gate::Gate;
use crate::shared::Shared;
use crate::team::{Halted, Team};
use rounds_plan::{MOST_ROUNDS, Plan};
use std::alloc::Global;
use std::sync::{Arc, Wait};
use std::thread::Threads;
use unison_trace::{Finished, LogFault, Logged, MOST_STEPS, steps_needed};

/// The greatest number of workers.
pub const MOST_WORKERS: u32 = 64;

/// Runs a plan to a stop in threads, and gives the configuration of that round and, where a trace was asked, the steps
/// that led there. Of `workers` workers, worker i drives the nodes whose number leaves i modulo their number. `trace`
/// is how many steps may be stored, and counts as 1,000,000 where it is above; without one none are stored. The gate is
/// called before each computation, while the worker holds no lock.
///
/// `WorkerCount` comes for no worker or more than 64, else `StopTooLarge` above 1,000,000,000, and else
/// `StopBelowStart` below the plan's start, all before anything is done. Then `NoThread` comes before any worker's
/// fault, and of these that of the least worker: `Memory`, or `TraceFull` where more steps are needed than may be
/// stored. What stood under the lock is finished only where no fault was met: it is `Foreign` where its plan, its stop
/// or the presence of its trace is not what was asked, and else `Unfinished` where a node stands below the stop.
///
/// A run waits for its lock and for its workers: it need not return, and what it promises holds where it does.
pub fn run<R: Threads + Wait + Sync, G: Gate + Sync>(
    rt: &R,
    alloc: Global,
    plan: &Arc<Plan>,
    stop: u32,
    workers: u32,
    trace: Option<u32>,
    gate: &G,
) -> Result<Finished, RunFault>
    ensures accepted { OnOk result (opening_refusal (arc_value plan.now) stop workers ≡ None) }
    ensures config { IfOk result (λ f. f.config ≡ lockstep_config (arc_value plan.now) stop) }
    ensures trace { IfOk result (λ f. IsTrace (arc_value plan.now) stop trace (option_map (λ v. v.items) f.trace)) }
    ensures at_once { IfSome (opening_refusal (arc_value plan.now) stop workers) (λ fault. result ≡ Err fault) }
    ensures refused { IfErr result (Refuses (arc_value plan.now) stop workers trace) }
{
    if let Some(fault) = opening_refusal(plan, stop, workers) {
        return Err(fault);
    }
    let shared = Shared::new(open(alloc, plan, stop, trace)?);
    let team = Team {
        rt,
        alloc,
        plan,
        shared: &shared,
        gate,
        stop,
    };
    if let Err(halted) = team.drive_all(workers) {
        return Err(fault_of(halted, plan, stop, trace));
    }
    finish(alloc, shared.into_logged(), plan, stop, trace)
}

/// Why a run of a plan to a stop by so many workers isn't begun: `WorkerCount` for no worker or more than 64, else
/// `StopTooLarge` above 1,000,000,000, else `StopBelowStart` below the plan's start.
pub fn opening_refusal(plan: &Plan, stop: u32, workers: u32) -> Option<RunFault>
    ensures exact { result ≡ opening_refusal plan.now stop workers }
{
    if workers == 0 || workers > MOST_WORKERS {
        return Some(RunFault::WorkerCount);
    }
    if stop > MOST_ROUNDS {
        return Some(RunFault::StopTooLarge);
    }
    if stop < plan.start() {
        return Some(RunFault::StopBelowStart);
    }
    None
}

/// A world of the plan before any step, with no steps stored and the limit that was asked.
fn open(alloc: Global, plan: &Arc<Plan>, stop: u32, trace: Option<u32>) -> Result<Logged, RunFault>
    requires limit { stop ≤ 1000000000 }
    requires start { (arc_value plan.now).start ≤ stop }
    ensures opened { IfOk result (λ logged. with_log trace (opening_of (arc_value plan.now) stop) ≡ Ok logged) }
    ensures memory { IfErr result (λ fault. fault ≡ RunFault.Memory) }
{
    Ok(Logged::new(alloc, Arc::try_clone(plan)?, stop, trace)?)
}

/// What a run answers where its workers were told to end. A full trace is answered only where the trace that was
/// asked needs more steps than this limit.
fn fault_of(halted: Halted, plan: &Plan, stop: u32, trace: Option<u32>) -> RunFault
    ensures answer { IsHaltAnswer plan.now stop trace halted result }
    ensures ends { Ends plan.now stop trace result }
{
    match halted {
        Halted::NoThread => RunFault::NoThread,
        Halted::Fault(LogFault::Memory) => RunFault::Memory,
        Halted::Fault(LogFault::TraceFull { limit }) => {
            if is_too_small(plan, stop, trace, limit) {
                RunFault::TraceFull { limit }
            } else {
                RunFault::Foreign
            }
        }
    }
}

/// Whether this is the limit of the trace that was asked, and it is below the number of steps to the stop.
fn is_too_small(plan: &Plan, stop: u32, trace: Option<u32>, limit: u32) -> bool
    ensures { IsTrue result ↔ IsTooSmall plan.now stop trace limit }
{
    match trace {
        None => false,
        Some(asked) => {
            limit == asked.min(MOST_STEPS) && (limit as u64) < steps_needed(plan, stop)
        }
    }
}

/// Finishes what stood under the lock, of which its type alone is known: its plan, its stop and the presence of its
/// trace are compared with what was asked before any node is looked at.
fn finish(
    alloc: Global,
    logged: Logged,
    plan: &Plan,
    stop: u32,
    trace: Option<u32>,
) -> Result<Finished, RunFault>
    ensures config { IfOk result (λ f. f.config ≡ lockstep_config plan.now stop) }
    ensures trace { IfOk result (λ f. IsTrace plan.now stop trace (option_map (λ v. v.items) f.trace)) }
    ensures steps { IfOk result (λ f. option_map (λ v. v.items) f.trace ≡ steps_in logged.log) }
    ensures refused { IfErr result (Ends plan.now stop trace) }
    ensures answer { IfErr result (IsFinishAnswer logged plan.now stop trace) }
{
    if logged.steps().is_some() != trace.is_some() {
        return Err(RunFault::Foreign);
    }
    Ok(logged.finish(alloc, plan, stop)?)
}
