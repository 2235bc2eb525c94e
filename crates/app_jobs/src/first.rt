//! The first fault of a job, found without doing it.
ghost use Rattle.std.specs.Prelude.{◌≡◌, ◌≢◌, List, IfOk, IfSome, IsNone, None, Some, Ok, Err, true};
ghost use Rattle.rule_lang.specs.Tree.{ItemTree};
ghost use Rattle.link_net.specs.Causes.{IsCause, fault_of};
ghost use Rattle.link_net.specs.Reading.{Description, reading_of};
ghost use Rattle.rounds_plan.specs.declared.fault.RoundFault.{RoundFault as RefusedRound};
ghost use Rattle.rounds_plan.specs.Lockstep.{rounds_of};
ghost use Rattle.unison_world.specs.declared.fault.OpenFault.{OpenFault as Refused};
ghost use Rattle.unison_world.specs.declared.fault.OpenFault.TheVariants as opening;
ghost use Rattle.unison_world.specs.Opening.{opening_of};
ghost use Rattle.unison_world.specs.View.{opened};
ghost use Rattle.unison_trace.specs.declared.fault.ReplayFault.{ReplayFault as RefusedReplay};
ghost use Rattle.unison_trace.specs.declared.fault.ReplayFault.TheVariants as replay;
ghost use Rattle.unison_trace.specs.ReplayFaults.{IsRefusedText};
ghost use Rattle.unison_pool.specs.declared.fault.RunFault.{RunFault as RefusedRun};
ghost use Rattle.unison_pool.specs.Refusals.{Refuses};
ghost use Rattle.app_jobs.specs.declared.job.Job.{Job};
ghost use Rattle.app_jobs.specs.declared.fault.ServeFault.TheVariants as fault;
ghost use Rattle.app_jobs.specs.Served.{IsAccepted, NeedsNetwork, RefusesProgram, RefusesTexts, given, trace_limit};
ghost use Rattle.app_jobs.specs.FirstFault.{HasNetwork, HasRounds, IsFirstFault, IsPlanFault, IsReplayable, IsRunnable, IsUnrefused, IsUnrefusedPlan, is_shown};

use crate::fault::ServeFault;
use crate::job::Job;
use crate::plans::plan_from;
use link_net::{NetCause, NetFault};
use report_text::ReportFault;
use rounds_plan::{MOST_ROUNDS, Plan, PlanFault, RoundFault};
use rule_check::{CheckFault, check};
use rule_lang::{LangFault, read_program};
use std::alloc::{AllocError, Global};
use unison_pool::{RunFault, opening_refusal};
use unison_trace::{MOST_STEPS, ReplayFault, ScheduleFault, read_schedule, steps_needed};
use unison_world::OpenFault;

/// Whether the texts of a job show the fault.
fn is_shown(fault: &ServeFault) -> bool
    ensures exact { result ≡ is_shown fault.now }
{
    match fault {
        ServeFault::Lang(fault) => *fault != LangFault::Memory,
        ServeFault::Check(fault) => *fault != CheckFault::Memory,
        ServeFault::Net(fault) => *fault != NetFault::Memory,
        ServeFault::Plan(fault) => *fault != PlanFault::Memory,
        ServeFault::Report(fault) => *fault != ReportFault::Memory,
        ServeFault::Round(fault) => *fault != RoundFault::Memory,
        ServeFault::Run(
            RunFault::NoThread | RunFault::Foreign | RunFault::Unfinished { .. } | RunFault::Memory,
        ) => false,
        ServeFault::Run(_) => true,
        ServeFault::Replay(ReplayFault::Schedule(fault)) => *fault != ScheduleFault::Memory,
        ServeFault::Replay(ReplayFault::Opening(fault)) => *fault != OpenFault::Memory,
        ServeFault::Replay(_) | ServeFault::Write { .. } | ServeFault::Memory => false,
    }
}

/// The fault as an answer, or running out of memory: that is all that remains where the texts do not show it.
pub fn shown_fault(fault: ServeFault) -> Result<Option<ServeFault>, AllocError>
    ensures fault { IfOk result (λ found. (found ≡ Some fault) × (is_shown fault ≡ true)) }
{
    if !is_shown(&fault) {
        return Err(AllocError);
    }
    Ok(Some(fault))
}

/// The first fault of a program's text.
fn program_fault(alloc: Global, program: &[u8]) -> Result<Option<ServeFault>, AllocError>
    ensures refused { IfOk result (λ found. IfSome found (RefusesProgram program.now)) }
    ensures shown { IfOk result (λ found. IfSome found (λ f. is_shown f ≡ true)) }
    ensures accepted { IfOk result (λ found. IsNone found → (items : List ItemTree) × IsAccepted program.now items) }
{
    let source = match read_program(alloc, program) {
        Ok(source) => source,
        Err(fault) => return shown_fault(ServeFault::Lang(fault)),
    };
    match check(alloc, &source) {
        Ok(_program) => Ok(None),
        Err(fault) => shown_fault(ServeFault::Check(fault)),
    }
}

/// Why the lockstep rounds of a plan are refused.
fn rounds_fault(plan: &Plan, rounds: u32) -> Option<ServeFault>
    ensures refused { IfSome result (λ f. (g : RefusedRound) × (f ≡ fault.Round g) × (rounds_of plan.now rounds ≡ Err g)) }
    ensures accepted { IsNone result → HasRounds plan.now rounds }
{
    if rounds > MOST_ROUNDS {
        return Some(ServeFault::Round(RoundFault::TooManyRounds));
    }
    if rounds < plan.start() {
        return Some(ServeFault::Round(RoundFault::RoundsBelowStart));
    }
    None
}

/// Why a run of a plan is refused, threads and memory aside.
fn run_fault(plan: &Plan, rounds: u32, workers: u32, traced: bool) -> Option<ServeFault>
    ensures refused { IfSome result (λ f. (g : RefusedRun) × (f ≡ fault.Run g) × Refuses plan.now rounds workers (trace_limit traced) g) }
    ensures accepted { IsNone result → IsRunnable plan.now rounds workers traced }
{
    if let Some(fault) = opening_refusal(plan, rounds, workers) {
        return Some(ServeFault::Run(fault));
    }
    if traced && steps_needed(plan, rounds) > MOST_STEPS as u64 {
        return Some(ServeFault::Run(RunFault::TraceFull { limit: MOST_STEPS }));
    }
    None
}

/// Why a replay of a plan is refused for a schedule's text.
fn replay_fault(
    alloc: Global,
    plan: &Plan,
    stop: u32,
    schedule: &[u8],
) -> Result<Option<ServeFault>, AllocError>
    ensures refused { IfOk result (λ found. IfSome found (λ f. (g : RefusedReplay) × (f ≡ fault.Replay g) × IsRefusedText plan.now stop schedule.now g)) }
    ensures accepted { IfOk result (λ found. IsNone found → IsReplayable plan.now stop schedule.now) }
{
    match read_schedule(alloc, schedule) {
        Err(ScheduleFault::Memory) => return Err(AllocError),
        Err(fault) => return Ok(Some(ServeFault::Replay(ReplayFault::Schedule(fault)))),
        Ok(_steps) => {}
    }
    Ok(opening_fault(plan, stop))
}

/// Why a world of a plan is not opened, as a replay's fault.
fn opening_fault(plan: &Plan, stop: u32) -> Option<ServeFault>
    ensures refused { IfSome result (λ f. (g : Refused) × (f ≡ fault.Replay (replay.Opening g)) × (g ≢ opening.Memory) × (opening_of plan.now stop ≡ Err g)) }
    ensures accepted { IsNone result → opening_of plan.now stop ≡ Ok (opened plan.now stop) }
{
    if stop > MOST_ROUNDS {
        return Some(ServeFault::Replay(ReplayFault::Opening(OpenFault::StopTooLarge)));
    }
    if stop < plan.start() {
        return Some(ServeFault::Replay(ReplayFault::Opening(OpenFault::StopBelowStart)));
    }
    None
}

/// Why a job is refused for a plan. `schedule` is the text of a replay's schedule.
fn plan_fault(
    alloc: Global,
    job: &Job,
    plan: &Plan,
    schedule: &[u8],
) -> Result<Option<ServeFault>, AllocError>
    requires planned { job.now ≢ Job.Check }
    ensures refused { IfOk result (λ found. IfSome found (IsPlanFault job.now plan.now schedule.now)) }
    ensures accepted { IfOk result (λ found. IsNone found → IsUnrefusedPlan job.now plan.now schedule.now) }
{
    match *job {
        Job::Check => unreachable!(),
        Job::Lockstep { rounds } => Ok(rounds_fault(plan, rounds)),
        Job::Run {
            rounds,
            workers,
            traced,
        } => Ok(run_fault(plan, rounds, workers, traced)),
        Job::Replay { stop } => replay_fault(alloc, plan, stop, schedule),
        Job::Compare { rounds, workers } => match rounds_fault(plan, rounds) {
            Some(fault) => Ok(Some(fault)),
            None => Ok(run_fault(plan, rounds, workers, false)),
        },
    }
}

/// Why a network is refused.
fn refused_network(alloc: Global, network: &[u8]) -> Result<Option<NetCause>, AllocError>
    ensures refused { IfOk result (λ found. IfSome found (λ cause. reading_of network.now ≡ Err (fault_of cause))) }
    ensures named { IfOk result (λ found. IfSome found (IsCause network.now)) }
    ensures read { IfOk result (λ found. IsNone found → (d : Description) × (reading_of network.now ≡ Ok d)) }
{
    let cause = link_net::diagnose(alloc, network)?;
    Ok(cause)
}

/// Why the network of a job is refused, where that is its first fault: its program is accepted, and it needs a network.
/// Of such a job there is no cause only where the network is read.
pub fn network_cause(
    alloc: Global,
    job: &Job,
    program: &[u8],
    network: &[u8],
) -> Result<Option<NetCause>, AllocError>
    ensures needed { IfOk result (λ found. IfSome found (λ cause. NeedsNetwork job.now)) }
    ensures refused { IfOk result (λ found. IfSome found (λ cause. RefusesTexts program.now network.now None (fault.Net (fault_of cause)))) }
    ensures named { IfOk result (λ found. IfSome found (IsCause network.now)) }
    ensures read { IfOk result (λ found. IsNone found → HasNetwork job.now program.now network.now) }
{
    if let Job::Check = *job {
        return Ok(None);
    }
    if program_fault(alloc, program)?.is_some() {
        return Ok(None);
    }
    let cause = refused_network(alloc, network)?;
    Ok(cause)
}

/// The first fault with which a job on these texts would end, found without doing it; none where it would be done,
/// running out of memory, threads and devices aside. `network` is not looked at for `check`, nor `schedule` but for
/// `replay`.
pub fn first_fault(
    alloc: Global,
    job: &Job,
    program: &[u8],
    network: &[u8],
    from: Option<&[u8]>,
    schedule: &[u8],
) -> Result<Option<ServeFault>, AllocError>
    ensures refused { IfOk result (λ found. IfSome found (IsFirstFault job.now program.now network.now (given from.entry) schedule.now)) }
    ensures shown { IfOk result (λ found. IfSome found (λ f. is_shown f ≡ true)) }
    ensures accepted { IfOk result (λ found. IsNone found → IsUnrefused job.now program.now network.now (given from.entry) schedule.now) }
{
    if let Job::Check = *job {
        return program_fault(alloc, program);
    }
    let plan = match plan_from(alloc, program, network, from) {
        Ok(plan) => plan,
        Err(fault) => return shown_fault(fault),
    };
    match plan_fault(alloc, job, &plan, schedule)? {
        Some(fault) => shown_fault(fault),
        None => Ok(None),
    }
}
