//! Answers: the texts that jobs without a schedule write.
ghost use Rattle.std.specs.Prelude.{◌≡◌, ℕ, List, false, Option, None, IfOk, IfErr, option_map};
ghost use Rattle.std.specs.Arc.{arc_value};
ghost use Rattle.app_jobs.specs.declared.job.Job.{Job};
ghost use Rattle.app_jobs.specs.Served.{AreTextOf, HasPlanShape, HasPlanText, HasTrace, IsLongFirst, IsPlanRefusal, IsPlanServed, IsPlanTrace, IsRefusal, IsRoundReport, IsServed, IsTraceText, IsUnscheduled, IsUnwritten, RefusesProgram, given, same_text, trace_limit};

use crate::comparison::difference_line;
use crate::fault::ServeFault;
use crate::job::Job;
use crate::plans::{program_of, shared_plan};
use lockstep::lockstep_par;
use report_text::report;
use rounds_plan::{Config, Plan, compare};
use rule_lang::write_program;
use std::alloc::{AllocError, Global};
use std::sync::{Arc, Wait};
use std::thread::Threads;
use unison_pool::{OpenGate, run};
use unison_trace::{MOST_STEPS, write_schedule};
use unison_world::Step;

/// The canonical spelling of a program.
fn canonical(alloc: Global, program: &[u8]) -> Result<Vec<u8>, ServeFault>
    ensures served { (network : List ℕ) (from : Option (List ℕ)) → IfOk result (λ text. IsServed Job.Check program.now network from text.items) }
    ensures refused { IfErr result (RefusesProgram program.now) }
    ensures long { IfErr result (IsLongFirst program.now) }
    ensures unwritten { IfErr result IsUnwritten }
{
    let (source, _program) = program_of(alloc, program)?;
    Ok(write_program(alloc, &source)?)
}

/// The text that a job writes, and the text of a trace where it asks for one.
#[derive(Drop)]
pub(crate) struct Text {
    pub(crate) answer: Vec<u8>,
    pub(crate) trace: Option<Vec<u8>>,
    /// Whether it tells a difference.
    pub(crate) differs: bool,
}

/// The limit of a trace, where one is asked for.
fn trace_limit(traced: bool) -> Option<u32>
    ensures limit { result ≡ trace_limit traced }
{
    if traced { Some(MOST_STEPS) } else { None }
}

/// The text of a trace, where there is one.
fn trace_text(alloc: Global, trace: &Option<Vec<Step>>) -> Result<Option<Vec<u8>>, AllocError>
    ensures steps { IfOk result (λ text. AreTextOf (option_map (λ v. v.items) trace.now) (option_map (λ v. v.items) text)) }
{
    match trace {
        None => Ok(None),
        Some(steps) => Ok(Some(write_schedule(alloc, steps)?)),
    }
}

/// The report of a round.
fn lockstep_text(
    rt: &(impl Threads + Wait + Sync),
    alloc: Global,
    plan: &Plan,
    rounds: u32,
) -> Result<Vec<u8>, ServeFault>
    ensures served { IfOk result (λ text. IsRoundReport plan.now rounds text.items) }
    ensures refused { IfErr result (IsPlanRefusal (Job.Lockstep rounds) plan.now) }
{
    let config = lockstep_par(rt, alloc, plan, rounds)?;
    Ok(report(alloc, plan, &config)?)
}

/// The report of a round by workers, and the text of their trace where it is asked for.
fn run_text(
    rt: &(impl Threads + Wait + Sync),
    alloc: Global,
    plan: &Arc<Plan>,
    rounds: u32,
    workers: u32,
    traced: bool,
) -> Result<Text, ServeFault>
    ensures served { IfOk result (λ t. IsPlanServed (Job.Run rounds workers traced) (arc_value plan.now) t.answer.items) }
    ensures trace { IfOk result (λ t. IsTraceText (arc_value plan.now) rounds traced (option_map (λ v. v.items) t.trace)) }
    ensures agrees { IfOk result (λ t. t.differs ≡ false) }
    ensures refused { IfErr result (IsPlanRefusal (Job.Run rounds workers traced) (arc_value plan.now)) }
{
    let limit = trace_limit(traced);
    let finished = run(rt, alloc, plan, rounds, workers, limit, &OpenGate)?;
    let answer = report(alloc, plan, &finished.config)?;
    let trace = trace_text(alloc, &finished.trace)?;
    Ok(Text {
        answer,
        trace,
        differs: false,
    })
}

/// Whether two configurations of a plan agree: the line that says so, or that of their first difference.
fn comparison_text(
    alloc: Global,
    plan: &Plan,
    rounds: &Config,
    ran: &Config,
) -> Result<Text, AllocError>
    requires equal { rounds.now ≡ ran.now }
    requires shape { HasPlanShape plan.now rounds.now }
    ensures same { IfOk result (λ t. (t.answer.items ≡ same_text) × (t.trace ≡ None) × (t.differs ≡ false)) }
{
    match compare(rounds, ran) {
        None => Ok(Text {
            answer: Vec::from_slice(alloc, b"same\n")?,
            trace: None,
            differs: false,
        }),
        Some(difference) => Ok(Text {
            answer: difference_line(alloc, plan, &difference)?,
            trace: None,
            differs: true,
        }),
    }
}

/// Whether the lockstep rounds and a run by workers agree.
fn compare_text(
    rt: &(impl Threads + Wait + Sync),
    alloc: Global,
    plan: &Arc<Plan>,
    rounds: u32,
    workers: u32,
) -> Result<Text, ServeFault>
    ensures served { IfOk result (λ t. IsPlanServed (Job.Compare rounds workers) (arc_value plan.now) t.answer.items) }
    ensures agrees { IfOk result (λ t. (t.trace ≡ None) × (t.differs ≡ false)) }
    ensures refused { IfErr result (IsPlanRefusal (Job.Compare rounds workers) (arc_value plan.now)) }
{
    let stepped = lockstep_par(rt, alloc, plan, rounds)?;
    let finished = run(rt, alloc, plan, rounds, workers, None, &OpenGate)?;
    Ok(comparison_text(alloc, plan, &stepped, &finished.config)?)
}

/// A text without a trace.
fn plain(answer: Vec<u8>) -> Text
    ensures answer { result.answer.items ≡ answer.items }
    ensures bare { (result.trace ≡ None) × (result.differs ≡ false) }
{
    Text {
        answer,
        trace: None,
        differs: false,
    }
}

/// What a job writes for a plan.
fn plan_text(
    rt: &(impl Threads + Wait + Sync),
    alloc: Global,
    job: &Job,
    plan: &Arc<Plan>,
) -> Result<Text, ServeFault>
    requires planned { HasPlanText job.now }
    ensures served { IfOk result (λ t. IsPlanServed job.now (arc_value plan.now) t.answer.items) }
    ensures trace { IfOk result (λ t. IsPlanTrace job.now (arc_value plan.now) (option_map (λ v. v.items) t.trace)) }
    ensures agrees { IfOk result (λ t. t.differs ≡ false) }
    ensures refused { IfErr result (IsPlanRefusal job.now (arc_value plan.now)) }
{
    match *job {
        Job::Run {
            rounds,
            workers,
            traced,
        } => run_text(rt, alloc, plan, rounds, workers, traced),
        Job::Compare { rounds, workers } => compare_text(rt, alloc, plan, rounds, workers),
        Job::Lockstep { rounds } => Ok(plain(lockstep_text(rt, alloc, plan, rounds)?)),
        Job::Check | Job::Replay { .. } => unreachable!(),
    }
}

/// What a job writes that reads no schedule.
pub(crate) fn answer(
    rt: &(impl Threads + Wait + Sync),
    alloc: Global,
    job: &Job,
    program: &[u8],
    network: &[u8],
    from: Option<&[u8]>,
) -> Result<Text, ServeFault>
    requires unscheduled { IsUnscheduled job.now }
    ensures served { IfOk result (λ t. IsServed job.now program.now network.now (given from.entry) t.answer.items) }
    ensures trace { IfOk result (λ t. HasTrace job.now program.now network.now (given from.entry) (option_map (λ v. v.items) t.trace)) }
    ensures agrees { IfOk result (λ t. t.differs ≡ false) }
    ensures refused { IfErr result (IsRefusal job.now program.now network.now (given from.entry)) }
    ensures long { IfErr result (IsLongFirst program.now) }
    ensures unwritten { IfErr result IsUnwritten }
{
    if let Job::Check = *job {
        return Ok(plain(canonical(alloc, program)?));
    }
    let plan = shared_plan(alloc, program, network, from)?;
    plan_text(rt, alloc, job, &plan)
}
