//! Why a job is not done, told for people.
ghost use Rattle.std.specs.Prelude.{◌≡◌, [], IfOk, IfSome, IsNone, Some, true};
ghost use Rattle.link_net.specs.Causes.{fault_of};
ghost use Rattle.app_jobs.specs.declared.fault.ServeFault.TheVariants as fault;
ghost use Rattle.app_jobs.specs.Served.{given};
ghost use Rattle.app_jobs.specs.FirstFault.{IsFirstFault, IsUnrefused, is_shown};
ghost use Rattle.app_why.specs.Given.{network_of, report_of, schedule_of};
ghost use Rattle.app_why.specs.Notes.{AreNotedIn};

use crate::kinds::with_kind;
use crate::lexical::tell_lexical;
use crate::lines::{tell_report_line, tell_step};
use crate::network::tell_network;
use crate::notes::{Noted, notes};
use crate::plans::tell_plan;
use crate::refused::tell_refused;
use crate::runs::{
    tell_below_start, tell_else, tell_report_round, tell_too_large, tell_too_many_steps,
    tell_trace_full, tell_workers,
};
use crate::shown::shown;
use crate::syntax::tell_syntax;
use crate::told::{Part, Texts, Told};
use app_jobs::{Job, ServeFault, first_fault, network_cause, plan_from, shown_fault};
use link_net::{NetCause, NetFile, read_network};
use report_text::ReportFault;
use rounds_plan::{Plan, RoundFault, diagnose_plan};
use rule_check::{Program, check};
use rule_lang::{LangCause, Source, read_program};
use std::alloc::{AllocError, Global};
use unison_pool::RunFault;
use unison_trace::{ReplayFault, ScheduleFault};
use unison_world::OpenFault;

/// The first fault of a job, where it has one, and what people are told.
#[derive(Drop)]
pub struct Finding {
    /// The fault with which the job ends; none where nothing refuses it.
    pub fault: Option<ServeFault>,
    /// What is wrong, where, and what to do; where nothing is, notes on what is rarely meant.
    pub text: String,
    /// The places of the products and totals that the notes name as ones that can be cut: those of their `*` and `total`
    /// in the program's text, in bytes from 0, in order. None where there is a fault.
    pub cuts: Vec<usize>,
}

/// The items of a program's text that was read before: only memory can be wanting.
fn source_of(alloc: Global, text: &[u8]) -> Result<Source, AllocError> {
    match read_program(alloc, text) {
        Ok(source) => Ok(source),
        Err(_) => Err(AllocError),
    }
}

/// The program of a text that was accepted before.
fn program_of(alloc: Global, text: &[u8]) -> Result<Program, AllocError> {
    match check(alloc, &source_of(alloc, text)?) {
        Ok(program) => Ok(program),
        Err(_) => Err(AllocError),
    }
}

/// The bytes of the network.
fn network_text<'a>(texts: &Texts<'a>) -> &'a [u8]
    ensures { result.now ≡ network_of texts.now }
{
    match texts.network {
        Some(named) => named.text,
        None => &[],
    }
}

/// The bytes of the report to go on from.
pub(crate) fn report_text<'a>(texts: &Texts<'a>) -> Option<&'a [u8]>
    ensures { given result ≡ report_of texts.now }
{
    match texts.report {
        Some(named) => Some(named.text),
        None => None,
    }
}

/// The bytes of the schedule.
fn schedule_text<'a>(texts: &Texts<'a>) -> &'a [u8]
    ensures { result.now ≡ schedule_of texts.now }
{
    match texts.schedule {
        Some(named) => named.text,
        None => &[],
    }
}

/// What the network file describes, which was read before.
fn file_of(alloc: Global, texts: &Texts) -> Result<NetFile, AllocError> {
    match read_network(alloc, network_text(texts)) {
        Ok(file) => Ok(file),
        Err(_) => Err(AllocError),
    }
}

/// The plan of the texts with this report to go on from, which was accepted before.
fn plan_of(alloc: Global, texts: &Texts, report: Option<&[u8]>) -> Result<Plan, AllocError> {
    match plan_from(alloc, texts.program.text, network_text(texts), report) {
        Ok(plan) => Ok(plan),
        Err(_) => Err(AllocError),
    }
}

/// What is told of a program's text that is refused.
fn tell_program(alloc: Global, text: &[u8]) -> Result<Told, AllocError> {
    match rule_lang::diagnose(alloc, text)? {
        Some(LangCause::TooLong) => Ok(Told {
            part: Some(Part::Program),
            at: Some(65536),
            what: String::from_str(alloc, "the text has more than 65536 bytes")?,
            hint: String::from_str(
                alloc,
                "leave comments and blanks out: unison check prints a text without them",
            )?,
        }),
        Some(LangCause::Lex { at }) => tell_lexical(alloc, text, at as usize),
        Some(LangCause::Syntax { at, expected }) => tell_syntax(alloc, text, at, expected),
        None => tell_else(alloc),
    }
}

/// What is told of a program that is not well formed.
fn tell_check(alloc: Global, text: &[u8]) -> Result<Told, AllocError> {
    let source = source_of(alloc, text)?;
    match rule_check::diagnose(alloc, &source)? {
        Some(cause) => tell_refused(alloc, text, &source, &cause),
        None => tell_else(alloc),
    }
}

/// What is told of a network file whose `set` does not fit the program.
fn tell_set(alloc: Global, texts: &Texts) -> Result<Told, AllocError> {
    let program = program_of(alloc, texts.program.text)?;
    let file = file_of(alloc, texts)?;
    match diagnose_plan(alloc, &program, &file)? {
        Some(cause) => tell_plan(alloc, &program, network_text(texts), &file, &cause),
        None => tell_else(alloc),
    }
}

/// What is told of a report that is refused.
fn tell_report(alloc: Global, texts: &Texts, fault: ReportFault) -> Result<Told, AllocError> {
    let plan = plan_of(alloc, texts, None)?;
    let Some(text) = report_text(texts) else {
        return tell_else(alloc);
    };
    match fault {
        ReportFault::BadLine { line } => tell_report_line(
            alloc,
            plan.program(),
            plan.network().nodes(),
            text,
            line,
        ),
        ReportFault::TooManyRounds => tell_report_round(alloc),
        ReportFault::Memory => tell_else(alloc),
    }
}

/// What is told where a round or a run is refused.
fn tell_run(alloc: Global, texts: &Texts, job: &Job, fault: RunFault) -> Result<Told, AllocError> {
    let plan = plan_of(alloc, texts, report_text(texts))?;
    match fault {
        RunFault::StopBelowStart => tell_below_start(alloc, &plan, job),
        RunFault::StopTooLarge => tell_too_large(alloc, job),
        RunFault::WorkerCount => tell_workers(alloc, job),
        RunFault::TraceFull { .. } => tell_trace_full(alloc, &plan, job),
        _ => tell_else(alloc),
    }
}

/// What is told where a replay is refused.
fn tell_replay(
    alloc: Global,
    texts: &Texts,
    job: &Job,
    fault: ReplayFault,
) -> Result<Told, AllocError> {
    match fault {
        ReplayFault::Schedule(ScheduleFault::BadLine { line }) => tell_step(
            alloc,
            schedule_text(texts),
            line,
        ),
        ReplayFault::Schedule(ScheduleFault::TooManySteps) => tell_too_many_steps(
            alloc,
            schedule_text(texts),
        ),
        ReplayFault::Opening(OpenFault::StopBelowStart) => tell_run(
            alloc,
            texts,
            job,
            RunFault::StopBelowStart,
        ),
        ReplayFault::Opening(OpenFault::StopTooLarge) => tell_too_large(alloc, job),
        _ => tell_else(alloc),
    }
}

/// What is told of a fault.
fn tell(alloc: Global, texts: &Texts, job: &Job, fault: ServeFault) -> Result<Told, AllocError> {
    match fault {
        ServeFault::Lang(_) => with_kind(alloc, texts, tell_program(alloc, texts.program.text)?),
        ServeFault::Check(_) => tell_check(alloc, texts.program.text),
        ServeFault::Plan(_) => tell_set(alloc, texts),
        ServeFault::Report(fault) => tell_report(alloc, texts, fault),
        ServeFault::Round(RoundFault::RoundsBelowStart) => tell_run(
            alloc,
            texts,
            job,
            RunFault::StopBelowStart,
        ),
        ServeFault::Round(_) => tell_too_large(alloc, job),
        ServeFault::Run(fault) => tell_run(alloc, texts, job, fault),
        ServeFault::Replay(fault) => tell_replay(alloc, texts, job, fault),
        // (why a network is refused is told before)
        ServeFault::Net(_) | ServeFault::Write { .. } | ServeFault::Memory => tell_else(alloc),
    }
}

/// What is found where a network is refused, for its cause.
fn found_in_network(alloc: Global, texts: &Texts, cause: &NetCause) -> Result<Finding, AllocError>
    ensures fault { IfOk result (λ finding. (finding.fault ≡ Some (fault.Net (fault_of cause.now))) × (is_shown (fault.Net (fault_of cause.now)) ≡ true)) }
    ensures cuts { IfOk result (λ finding. finding.cuts.items ≡ []) }
{
    let fault = shown_fault(ServeFault::Net(cause.fault()))?;
    let told = with_kind(
        alloc,
        texts,
        tell_network(alloc, network_text(texts), cause)?,
    )?;
    let (part, name) = ServeFault::Net(cause.fault()).part_and_name();
    let text = shown(alloc, texts, &told, part, name)?;
    let cuts = Vec::new(alloc);
    Ok(Finding { text, fault, cuts })
}

/// What people are told of a fault.
fn fault_text(
    alloc: Global,
    texts: &Texts,
    job: &Job,
    fault: ServeFault,
) -> Result<String, AllocError> {
    let told = tell(alloc, texts, job, fault)?;
    let (part, name) = fault.part_and_name();
    shown(alloc, texts, &told, part, name)
}

/// What people are told: of a fault, or that there is none, with notes.
fn told_of(
    alloc: Global,
    texts: &Texts,
    job: &Job,
    fault: Option<ServeFault>,
) -> Result<Noted, AllocError>
    ensures noted { IfOk result (λ told. IsNone fault → AreNotedIn texts.now told.cuts.items) }
    ensures unnoted { IfOk result (λ told. IfSome fault (λ f. told.cuts.items ≡ [])) }
{
    match fault {
        Some(fault) => {
            let text = fault_text(alloc, texts, job, fault)?;
            let cuts = Vec::new(alloc);
            Ok(Noted { text, cuts })
        }
        None => notes(alloc, texts),
    }
}

/// Why a job on these texts is not done, told for people: the first fault as the job would end with it, found without
/// doing the job; where nothing refuses it, that it is so, and notes on what is accepted and rarely meant.
///
/// Running out of memory, threads and devices are no faults here.
pub fn why(alloc: Global, job: &Job, texts: &Texts) -> Result<Finding, AllocError>
    ensures refused { IfOk result (λ finding. IfSome finding.fault (IsFirstFault job.now texts.now.program.text.now (network_of texts.now) (report_of texts.now) (schedule_of texts.now))) }
    ensures shown { IfOk result (λ finding. IfSome finding.fault (λ f. is_shown f ≡ true)) }
    ensures accepted { IfOk result (λ finding. IsNone finding.fault → IsUnrefused job.now texts.now.program.text.now (network_of texts.now) (report_of texts.now) (schedule_of texts.now)) }
    ensures noted { IfOk result (λ finding. IsNone finding.fault → AreNotedIn texts.now finding.cuts.items) }
    ensures unnoted { IfOk result (λ finding. IfSome finding.fault (λ f. finding.cuts.items ≡ [])) }
{
    if let Some(cause) = network_cause(alloc, job, texts.program.text, network_text(texts))? {
        return found_in_network(alloc, texts, &cause);
    }
    let fault = first_fault(
        alloc,
        job,
        texts.program.text,
        network_text(texts),
        report_text(texts),
        schedule_text(texts),
    )?;
    let Noted { text, cuts } = told_of(alloc, texts, job, fault)?;
    Ok(Finding { fault, text, cuts })
}
