//! Why rounds, a run or a replay are not begun.

use crate::lines::line_begin;
use crate::told::{Part, Told};
use app_jobs::Job;
use rounds_plan::Plan;
use std::alloc::{AllocError, Global};
use unison_trace::{MOST_STEPS, steps_needed};

/// What is told of a fault that lies in no text.
fn told(alloc: Global, what: String, hint: &str) -> Result<Told, AllocError> {
    Ok(Told {
        part: None,
        at: None,
        what,
        hint: String::from_str(alloc, hint)?,
    })
}

/// The round that a job goes to.
fn rounds_of(job: &Job) -> u32 {
    match *job {
        Job::Check => 0,
        Job::Lockstep { rounds } | Job::Run { rounds, .. } | Job::Compare { rounds, .. } => rounds,
        Job::Replay { stop } => stop,
    }
}

/// What is told where the round that is asked for lies before the start.
pub(crate) fn tell_below_start(alloc: Global, plan: &Plan, job: &Job) -> Result<Told, AllocError> {
    let asked = rounds_of(job);
    let start = plan.start();
    let what = format!(in alloc;
        "round {asked} was asked for, and the report to go on from is of round {start}"
    )?;
    told(
        alloc,
        what,
        "ask for that round or a later one, or leave --from out",
    )
}

/// What is told where the round that is asked for is too large.
pub(crate) fn tell_too_large(alloc: Global, job: &Job) -> Result<Told, AllocError> {
    let asked = rounds_of(job);
    let what = format!(in alloc; "round {asked} was asked for")?;
    told(alloc, what, "rounds go up to 1000000000")
}

/// What is told where the number of workers is none that is allowed.
pub(crate) fn tell_workers(alloc: Global, job: &Job) -> Result<Told, AllocError> {
    let workers = match *job {
        Job::Run { workers, .. } | Job::Compare { workers, .. } => workers,
        _ => 0,
    };
    let what = format!(in alloc; "{workers} workers were asked for")?;
    told(alloc, what, "there are 1 to 64 workers")
}

/// What is told where a run takes more steps than a trace has.
pub(crate) fn tell_trace_full(alloc: Global, plan: &Plan, job: &Job) -> Result<Told, AllocError> {
    let asked = rounds_of(job);
    let start = plan.start();
    let needed = steps_needed(plan, asked);
    let rounds = asked.saturating_sub(start).max(1) as u64;
    let most = start as u64 + MOST_STEPS as u64 / (needed / rounds).max(1);
    let what = format!(in alloc;
        "the run to round {asked} takes {needed} steps, and a trace has {MOST_STEPS} at most"
    )?;
    let hint = format!(in alloc; "leave --trace out, or ask for round {most} at most")?;
    told(alloc, what, hint.as_str())
}

/// What is told of a report whose round is too large.
pub(crate) fn tell_report_round(alloc: Global) -> Result<Told, AllocError> {
    Ok(Told {
        part: Some(Part::Report),
        at: Some(6),
        what: String::from_str(alloc, "the round of the report is above 1000000000")?,
        hint: String::from_str(alloc, "rounds go up to 1000000000")?,
    })
}

/// What is told of a schedule with too many steps.
pub(crate) fn tell_too_many_steps(alloc: Global, text: &[u8]) -> Result<Told, AllocError> {
    Ok(Told {
        part: Some(Part::Schedule),
        at: Some(line_begin(text, MOST_STEPS as u64 + 1)),
        what: String::from_str(
            alloc,
            "this step is one too many: a schedule has 1000000 at most",
        )?,
        hint: String::new(alloc),
    })
}

/// What is told of a fault that none of these texts shows.
pub(crate) fn tell_else(alloc: Global) -> Result<Told, AllocError> {
    let what = String::from_str(alloc, "the texts do not show it")?;
    told(alloc, what, "")
}
