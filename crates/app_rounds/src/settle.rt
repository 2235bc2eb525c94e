//! `settle PROGRAM NETWORK` and `large settle`: from which round on nothing changes, or all states come again.

use crate::round_report::states_after;
use crate::settle_request::SettleRequest;
use crate::shown_rounds::start_of;
use app_commands::{Ground, asked_by, read_run_once, source_at, threads_for};
use app_files::{Ending, not_settled, print_out, settled_round, settling_line};
use report_text::report_states;
use rounds_walk::PlanRef;
use run_settle::{Settling, settle_shared};
use std::alloc::{AllocError, Global};
use std::thread::Threads;

/// What becomes of the rounds of a plan up to the limit that is asked for; they are shared among so many threads.
fn found_for(
    alloc: Global,
    threads: &(impl Threads + Sync),
    plan: &PlanRef<'_>,
    asked: &SettleRequest,
    count: usize,
) -> Result<Settling, Ending> {
    match settle_shared(threads, alloc, plan, asked.limit, count) {
        Ok(found) => Ok(found),
        Err(fault) => Err(not_settled(alloc, asked.texts.plan.program.as_str(), fault)),
    }
}

/// The report of a round of a plan.
fn report_of(
    alloc: Global,
    threads: &(impl Threads + Sync),
    plan: &PlanRef<'_>,
    round: u32,
    count: usize,
) -> Result<Vec<u8>, Ending> {
    let start = start_of(alloc, plan, count)?;
    let states = states_after(alloc, threads, &start, round, count)?;
    Ok(report_states(alloc, plan.program(), round, &states)?)
}

/// The report of the round that was found; nothing where there is none, or none is asked for.
fn found_report(
    alloc: Global,
    threads: &(impl Threads + Sync),
    plan: &PlanRef<'_>,
    found: Settling,
    count: usize,
    is_reported: bool,
) -> Result<Vec<u8>, Ending> {
    match settled_round(found) {
        Some(round) if is_reported => report_of(alloc, threads, plan, round, count),
        _ => Ok(Vec::new(alloc)),
    }
}

/// What was found, as a line, with a report after it.
fn text_with(alloc: Global, found: Settling, report: &[u8]) -> Result<Vec<u8>, AllocError> {
    let mut text = settling_line(alloc, found)?.into_bytes();
    text.extend_from_slice(report)?;
    Ok(text)
}

/// What becomes of the rounds of a plan, as text.
fn text_of(
    alloc: Global,
    threads: &(impl Threads + Sync),
    plan: &PlanRef<'_>,
    asked: &SettleRequest,
    count: usize,
) -> Result<Vec<u8>, Ending> {
    let found = found_for(alloc, threads, plan, asked, count)?;
    let report = found_report(alloc, threads, plan, found, count, asked.report)?;
    Ok(text_with(alloc, found, &report)?)
}

/// Prints what becomes of the rounds of a plan. The status with which the program ends.
pub(crate) fn settle_run(
    rt: &HostRuntime,
    threads: &(impl Threads + Sync),
    ground: &Ground<'_>,
    asked: &SettleRequest,
) -> Result<u8, Ending> {
    let plan = ground.lent(rt.alloc())?;
    let count = threads_for(threads, &asked.texts);
    let text = text_of(rt.alloc(), threads, &plan, asked, count)?;
    print_out(rt, &text)
}

/// Prints what is told of the plan that is asked for. The status with which the program ends.
fn put_told(
    rt: &HostRuntime,
    threads: &(impl Threads + Sync),
    asked: &SettleRequest,
) -> Result<u8, Ending> {
    read_run_once(rt.alloc(), &asked.texts, "")?;
    let source = source_at(rt, threads, &asked.texts)?;
    let ground = source.noted_ground(rt, &asked.texts, asked.quiet)?;
    settle_run(rt, threads, &ground, asked)
}

/// Tells from which round on nothing changes, or all states come again. The status with which the program ends.
pub fn settle_rounds(
    rt: &HostRuntime,
    threads: &(impl Threads + Sync),
    words: &[String],
) -> Result<u8, Ending> {
    let asked = asked_by(SettleRequest::parse(rt.alloc(), words))?;
    put_told(rt, threads, &asked)
}
