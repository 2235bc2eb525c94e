//! `explain PROGRAM NETWORK SCHEDULE`: what each step of a schedule does.

use crate::explain_request::ExplainRequest;
use crate::simple::simple_plan;
use app_commands::{asked_by, names_for, no_world, read_plan_once, source_at, steps_at};
use app_files::{Ending, path_in, print_out};
use net_names::NodeNames;
use rounds_plan::SimplePlan;
use run_steps::explain::{Show, told};
use std::alloc::Global;
use std::thread::Threads;
use unison_world::Step;

/// The steps on a plan, told.
fn told_on(
    alloc: Global,
    plan: SimplePlan<'_>,
    steps: &[Step],
    names: Option<&NodeNames>,
    asked: &ExplainRequest,
) -> Result<Vec<u8>, Ending> {
    let show = Show {
        slots: asked.slots,
        counts: asked.counts,
    };
    told(alloc, plan, asked.stop, steps, names, show).map_err(no_world)
}

/// What is told on a plan of the schedule that is asked for, where nodes have these names.
fn text_with(
    rt: &HostRuntime,
    plan: SimplePlan<'_>,
    names: Option<&NodeNames>,
    asked: &ExplainRequest,
) -> Result<Vec<u8>, Ending> {
    let steps = steps_at(rt, asked.schedule.as_str())?;
    told_on(rt.alloc(), plan, &steps, names, asked)
}

/// What is told on a plan of the schedule that is asked for.
fn text_on(
    rt: &HostRuntime,
    plan: SimplePlan<'_>,
    asked: &ExplainRequest,
) -> Result<Vec<u8>, Ending> {
    let names = names_for(rt, &asked.names, plan.nodes())?;
    text_with(rt, plan, names.as_ref(), asked)
}

/// What is told of the schedule that is asked for.
fn text_for(
    rt: &HostRuntime,
    threads: &impl Threads,
    asked: &ExplainRequest,
) -> Result<Vec<u8>, Ending> {
    let source = source_at(rt, threads, &asked.texts)?;
    let ground = source.ground(rt, &asked.texts)?;
    let path = asked.texts.plan.network.as_str();
    let plan = simple_plan(rt.alloc(), path, ground.lent(rt.alloc())?)?;
    text_on(rt, plan, asked)
}

/// Prints what is told of the schedule that is asked for. The status with which the program ends.
fn put_told(
    rt: &HostRuntime,
    threads: &impl Threads,
    asked: &ExplainRequest,
) -> Result<u8, Ending> {
    let (names, schedule) = (path_in(&asked.names), asked.schedule.as_str());
    read_plan_once(rt.alloc(), &asked.texts.plan, names, schedule, "")?;
    let text = text_for(rt, threads, asked)?;
    print_out(rt, &text)
}

/// Tells what each step of a schedule does. The status with which the program ends.
pub fn explain_schedule(
    rt: &HostRuntime,
    threads: &impl Threads,
    words: &[String],
) -> Result<u8, Ending> {
    let asked = asked_by(ExplainRequest::parse(rt.alloc(), words))?;
    put_told(rt, threads, &asked)
}
