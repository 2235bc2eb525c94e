//! `naive PROGRAM NETWORK SCHEDULE --stop T`: what the steps of a schedule come to where no node waits.

use crate::naive_request::NaiveRequest;
use app_commands::{asked_by, no_world, plan_at, read_plan_once, steps_at};
use app_files::{Ending, print_out};
use rounds_plan::Plan;
use run_naive::told;

/// What is told on a plan of the schedule that is asked for.
fn text_on(rt: &HostRuntime, plan: &Plan, asked: &NaiveRequest) -> Result<Vec<u8>, Ending> {
    let steps = steps_at(rt, asked.schedule.as_str())?;
    told(rt.alloc(), plan, asked.stop, &steps).map_err(no_world)
}

/// What is told of the schedule that is asked for.
fn text_for(rt: &HostRuntime, asked: &NaiveRequest) -> Result<Vec<u8>, Ending> {
    let plan = plan_at(rt, &asked.plan)?;
    text_on(rt, &plan, asked)
}

/// Prints what is told of the schedule that is asked for. The status with which the program ends.
fn put_told(rt: &HostRuntime, asked: &NaiveRequest) -> Result<u8, Ending> {
    read_plan_once(rt.alloc(), &asked.plan, asked.schedule.as_str(), "", "")?;
    let text = text_for(rt, asked)?;
    print_out(rt, &text)
}

/// Tells what the steps of a schedule come to by nodes that do not wait. The status with which the program ends.
pub fn tell_naive(rt: &HostRuntime, words: &[String]) -> Result<u8, Ending> {
    let asked = asked_by(NaiveRequest::parse(rt.alloc(), words))?;
    put_told(rt, &asked)
}
