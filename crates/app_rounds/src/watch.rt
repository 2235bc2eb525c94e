//! `watch PROGRAM NETWORK --rounds FIRST..LAST`: all rounds from one to another, in one pass.

use crate::watch_request::WatchRequest;
use app_commands::{
    Telling, asked_by, labels_at, no_rounds, read_run_once, source_at, threads_for,
};
use app_files::{Ending, path_in, print_out, shown_fields};
use rounds_walk::PlanRef;
use rule_check::Program;
use run_watch::{Format, Show, Workers, watched};
use std::alloc::Global;
use std::thread::Threads;

/// Whether a field at one of these places is called as what stands before the fields.
fn has_node(program: &Program, places: &[u32]) -> bool {
    for place in places {
        if program.field_name(*place) == Some("node") {
            return true;
        }
    }
    false
}

/// Refuses CSV and JSON in which a field is called as what stands before the fields.
fn check_headings(
    alloc: Global,
    program: &Program,
    format: Format,
    places: &[u32],
) -> Result<(), Ending> {
    if format == Format::Report || !has_node(program, places) {
        return Ok(());
    }
    Err(Ending::usage(String::from_str(
        alloc,
        "--format: the program has a field `node`, which is what the column of the nodes is called; leave it out by --only, or take reports",
    )))
}

/// The text of the rounds, shown so.
fn watched_text(
    rt: &HostRuntime,
    threads: &(impl Threads + Sync),
    plan: &PlanRef<'_>,
    asked: &WatchRequest,
    show: &Show<'_>,
) -> Result<Vec<u8>, Ending> {
    let (alloc, span) = (rt.alloc(), &asked.span);
    let workers = Workers {
        rt: threads,
        count: threads_for(threads, &asked.texts),
    };
    let mut telling = Telling::new(rt, span, plan.nodes());
    watched(&workers, alloc, plan, span, show, &mut telling).map_err(no_rounds)
}

/// The text of the rounds, these fields being shown.
fn shown_text(
    rt: &HostRuntime,
    threads: &(impl Threads + Sync),
    plan: &PlanRef<'_>,
    names: &[Vec<String>],
    asked: &WatchRequest,
    fields: &[u32],
) -> Result<Vec<u8>, Ending> {
    let nodes = plan.nodes();
    let labels = labels_at(rt, asked.view.format, &asked.view.names, nodes)?;
    let show = Show {
        format: asked.view.format,
        fields,
        labels: &labels,
        names,
        changes: asked.view.changes,
    };
    watched_text(rt, threads, plan, asked, &show)
}

/// The text of the rounds, these fields being shown, where they may be.
fn text_with(
    rt: &HostRuntime,
    threads: &(impl Threads + Sync),
    plan: &PlanRef<'_>,
    names: &[Vec<String>],
    asked: &WatchRequest,
    fields: &[u32],
) -> Result<Vec<u8>, Ending> {
    check_headings(rt.alloc(), plan.program(), asked.view.format, fields)?;
    shown_text(rt, threads, plan, names, asked, fields)
}

/// The text of the rounds of a plan.
fn text_of(
    rt: &HostRuntime,
    threads: &(impl Threads + Sync),
    plan: &PlanRef<'_>,
    names: &[Vec<String>],
    asked: &WatchRequest,
) -> Result<Vec<u8>, Ending> {
    let fields = shown_fields(rt.alloc(), plan.program(), &asked.view.only)?;
    text_with(rt, threads, plan, names, asked, &fields)
}

/// The text of the rounds that are asked for.
fn text_for(
    rt: &HostRuntime,
    threads: &(impl Threads + Sync),
    asked: &WatchRequest,
) -> Result<Vec<u8>, Ending> {
    let source = source_at(rt, threads, &asked.texts)?;
    let ground = source.noted_ground(rt, &asked.texts, asked.quiet)?;
    let plan = ground.lent(rt.alloc())?;
    text_of(rt, threads, &plan, &source.program.names, asked)
}

/// Prints the rounds that are asked for. The status with which the program ends.
fn put_rounds(
    rt: &HostRuntime,
    threads: &(impl Threads + Sync),
    asked: &WatchRequest,
) -> Result<u8, Ending> {
    read_run_once(rt.alloc(), &asked.texts, path_in(&asked.view.names))?;
    let text = text_for(rt, threads, asked)?;
    print_out(rt, &text)
}

/// Prints rounds of a plan. The status with which the program ends.
pub fn watch_rounds(
    rt: &HostRuntime,
    threads: &(impl Threads + Sync),
    words: &[String],
) -> Result<u8, Ending> {
    let asked = asked_by(WatchRequest::parse(rt.alloc(), words))?;
    put_rounds(rt, threads, &asked)
}
