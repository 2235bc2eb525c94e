//! `page PROGRAM NETWORK`: an HTML page on which a run is stepped through.

use crate::grid::grid_width;
use crate::page_names::value_names;
use crate::page_request::{PageRequest, PageRun};
use crate::page_size::{check_size, steps_too_many};
use app_commands::{
    NamedPlan, Telling, asked_by, labels_at, named_plan_at, no_rounds, read_plan_once, steps_at,
};
use app_files::{Ending, bytes_at, name_at, path_in, print_out, shown_fields};
use app_jobs::ServeFault;
use rounds_plan::Plan;
use rounds_walk::PlanRef;
use run_page::{
    EmbedFault, Look, PageFault, PageRounds, embedded, naive_data, rounds_data, steps_data,
};
use run_settle::{SettleFault, Settling, settle};
use run_watch::{Format, Span, WatchFault};
use std::alloc::Global;
use std::sync::Arc;
use std::thread::Threads;
use unison_trace::ReplayFault;
use unison_world::{OpenFault, Step};

/// The ending where a plan has no world up to this stop.
fn no_world(fault: OpenFault) -> Ending {
    Ending::Served(ServeFault::Replay(ReplayFault::Opening(fault)))
}

/// The ending where there is no data.
fn no_data(alloc: Global, fault: PageFault) -> Ending {
    match fault {
        PageFault::TooManyRounds => no_rounds(WatchFault::TooManyRounds),
        PageFault::RoundsBelowStart => no_rounds(WatchFault::RoundsBelowStart),
        PageFault::StopTooLarge => no_world(OpenFault::StopTooLarge),
        PageFault::StopBelowStart => no_world(OpenFault::StopBelowStart),
        PageFault::TooManyValues => steps_too_many(alloc),
        PageFault::NoField { .. } | PageFault::Memory => Ending::Memory,
    }
}

/// What becomes of the rounds of a plan up to a round, where that is told: of programs that do not read the round.
fn settling_of(alloc: Global, plan: &Plan, limit: u32) -> Result<Option<Settling>, Ending> {
    match settle(alloc, &PlanRef::of_plan(plan), limit) {
        Ok(settling) => Ok(Some(settling)),
        Err(SettleFault::Memory) => Err(Ending::Memory),
        Err(_) => Ok(None),
    }
}

/// The data of rounds of which this is told.
fn told_rounds(
    rt: &HostRuntime,
    threads: &(impl Threads + Sync),
    plan: &Plan,
    shown: &PageRounds<'_>,
) -> Result<Vec<u8>, Ending> {
    let mut telling = Telling::new(rt, shown.span, plan.network().nodes());
    match rounds_data(threads, rt.alloc(), plan, shown, &mut telling) {
        Ok(data) => Ok(data),
        Err(fault) => Err(no_data(rt.alloc(), fault)),
    }
}

/// The data of rounds.
fn rounds_text(
    rt: &HostRuntime,
    threads: &(impl Threads + Sync),
    plan: &Plan,
    span: &Span,
    look: &Look<'_>,
) -> Result<Vec<u8>, Ending> {
    check_size(rt.alloc(), plan.network().nodes(), span, look.fields.len())?;
    let settling = settling_of(rt.alloc(), plan, span.last())?;
    let shown = PageRounds {
        span,
        settling,
        look,
    };
    told_rounds(rt, threads, plan, &shown)
}

/// How far steps go.
#[derive(Clone, Copy)]
struct Extent {
    /// The round at which each node stops.
    stop: u32,
    /// Whether the steps of nodes that do not wait stand beside them.
    naive: bool,
}

/// The data of steps on a plan, naively with those of nodes that do not wait.
fn steps_made(
    alloc: Global,
    threads: &(impl Threads + Sync),
    plan: Arc<Plan>,
    steps: &[Step],
    extent: Extent,
    look: &Look<'_>,
) -> Result<Vec<u8>, PageFault> {
    if extent.naive {
        naive_data(threads, alloc, plan, extent.stop, steps, look)
    } else {
        steps_data(threads, alloc, plan, extent.stop, steps, look)
    }
}

/// The same, or the ending where there is none.
fn steps_on(
    alloc: Global,
    threads: &(impl Threads + Sync),
    plan: &Arc<Plan>,
    steps: &[Step],
    extent: Extent,
    look: &Look<'_>,
) -> Result<Vec<u8>, Ending> {
    let shared = Arc::try_clone(plan)?;
    match steps_made(alloc, threads, shared, steps, extent, look) {
        Ok(data) => Ok(data),
        Err(fault) => Err(no_data(alloc, fault)),
    }
}

/// The data of the steps of the schedule at a path.
fn steps_text(
    rt: &HostRuntime,
    threads: &(impl Threads + Sync),
    plan: &Arc<Plan>,
    schedule: &str,
    extent: Extent,
    look: &Look<'_>,
) -> Result<Vec<u8>, Ending> {
    let steps = steps_at(rt, schedule)?;
    steps_on(rt.alloc(), threads, plan, &steps, extent, look)
}

/// The data of the run that is asked for, these fields and names being shown.
fn run_text(
    rt: &HostRuntime,
    threads: &(impl Threads + Sync),
    plan: &Arc<Plan>,
    run: &PageRun,
    look: &Look<'_>,
) -> Result<Vec<u8>, Ending> {
    match run {
        PageRun::Rounds { span } => rounds_text(rt, threads, plan, span, look),
        PageRun::Steps {
            schedule,
            stop,
            naive,
        } => {
            let (stop, naive) = (*stop, *naive);
            let extent = Extent { stop, naive };
            steps_text(rt, threads, plan, schedule.as_str(), extent, look)
        }
    }
}

/// The width of the grid that is asked for, on the network of a plan, where there is one.
fn grid_of(rt: &HostRuntime, plan: &Plan, asked: &PageRequest) -> Result<Option<u32>, Ending> {
    match asked.view.grid {
        Some(grid) => grid_width(rt, &plan.network().rows(), grid).map(Some),
        None => Ok(None),
    }
}

/// What nodes and values are called.
#[derive(Clone, Copy)]
struct Names<'a> {
    /// The labels of the nodes.
    nodes: &'a [String],
    /// The names of the values of each field.
    values: &'a [Vec<String>],
}

/// The data of what is asked for, these fields and names being shown.
fn data_with(
    rt: &HostRuntime,
    threads: &(impl Threads + Sync),
    plan: &Arc<Plan>,
    asked: &PageRequest,
    fields: &[u32],
    called: Names<'_>,
) -> Result<Vec<u8>, Ending> {
    let (labels, node_fields) = (called.nodes, asked.view.node_fields.as_slice());
    let names = value_names(
        rt.alloc(),
        plan.program(),
        called.values,
        node_fields,
        labels,
    )?;
    let grid = grid_of(rt, plan, asked)?;
    let look = Look {
        fields,
        names: names.as_slice(),
        labels,
        grid,
    };
    run_text(rt, threads, plan, &asked.run, &look)
}

/// The data of what is asked for, these fields being shown, where the values of each field have these names.
fn labelled(
    rt: &HostRuntime,
    threads: &(impl Threads + Sync),
    plan: &Arc<Plan>,
    asked: &PageRequest,
    fields: &[u32],
    states: &[Vec<String>],
) -> Result<Vec<u8>, Ending> {
    let nodes = plan.network().nodes();
    let labels = labels_at(rt, Format::Report, &asked.view.names, nodes)?;
    let called = Names {
        nodes: &labels,
        values: states,
    };
    data_with(rt, threads, plan, asked, fields, called)
}

/// The data of what is asked for, where the values of each field have these names.
fn data_of(
    rt: &HostRuntime,
    threads: &(impl Threads + Sync),
    plan: &Arc<Plan>,
    asked: &PageRequest,
    states: &[Vec<String>],
) -> Result<Vec<u8>, Ending> {
    let fields = shown_fields(rt.alloc(), plan.program(), &asked.view.only)?;
    labelled(rt, threads, plan, asked, &fields, states)
}

/// The data of what is asked for, on this plan.
fn data_on(
    rt: &HostRuntime,
    threads: &(impl Threads + Sync),
    named: NamedPlan,
    asked: &PageRequest,
) -> Result<Vec<u8>, Ending> {
    let NamedPlan { plan, names } = named;
    let plan = Arc::new(rt.alloc(), plan)?;
    data_of(rt, threads, &plan, asked, &names)
}

/// The data of what is asked for.
fn data_for(
    rt: &HostRuntime,
    threads: &(impl Threads + Sync),
    asked: &PageRequest,
) -> Result<Vec<u8>, Ending> {
    let named = named_plan_at(rt, &asked.plan)?;
    data_on(rt, threads, named, asked)
}

/// The ending where a text is no viewer.
fn no_viewer(alloc: Global, name: &str, fault: EmbedFault) -> Ending {
    if fault == EmbedFault::Memory {
        return Ending::Memory;
    }
    Ending::refused(format!(in alloc;
        "viewer {fault}\n{name}: a viewer has the mark @RUN@ once, where the run is put; viewer/page.html of the repository is one"
    ))
}

/// The page: the viewer at a path with the data.
fn page_of(rt: &HostRuntime, path: &str, data: &[u8]) -> Result<Vec<u8>, Ending> {
    let viewer = bytes_at(rt, path)?;
    match embedded(rt.alloc(), &viewer, data) {
        Ok(page) => Ok(page),
        Err(fault) => Err(no_viewer(rt.alloc(), name_at(path), fault)),
    }
}

/// The path of the schedule, where there is one.
fn schedule_path(run: &PageRun) -> &str {
    match run {
        PageRun::Rounds { .. } => "",
        PageRun::Steps { schedule, .. } => schedule.as_str(),
    }
}

/// Refuses standard input for more than one of the texts.
fn check_paths(alloc: Global, asked: &PageRequest) -> Result<(), Ending> {
    read_plan_once(
        alloc,
        &asked.plan,
        path_in(&asked.view.names),
        schedule_path(&asked.run),
        asked.viewer.as_str(),
    )
}

/// The page that is asked for.
fn text_for(
    rt: &HostRuntime,
    threads: &(impl Threads + Sync),
    asked: &PageRequest,
) -> Result<Vec<u8>, Ending> {
    let data = data_for(rt, threads, asked)?;
    page_of(rt, asked.viewer.as_str(), &data)
}

/// Prints the page that is asked for. The status with which the program ends.
fn put_page(
    rt: &HostRuntime,
    threads: &(impl Threads + Sync),
    asked: &PageRequest,
) -> Result<u8, Ending> {
    check_paths(rt.alloc(), asked)?;
    let text = text_for(rt, threads, asked)?;
    print_out(rt, &text)
}

/// Prints a page of a run. The status with which the program ends.
pub fn make_page(
    rt: &HostRuntime,
    threads: &(impl Threads + Sync),
    words: &[String],
) -> Result<u8, Ending> {
    let asked = asked_by(PageRequest::parse(rt.alloc(), words))?;
    put_page(rt, threads, &asked)
}
