//! `schedule MANNER PROGRAM NETWORK`: schedules, made in a manner or from a script.

use crate::schedule_request::{Limits, Listing, ScheduleRequest, StepsManner, Writing};
use crate::text_lines::line_at;
use app_commands::{asked_by, names_for, plan_at, read_plan_once, shared_plan};
use app_files::{Ending, bytes_at, name_at, path_in, print_out};
use app_jobs::ServeFault;
use app_table::number;
use link_net::{MOST_NODES, Network};
use net_names::NodeNames;
use rounds_plan::Plan;
use run_schedule::{Daemon, ListFault, Manner, listed, with_refused};
use run_steps::script::{StepTextFault, written};
use std::alloc::{AllocError, Global};
use std::sync::Arc;
use unison_trace::{ReplayFault, write_schedule};
use unison_world::{OpenFault, Step};

/// The ending where a word that stands at a place calls no node.
fn no_node(alloc: Global, place: &str, word: &str, named: bool, nodes: u32) -> Ending {
    if named {
        return Ending::usage(format!(in alloc; "{place}: no node has the name `{word}`"));
    }
    Ending::usage(format!(in alloc;
        "{place}: expected a number of a node, below {nodes}, found `{word}`; --names lets nodes be called by name"
    ))
}

/// The node of so many that a number calls, where it calls one.
fn numbered(word: &str, nodes: u32) -> Option<u32> {
    let node = number(word, 0, MOST_NODES - 1)?;
    if node < nodes { Some(node) } else { None }
}

/// The node that a word calls, which stands at a place.
fn node_of(
    alloc: Global,
    names: &Option<NodeNames>,
    place: &str,
    word: &str,
    nodes: u32,
) -> Result<u32, Ending> {
    let found = match names {
        Some(names) => names.number_of(word),
        None => numbered(word, nodes),
    };
    match found {
        Some(node) => Ok(node),
        None => Err(no_node(alloc, place, word, names.is_some(), nodes)),
    }
}

/// The ending where the words of two nodes call such as are not linked.
fn not_linked(alloc: Global, node: &str, neighbour: &str) -> Ending {
    Ending::usage(format!(in alloc;
        "NEIGHBOUR: expected a neighbour of `{node}`, found `{neighbour}`, which the network does not link to it"
    ))
}

/// The daemon of two neighbours that are called by these words.
fn adversary_of(
    alloc: Global,
    names: &Option<NodeNames>,
    node: &str,
    neighbour: &str,
    seed: u64,
    network: &Network,
) -> Result<Daemon, Ending> {
    let ahead = node_of(alloc, names, "NODE", node, network.nodes())?;
    let behind = node_of(alloc, names, "NEIGHBOUR", neighbour, network.nodes())?;
    if network.slot_of(ahead, behind).is_none() {
        return Err(not_linked(alloc, node, neighbour));
    }
    Ok(Daemon::Adversary {
        seed,
        ahead,
        behind,
    })
}

/// The manner of a daemon.
fn under(daemon: Daemon) -> Result<Manner, Ending> {
    Ok(Manner::Under { daemon })
}

/// The manner that is asked for.
fn manner_of(
    alloc: Global,
    names: &Option<NodeNames>,
    asked: &Listing,
    network: &Network,
) -> Result<Manner, Ending> {
    let seed = asked.limits.seed as u64;
    let nodes = network.nodes();
    match &asked.manner {
        StepsManner::Sweeps => Ok(Manner::Sweeps),
        StepsManner::Random => Ok(Manner::Random { seed }),
        StepsManner::SlowLinks => Ok(Manner::SlowLinks { seed }),
        StepsManner::Starve { node } => {
            let node = node_of(alloc, names, "NODE", node.as_str(), nodes)?;
            Ok(Manner::Starve { node })
        }
        StepsManner::Ahead { node } => {
            let node = node_of(alloc, names, "NODE", node.as_str(), nodes)?;
            Ok(Manner::Ahead { node })
        }
        StepsManner::Central => under(Daemon::Central { seed }),
        StepsManner::Synchronous => under(Daemon::Synchronous),
        StepsManner::Distributed { share } => under(Daemon::Distributed {
            seed,
            share: *share,
        }),
        StepsManner::Adversary { node, neighbour } => under(adversary_of(
            alloc,
            names,
            node.as_str(),
            neighbour.as_str(),
            seed,
            network,
        )?),
    }
}

/// The ending where there is no list.
fn no_list(fault: ListFault) -> Ending {
    match fault {
        ListFault::StopTooLarge => Ending::Served(ServeFault::Replay(ReplayFault::Opening(
            OpenFault::StopTooLarge,
        ))),
        ListFault::StopBelowStart => Ending::Served(ServeFault::Replay(ReplayFault::Opening(
            OpenFault::StopBelowStart,
        ))),
        ListFault::NoNode { .. } | ListFault::NotLinked { .. } | ListFault::Memory =>
            Ending::Memory,
    }
}

/// The steps of a manner, none of them refused.
fn plain_steps(
    alloc: Global,
    plan: Arc<Plan>,
    manner: Manner,
    limits: Limits,
) -> Result<Vec<Step>, Ending> {
    listed(alloc, plan, limits.stop, manner, Some(limits.count)).map_err(no_list)
}

/// The steps with refused ones mixed in.
fn mixed_steps(
    alloc: Global,
    plan: &Arc<Plan>,
    steps: &[Step],
    limits: Limits,
) -> Result<Vec<Step>, Ending> {
    let seed = limits.seed as u64;
    let (refused, count) = (limits.refused, Some(limits.count));
    let shared = Arc::try_clone(plan)?;
    with_refused(alloc, shared, limits.stop, steps, seed, refused, count).map_err(no_list)
}

/// The steps of a manner on a plan, none of them refused.
fn steps_on_plan(
    alloc: Global,
    plan: &Arc<Plan>,
    manner: Manner,
    limits: Limits,
) -> Result<Vec<Step>, Ending> {
    let shared = Arc::try_clone(plan)?;
    plain_steps(alloc, shared, manner, limits)
}

/// The steps of a manner, with refused ones mixed in.
fn steps_with_refused(
    alloc: Global,
    plan: &Arc<Plan>,
    manner: Manner,
    limits: Limits,
) -> Result<Vec<Step>, Ending> {
    let steps = steps_on_plan(alloc, plan, manner, limits)?;
    mixed_steps(alloc, plan, &steps, limits)
}

/// The steps of a manner on a plan, with refused ones mixed in where they are asked for.
fn steps_by(
    alloc: Global,
    plan: &Arc<Plan>,
    manner: Manner,
    limits: Limits,
) -> Result<Vec<Step>, Ending> {
    if limits.refused == 0 {
        steps_on_plan(alloc, plan, manner, limits)
    } else {
        steps_with_refused(alloc, plan, manner, limits)
    }
}

/// The manner that is asked for, on a network.
fn manner_for(rt: &HostRuntime, asked: &Listing, network: &Network) -> Result<Manner, Ending> {
    let names = names_for(rt, &asked.names, network.nodes())?;
    manner_of(rt.alloc(), &names, asked, network)
}

/// The steps that are asked for in a manner, on a plan.
fn steps_in_manner_on(
    rt: &HostRuntime,
    plan: &Arc<Plan>,
    asked: &Listing,
) -> Result<Vec<Step>, Ending> {
    let manner = manner_for(rt, asked, plan.network())?;
    steps_by(rt.alloc(), plan, manner, asked.limits)
}

/// The steps that are asked for in a manner.
fn steps_in_manner(rt: &HostRuntime, asked: &Listing) -> Result<Vec<Step>, Ending> {
    let plan = shared_plan(rt, &asked.plan)?;
    steps_in_manner_on(rt, &plan, asked)
}

/// The line of which a fault tells.
fn line_in(fault: StepTextFault) -> u64 {
    match fault {
        StepTextFault::NotUtf8 { line }
        | StepTextFault::ControlCharacter { line }
        | StepTextFault::LongLine { line }
        | StepTextFault::NoSuchLine { line }
        | StepTextFault::BadCount { line }
        | StepTextFault::NoNode { line, .. }
        | StepTextFault::NotNeighbour { line }
        | StepTextFault::TooDeep { line }
        | StepTextFault::EndWithoutRepeat { line }
        | StepTextFault::TooManySteps { line }
        | StepTextFault::RepeatWithoutEnd { line } => line,
        StepTextFault::Memory => 0,
    }
}

/// What is told where lines say no steps: the file, the place, what was expected, and what stands there.
fn steps_fault_text(
    alloc: Global,
    name: &str,
    text: &[u8],
    fault: StepTextFault,
) -> Result<String, AllocError> {
    if fault == StepTextFault::Memory {
        return Err(AllocError);
    }
    let found = line_at(text, line_in(fault));
    format!(in alloc; "steps\n{name}: {fault}, found `{found}`")
}

/// The ending where lines say no steps.
fn no_steps(alloc: Global, name: &str, text: &[u8], fault: StepTextFault) -> Ending {
    Ending::refused(steps_fault_text(alloc, name, text, fault))
}

/// The steps that these lines, which have this name, say on a network.
fn steps_of(
    alloc: Global,
    network: &Network,
    names: Option<&NodeNames>,
    name: &str,
    lines: &[u8],
) -> Result<Vec<Step>, Ending> {
    match written(alloc, network, names, lines) {
        Ok(steps) => Ok(steps),
        Err(fault) => Err(no_steps(alloc, name, lines, fault)),
    }
}

/// The steps that the lines at a path say on a network.
fn steps_said(
    rt: &HostRuntime,
    network: &Network,
    names: &Option<NodeNames>,
    path: &str,
) -> Result<Vec<Step>, Ending> {
    let lines = bytes_at(rt, path)?;
    steps_of(rt.alloc(), network, names.as_ref(), name_at(path), &lines)
}

/// The steps that the lines say on a network.
fn steps_on(rt: &HostRuntime, asked: &Writing, network: &Network) -> Result<Vec<Step>, Ending> {
    let names = names_for(rt, &asked.names, network.nodes())?;
    steps_said(rt, network, &names, asked.lines.as_str())
}

/// The steps that the lines say.
fn steps_of_lines(rt: &HostRuntime, asked: &Writing) -> Result<Vec<Step>, Ending> {
    let plan = plan_at(rt, &asked.plan)?;
    steps_on(rt, asked, plan.network())
}

/// Prints steps as a schedule. The status with which the program ends.
fn put_steps(rt: &HostRuntime, steps: &[Step]) -> Result<u8, Ending> {
    let text = write_schedule(rt.alloc(), steps)?;
    print_out(rt, &text)
}

/// The steps that are asked for in a manner, standard input being one of the texts at most.
fn listed_for(rt: &HostRuntime, asked: &Listing) -> Result<Vec<Step>, Ending> {
    read_plan_once(rt.alloc(), &asked.plan, path_in(&asked.names), "", "")?;
    steps_in_manner(rt, asked)
}

/// The steps that the lines say, standard input being one of the texts at most.
fn written_for(rt: &HostRuntime, asked: &Writing) -> Result<Vec<Step>, Ending> {
    let (names, lines) = (path_in(&asked.names), asked.lines.as_str());
    read_plan_once(rt.alloc(), &asked.plan, names, lines, "")?;
    steps_of_lines(rt, asked)
}

/// The steps that are asked for.
fn steps_for(rt: &HostRuntime, asked: &ScheduleRequest) -> Result<Vec<Step>, Ending> {
    match asked {
        ScheduleRequest::Listing(asked) => listed_for(rt, asked),
        ScheduleRequest::Writing(asked) => written_for(rt, asked),
    }
}

/// Prints the schedule that is asked for. The status with which the program ends.
fn put_schedule(rt: &HostRuntime, asked: &ScheduleRequest) -> Result<u8, Ending> {
    let steps = steps_for(rt, asked)?;
    put_steps(rt, &steps)
}

/// Prints a schedule. The status with which the program ends.
pub fn make_schedule(rt: &HostRuntime, words: &[String]) -> Result<u8, Ending> {
    let asked = asked_by(ScheduleRequest::parse(rt.alloc(), words))?;
    put_schedule(rt, &asked)
}
