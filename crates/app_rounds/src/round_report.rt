//! `lockstep PROGRAM NETWORK --rounds T` and `large lockstep`: the states after a round.

use crate::columns::column_of;
use crate::counts::{counted, put_counts};
use crate::lockstep_request::{LockstepRequest, StatesFormat, StatesView};
use crate::shown_rounds::{ShownRounds, start_of};
use app_commands::{
    RunSource, array_of, asked_by, check_output, program_in, read_run_once, source_at, threads_for,
};
use app_files::{Ending, field_place, names_of_field, print_out};
use app_jobs::ServeFault;
use report_files::npy::ArrayShape;
use report_text::report_states;
use rounds_plan::RoundFault;
use rounds_walk::part_rounds::state_rows;
use rounds_walk::{PackedStates, PlanRef, Start, lockstep_states};
use rule_check::{Program, State};
use run_watch::{Span, csv_states};
use std::alloc::{AllocError, Global};
use std::thread::Threads;

/// In how many parts the way to a round is told at most.
const TOLD_PARTS: u32 = 256;

/// The ending where there is no such round.
pub(crate) fn no_round(fault: RoundFault) -> Ending {
    match fault {
        RoundFault::Memory => Ending::Memory,
        fault => Ending::Served(ServeFault::Round(fault)),
    }
}

/// The states after a round of a start, which is shared among so many threads.
pub(crate) fn states_after<'a>(
    alloc: Global,
    threads: &(impl Threads + Sync),
    start: &'a Start<'a>,
    rounds: u32,
    count: usize,
) -> Result<Vec<State>, Ending> {
    match lockstep_states(threads, alloc, start, rounds, count) {
        Ok(states) => Ok(states),
        Err(fault) => Err(no_round(fault)),
    }
}

/// The states of a start after a way by fields. How far the rounds are is told where they are long.
fn packed_along<R: Threads + Sync>(
    rt: &HostRuntime,
    threads: &R,
    start: &Start<'_>,
    way: &Span,
    count: usize,
) -> Result<PackedStates, AllocError> {
    let mut rounds = ShownRounds::new(rt, threads, start, way, count)?;
    for part in 0..way.steps() {
        rounds.go_to(way.round_at(part));
    }
    rounds.go_to(way.last());
    Ok(rounds.into_walk().into_packed())
}

/// The way from one round to another, in the parts in which it is told.
fn way_to(first: u32, rounds: u32) -> Result<Span, Ending> {
    match Span::new(first, rounds, rounds.saturating_sub(first) / TOLD_PARTS + 1) {
        Some(way) => Ok(way),
        None => Err(no_round(RoundFault::RoundsBelowStart)),
    }
}

/// The states after a round by fields.
fn packed_from(
    rt: &HostRuntime,
    threads: &(impl Threads + Sync),
    plan: &PlanRef<'_>,
    rounds: u32,
    count: usize,
) -> Result<PackedStates, Ending> {
    let way = way_to(plan.start(), rounds)?;
    let start = start_of(rt.alloc(), plan, count)?;
    Ok(packed_along(rt, threads, &start, &way, count)?)
}

/// What is shown of the states after a round.
#[derive(Clone, Copy)]
enum Show {
    /// All states.
    All(StatesFormat),
    /// The field at this place, as an array.
    Column(u32),
    /// How many nodes have each value of the field at this place.
    Counts(u32),
}

impl Show {
    /// What the words ask for. Binary files are refused where standard output is a terminal.
    fn of(rt: &HostRuntime, program: &Program, view: &StatesView) -> Result<Show, Ending> {
        match view {
            StatesView::All(format) => {
                if *format == StatesFormat::Npy {
                    check_output(rt)?;
                }
                Ok(Show::All(*format))
            }
            StatesView::Column(name) => {
                check_output(rt)?;
                let field = field_place(rt.alloc(), program, "--field", name.as_str())?;
                Ok(Show::Column(field))
            }
            StatesView::Counts(name) => {
                let field = counted(rt.alloc(), program, name.as_str())?;
                Ok(Show::Counts(field))
            }
        }
    }
}

/// The text about how many nodes have each value of a field after a round; the values have these names.
fn counts_text(
    alloc: Global,
    rounds: u32,
    states: &[State],
    field: u32,
    names: &[String],
) -> Result<Vec<u8>, AllocError> {
    let mut text = String::from_str(alloc, "round,value,nodes\n")?;
    put_counts(&mut text, alloc, rounds, states, field, names)?;
    Ok(text.into_bytes())
}

/// The states as an array, with a row for each node and a column for each field.
fn table_of(alloc: Global, program: &Program, states: &[State]) -> Result<Vec<u8>, Ending> {
    let fields = program.field_count();
    let words = state_rows(alloc, states, fields)?;
    let shape = ArrayShape::Table {
        rows: states.len(),
        columns: fields as usize,
    };
    array_of(alloc, shape, &words)
}

/// A field as an array with an element for each node.
fn row_of(alloc: Global, states: &[State], field: u32) -> Result<Vec<u8>, Ending> {
    let words = column_of(alloc, states, field)?;
    let shape = ArrayShape::Row { count: words.len() };
    array_of(alloc, shape, &words)
}

/// What is printed of the states after a round; the values of fields have these names.
fn output_of(
    alloc: Global,
    program: &Program,
    names: &[Vec<String>],
    rounds: u32,
    states: &[State],
    show: Show,
) -> Result<Vec<u8>, Ending> {
    match show {
        Show::All(StatesFormat::Report) => Ok(report_states(alloc, program, rounds, states)?),
        Show::All(StatesFormat::Csv) => Ok(csv_states(alloc, program, names, states)?),
        Show::All(StatesFormat::Npy) => table_of(alloc, program, states),
        Show::Column(field) => row_of(alloc, states, field),
        Show::Counts(field) => {
            let names = names_of_field(names, field);
            Ok(counts_text(alloc, rounds, states, field, names)?)
        }
    }
}

/// Prints what is shown of the states after a round of a program with this text; the values of fields have these names. The
/// status with which the program ends.
fn print_states(
    rt: &HostRuntime,
    text: &[u8],
    names: &[Vec<String>],
    rounds: u32,
    packed: PackedStates,
    show: Show,
) -> Result<u8, Ending> {
    let program = program_in(rt.alloc(), text)?;
    let states = packed.states(rt.alloc())?;
    let output = output_of(rt.alloc(), &program, names, rounds, &states, show)?;
    print_out(rt, &output)
}

/// The states after a round of a run by fields, and what is shown of them.
fn packed_of(
    rt: &HostRuntime,
    threads: &(impl Threads + Sync),
    source: &RunSource,
    asked: &LockstepRequest,
) -> Result<(PackedStates, Show), Ending> {
    let ground = source.noted_ground(rt, &asked.texts, asked.quiet)?;
    let plan = ground.lent(rt.alloc())?;
    let show = Show::of(rt, plan.program(), &asked.view)?;
    let count = threads_for(threads, &asked.texts);
    let packed = packed_from(rt, threads, &plan, asked.rounds, count)?;
    Ok((packed, show))
}

/// Prints what is shown of the states after a round of a run. The status with which the program ends.
pub(crate) fn report_run(
    rt: &HostRuntime,
    threads: &(impl Threads + Sync),
    source: RunSource,
    asked: &LockstepRequest,
) -> Result<u8, Ending> {
    let (packed, show) = packed_of(rt, threads, &source, asked)?;
    // The network and the initial states are dropped before the list of the states is made.
    let RunSource { program, .. } = source;
    let rounds = asked.rounds;
    print_states(rt, &program.text, &program.names, rounds, packed, show)
}

/// Prints what is shown of the states after a round. The status with which the program ends.
fn put_states(
    rt: &HostRuntime,
    threads: &(impl Threads + Sync),
    asked: &LockstepRequest,
) -> Result<u8, Ending> {
    read_run_once(rt.alloc(), &asked.texts, "")?;
    let source = source_at(rt, threads, &asked.texts)?;
    report_run(rt, threads, source, asked)
}

/// Reports the states after a round. The status with which the program ends.
pub fn report_round(
    rt: &HostRuntime,
    threads: &(impl Threads + Sync),
    words: &[String],
) -> Result<u8, Ending> {
    let asked = asked_by(LockstepRequest::parse(rt.alloc(), words))?;
    put_states(rt, threads, &asked)
}
