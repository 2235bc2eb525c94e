//! `large watch`: how many nodes changed, or have each value, round by round.

use crate::columns::{ShownField, column_output};
use crate::counts::{counted, put_counts};
use crate::large_request::{ColumnFormat, RoundsView};
use crate::round_report::no_round;
use crate::shown_rounds::{ShownRounds, start_of};
use app_commands::{RunTexts, check_output, packed_source_at, read_run_once, threads_for};
use app_files::{Ending, field_place, names_of_field, print_out};
use rounds_plan::RoundFault;
use rounds_walk::{PlanRef, changed_nodes};
use rule_check::Program;
use run_watch::Span;
use std::alloc::AllocError;
use std::thread::Threads;

/// Adds how many nodes changed in each shown round since the one before; in the first one none.
fn put_changes<R: Threads + Sync>(
    text: &mut String,
    rounds: &mut ShownRounds<'_, R>,
) -> Result<(), AllocError> {
    let span = rounds.span();
    write!(text, "{},0\n", span.first())?;
    let mut before = rounds.states(span.first())?;
    for step in 1..=span.steps() {
        let round = span.round_at(step);
        let states = rounds.states(round)?;
        let changed = changed_nodes(&before, &states);
        write!(text, "{round},{changed}\n")?;
        before = states;
    }
    Ok(())
}

/// Adds how many nodes have each value of a field in each shown round; the values have these names.
fn put_all_counts<R: Threads + Sync>(
    text: &mut String,
    rounds: &mut ShownRounds<'_, R>,
    field: u32,
    names: &[String],
) -> Result<(), AllocError> {
    let (alloc, span) = (rounds.alloc(), rounds.span());
    for step in 0..=span.steps() {
        let round = span.round_at(step);
        let states = rounds.states(round)?;
        put_counts(text, alloc, round, &states, field, names)?;
    }
    Ok(())
}

/// The text of the shown rounds: how many nodes changed in each.
fn changes_text<R: Threads + Sync>(rounds: &mut ShownRounds<'_, R>) -> Result<String, AllocError> {
    let mut text = String::from_str(rounds.alloc(), "round,changed\n")?;
    put_changes(&mut text, rounds)?;
    Ok(text)
}

/// The text of the shown rounds: how many nodes have each value of a field in each; the values have these names.
fn counts_text<R: Threads + Sync>(
    rounds: &mut ShownRounds<'_, R>,
    field: u32,
    names: &[String],
) -> Result<String, AllocError> {
    let mut text = String::from_str(rounds.alloc(), "round,value,nodes\n")?;
    put_all_counts(&mut text, rounds, field, names)?;
    Ok(text)
}

/// Refuses a round before the start.
fn check_span(plan: &PlanRef<'_>, span: &Span) -> Result<(), Ending> {
    if span.first() < plan.start() {
        return Err(no_round(RoundFault::RoundsBelowStart));
    }
    Ok(())
}

/// What is shown of each round, where fields have their places.
#[derive(Clone, Copy)]
enum Show {
    /// How many nodes changed since the round that was shown before.
    Changes,
    /// How many nodes have each value of the field at a place.
    Counts(u32),
    /// The field at a place, of all nodes.
    Column { place: u32, format: ColumnFormat },
}

impl Show {
    /// What the words ask for. An array is refused where standard output is a terminal.
    fn of(rt: &HostRuntime, program: &Program, view: &RoundsView) -> Result<Show, Ending> {
        match view {
            RoundsView::Changes => Ok(Show::Changes),
            RoundsView::Counts(name) => {
                let field = counted(rt.alloc(), program, name.as_str())?;
                Ok(Show::Counts(field))
            }
            RoundsView::Column { field, format } => {
                if *format == ColumnFormat::Npy {
                    check_output(rt)?;
                }
                let place = field_place(rt.alloc(), program, "--field", field.as_str())?;
                let format = *format;
                Ok(Show::Column { place, format })
            }
        }
    }

    /// What is printed of the shown rounds of a program on so many nodes; the values of fields have these names.
    fn output<R: Threads + Sync>(
        self,
        rounds: &mut ShownRounds<'_, R>,
        program: &Program,
        names: &[Vec<String>],
        nodes: u32,
    ) -> Result<Vec<u8>, Ending> {
        match self {
            Show::Changes => Ok(changes_text(rounds)?.into_bytes()),
            Show::Counts(field) => {
                let names = names_of_field(names, field);
                Ok(counts_text(rounds, field, names)?.into_bytes())
            }
            Show::Column { place, format } => {
                let field = ShownField {
                    place,
                    name: program.field_name(place).unwrap_or(""),
                    values: names_of_field(names, place),
                };
                column_output(rounds, field, nodes, format)
            }
        }
    }
}

/// What is shown of each round, and how the values of fields are called.
#[derive(Clone, Copy)]
struct Shown<'a> {
    show: Show,
    /// The names of the values of each field.
    names: &'a [Vec<String>],
}

/// What is printed of the rounds of a span of a plan, each shared among so many threads.
fn output_of<R: Threads + Sync>(
    rt: &HostRuntime,
    threads: &R,
    plan: &PlanRef<'_>,
    span: &Span,
    shown: Shown<'_>,
    count: usize,
) -> Result<Vec<u8>, Ending> {
    let start = start_of(rt.alloc(), plan, count)?;
    let mut rounds = ShownRounds::new(rt, threads, &start, span, count)?;
    shown
        .show
        .output(&mut rounds, plan.program(), shown.names, plan.nodes())
}

/// Prints the rounds of a span. The status with which the program ends.
pub(crate) fn watch_rounds<R: Threads + Sync>(
    rt: &HostRuntime,
    threads: &R,
    texts: &RunTexts,
    span: &Span,
    view: &RoundsView,
) -> Result<u8, Ending> {
    read_run_once(rt.alloc(), texts, "")?;
    let source = packed_source_at(rt, threads, texts)?;
    let ground = source.ground(rt, texts)?;
    let (plan, count) = (ground.lent(rt.alloc())?, threads_for(threads, texts));
    check_span(&plan, span)?;
    let show = Show::of(rt, plan.program(), view)?;
    let names = source.program.names.as_slice();
    let shown = Shown { show, names };
    let output = output_of(rt, threads, &plan, span, shown, count)?;
    print_out(rt, &output)
}
