//! The values of a field in all nodes, round by round: `large watch --field`.

use crate::large_request::ColumnFormat;
use crate::shown_rounds::ShownRounds;
use app_commands::array_of;
use app_files::Ending;
use report_files::npy::ArrayShape;
use rounds_walk::push_column;
use rule_check::State;
use run_watch::put_label;
use std::alloc::{AllocError, Global};
use std::thread::Threads;

/// A field that is shown.
#[derive(Clone, Copy)]
pub(crate) struct ShownField<'a> {
    pub(crate) place: u32,
    pub(crate) name: &'a str,
    /// What its values are called, 0 and so on; a value past the last is its number.
    pub(crate) values: &'a [String],
}

/// Adds the line of a node: the round, its number, and its value, by its name among these where it has one.
fn put_line(
    text: &mut String,
    round: u32,
    node: usize,
    names: &[String],
    value: u32,
) -> Result<(), AllocError> {
    write!(text, "{round},{node},")?;
    put_label(text, names, value)?;
    text.push_str("\n")
}

/// Adds the lines of all nodes.
fn put_lines(
    text: &mut String,
    round: u32,
    names: &[String],
    values: &[u32],
) -> Result<(), AllocError> {
    for (node, value) in values.iter().enumerate() {
        put_line(text, round, node, names, *value)?;
    }
    Ok(())
}

/// The values of a field in the states.
pub(crate) fn column_of(
    alloc: Global,
    states: &[State],
    field: u32,
) -> Result<Vec<u32>, AllocError> {
    let mut values = Vec::with_capacity(alloc, states.len())?;
    push_column(&mut values, states, field)?;
    Ok(values)
}

/// The lines of all shown rounds.
fn put_rounds<R: Threads + Sync>(
    text: &mut String,
    rounds: &mut ShownRounds<'_, R>,
    field: ShownField<'_>,
) -> Result<(), AllocError> {
    let span = rounds.span();
    for step in 0..=span.steps() {
        let round = span.round_at(step);
        let states = rounds.states(round)?;
        let values = column_of(rounds.alloc(), &states, field.place)?;
        put_lines(text, round, field.values, &values)?;
    }
    Ok(())
}

/// The values of all shown rounds, round by round.
fn words_of<R: Threads + Sync>(
    rounds: &mut ShownRounds<'_, R>,
    field: u32,
) -> Result<Vec<u32>, AllocError> {
    let mut words = Vec::new(rounds.alloc());
    let span = rounds.span();
    for step in 0..=span.steps() {
        let states = rounds.states(span.round_at(step))?;
        push_column(&mut words, &states, field)?;
    }
    Ok(words)
}

/// The shown rounds as CSV.
fn lines_of<R: Threads + Sync>(
    rounds: &mut ShownRounds<'_, R>,
    field: ShownField<'_>,
) -> Result<Vec<u8>, AllocError> {
    let name = field.name;
    let mut text = format!(in rounds.alloc(); "round,node,{name}\n")?;
    put_rounds(&mut text, rounds, field)?;
    Ok(text.into_bytes())
}

/// The shown rounds as an array, with a row for each of them and a column for each of so many nodes.
fn table_of<R: Threads + Sync>(
    rounds: &mut ShownRounds<'_, R>,
    field: u32,
    nodes: u32,
) -> Result<Vec<u8>, Ending> {
    let words = words_of(rounds, field)?;
    let shape = ArrayShape::Table {
        rows: rounds.span().steps() as usize + 1,
        columns: nodes as usize,
    };
    array_of(rounds.alloc(), shape, &words)
}

/// What is printed of a field of so many nodes in the shown rounds.
pub(crate) fn column_output<R: Threads + Sync>(
    rounds: &mut ShownRounds<'_, R>,
    field: ShownField<'_>,
    nodes: u32,
    format: ColumnFormat,
) -> Result<Vec<u8>, Ending> {
    match format {
        ColumnFormat::Csv => Ok(lines_of(rounds, field)?),
        ColumnFormat::Npy => table_of(rounds, field.place, nodes),
    }
}
