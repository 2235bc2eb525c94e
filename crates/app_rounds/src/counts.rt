//! How many nodes have each value of a field, as CSV.

use app_files::{Ending, field_place};
use rounds_walk::count_values;
use rule_check::{Program, State};
use run_watch::put_label;
use std::alloc::{AllocError, Global};

/// The place of the field that `--count` names.
pub(crate) fn counted(alloc: Global, program: &Program, name: &str) -> Result<u32, Ending> {
    field_place(alloc, program, "--count", name)
}

/// Adds a line for each value that a field has after a round, by its name among these where it has one, and how many nodes
/// have it, by rising value.
pub(crate) fn put_counts(
    text: &mut String,
    alloc: Global,
    round: u32,
    states: &[State],
    field: u32,
    names: &[String],
) -> Result<(), AllocError> {
    let counts = count_values(alloc, states, field)?;
    for (value, nodes) in &counts {
        write!(text, "{round},")?;
        put_label(text, names, *value)?;
        write!(text, ",{nodes}\n")?;
    }
    Ok(())
}
