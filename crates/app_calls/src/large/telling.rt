//! What is told of a round.
ghost use Rattle.std.specs.Prelude.{◌≡◌, ◌+◌, ◌*◌, ◌++◌, ◌≤◌, ◌<◌, ◌^◌, length, OnOk};
ghost use Rattle.app_calls.specs.Counted.{counts_in};
ghost use Rattle.app_calls.specs.Tellings.{told_count, told_in};

use crate::large::states::add_states;
use crate::large::tally::add_counts;
use rounds_walk::push_column;
use rule_check::State;
use std::alloc::{AllocError, Global};

/// What is told of a round.
#[derive(Clone, Copy)]
pub(crate) enum Telling<'a> {
    /// The words of all fields of all nodes, node by node.
    Words,
    /// How many nodes have each of the values in the field, and last how many have none of them.
    Counts { field: u32, values: &'a [u32] },
}

/// Appends how many of the states have each of the values in the field, and last how many have none of them.
fn count_states(
    alloc: Global,
    words: &mut Vec<u32>,
    states: &[State],
    field: u32,
    values: &[u32],
) -> Result<(), AllocError>
    requires few { length states.now < 2 ^ 32 }
    ensures added { OnOk result (words.new.items ≡ words.old.items ++ counts_in field values.now states.now) }
    ensures count { OnOk result (length (counts_in field values.now states.now) ≡ length values.now + 1) }
{
    let mut column = Vec::with_capacity(alloc, states.len())?;
    push_column(&mut column, states, field)?;
    add_counts(words, &column, values)
}

/// Appends what is told of states.
pub(crate) fn add_told(
    alloc: Global,
    words: &mut Vec<u32>,
    states: &[State],
    fields: usize,
    telling: Telling<'_>,
) -> Result<(), AllocError>
    requires fields { fields ≤ 8 }
    requires few { length states.now < 2 ^ 32 }
    ensures added { OnOk result (words.new.items ≡ words.old.items ++ told_in telling.entry fields states.now) }
    ensures count { OnOk result (length (told_in telling.entry fields states.now) ≡ told_count telling.entry (length states.now * fields)) }
{
    match telling {
        Telling::Words => add_states(words, states, fields),
        Telling::Counts { field, values } => count_states(alloc, words, states, field, values),
    }
}
