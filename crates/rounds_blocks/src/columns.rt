//! States by columns, one for each field.
ghost use Rattle.std.specs.Prelude.{◌≡◌, ◌↔◌, ◌<◌, ◌≤◌, ℕ, All, IfOk, IsTrue, length, map, slice_index, slice_index_or};
ghost use Rattle.rule_check.specs.declared.state.State.{State};
ghost use Rattle.link_net.specs.Neighbours.{numbers_below};
ghost use Rattle.rounds_code.specs.Block.{column_words, state_at};
ghost use Rattle.rounds_blocks.specs.Rounds.{HaveWords, IsPlain};

use rule_check::State;
use std::alloc::{AllocError, Global};

/// The eight words of a state.
fn words_of(state: &State) -> &[u32]
    ensures words { result.now ≡ state.now.words }
    ensures count { length state.now.words ≡ 8 }
{
    &state.words
}

/// Looks at all states, for the proof alone: each has eight words.
fn look_at(states: &[State])
    ensures count { All (λ state. length state.words ≡ 8) states.now }
{
    for state in states {
        let _words = words_of(state);
    }
}

/// The words of a field.
fn column_of(alloc: Global, field: usize, states: &[State]) -> Result<Vec<u32>, AllocError>
    requires field { field < 8 }
    ensures words { IfOk result (λ column. column.items ≡ map (λ state. slice_index state.words field) states.now) }
{
    states.iter().map(|state| state.words[field]).collect(alloc)
}

/// The states of nodes by columns, one for each of so many fields. A column has a word for each node.
pub fn columns_of(
    alloc: Global,
    fields: usize,
    states: &[State],
) -> Result<Vec<Vec<u32>>, AllocError>
    requires few { fields ≤ 8 }
    ensures fields { IfOk result (λ columns. length columns.items ≡ fields) }
    ensures nodes { IfOk result (λ columns. HaveWords (length states.now) columns.items) }
    ensures states { IfOk result (λ columns. (u : ℕ) (d : State) → u < length states.now → IsPlain fields (slice_index_or states.now u d) → state_at columns.items u ≡ slice_index_or states.now u d) }
{
    look_at(states);
    let mut columns = Vec::with_capacity(alloc, fields)?;
    for field in 0..fields {
        columns.push(column_of(alloc, field, states)?)?;
    }
    Ok(columns)
}

/// The state of a node by columns.
fn state_of(columns: &[Vec<u32>], node: usize) -> State
    requires few { length columns.now ≤ 8 }
    requires node { All (λ column. node < length column.items) columns.now }
    ensures exact { result ≡ state_at columns.now node }
{
    let mut words = [0; 8];
    for (k, column) in columns.iter().enumerate() {
        words[k] = column[node];
    }
    State { words }
}

/// The states of so many nodes by columns.
pub fn states_of(
    alloc: Global,
    nodes: usize,
    columns: &[Vec<u32>],
) -> Result<Vec<State>, AllocError>
    requires few { length columns.now ≤ 8 }
    requires nodes { HaveWords nodes columns.now }
    ensures exact { IfOk result (λ states. states.items ≡ map (state_at columns.now) (numbers_below nodes)) }
    ensures plain { IfOk result (λ states. All (IsPlain (length columns.now)) states.items) }
{
    let mut states = Vec::with_capacity(alloc, nodes)?;
    for node in 0..nodes {
        states.push(state_of(columns, node))?;
    }
    Ok(states)
}

/// Whether the columns have the same words.
pub fn are_same(left: &[Vec<u32>], right: &[Vec<u32>]) -> bool
    ensures exact { IsTrue result ↔ (column_words left.now ≡ column_words right.now) }
{
    left == right
}
