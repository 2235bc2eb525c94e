//! States, and the words of their fields, node by node.
ghost use Rattle.std.specs.Prelude.{◌≡◌, ◌+◌, ◌*◌, ◌++◌, ◌≤◌, length, IfOk, OnOk};
ghost use Rattle.app_calls.specs.Words.{words_in};
ghost use Rattle.rounds_walk.specs.part_rounds.States.{state_of, states_of};

use crate::add_words;
use rounds_walk::part_rounds::{put_state, state_of};
use rule_check::State;
use std::alloc::{AllocError, Global};

/// The states of so many nodes, the words of whose fields stand node by node.
pub(crate) fn states_of(
    alloc: Global,
    words: &[u32],
    fields: usize,
    nodes: usize,
) -> Result<Vec<State>, AllocError>
    requires few { fields ≤ 8 }
    requires count { length words.now ≡ nodes * fields }
    ensures states { IfOk result (λ v. v.items ≡ states_of fields nodes words.now) }
{
    let mut states = Vec::with_capacity(alloc, nodes)?;
    let mut rest = words;
    for _node in 0..nodes {
        let (front, behind) = rest.split_at(fields);
        states.push(state_of(front))?;
        rest = behind;
    }
    Ok(states)
}

/// Puts the words of the fields of all states, state by state.
pub(crate) fn put_states(states: &[State], fields: usize, words: &mut [u32])
    requires few { fields ≤ 8 }
    requires count { length words.old ≡ length states.now * fields }
    ensures put { words.new ≡ words_in fields states.now }
{
    let mut first = 0;
    for state in states {
        put_state(words, first, state, fields);
        first += fields;
    }
}

/// Appends the words of the fields of all states, state by state.
pub(crate) fn add_states(
    words: &mut Vec<u32>,
    states: &[State],
    fields: usize,
) -> Result<(), AllocError>
    requires few { fields ≤ 8 }
    ensures added { OnOk result (words.new.items ≡ words.old.items ++ words_in fields states.now) }
    ensures count { OnOk result (length (words_in fields states.now) ≡ length states.now * fields) }
{
    for state in states {
        add_words(words, state, fields)?;
    }
    Ok(())
}
