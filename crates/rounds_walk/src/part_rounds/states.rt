//! States, and the words of their fields, node by node.
ghost use Rattle.std.specs.Prelude.{◌≡◌, ◌+◌, ◌*◌, ◌++◌, ◌<◌, ◌≤◌, IfOk, length, take, drop};
ghost use Rattle.rounds_plan.specs.Lockstep.{state_in};
ghost use Rattle.rounds_walk.specs.part_rounds.States.{state_of, states_of, words_in};

use rule_check::State;
use std::alloc::{AllocError, Global};

/// Puts words at a place.
pub fn put_words(words: &mut [u32], first: usize, new: &[u32])
    requires room { first + length new.now ≤ length words.old }
    ensures put { words.new ≡ take first words.old ++ new.now ++ drop (first + length new.now) words.old }
{
    words[first..first + new.len()].copy_from_slice(new);
}

/// The state with these words, and 0 after them.
pub fn state_of(words: &[u32]) -> State
    requires few { length words.now ≤ 8 }
    ensures state { result ≡ state_of words.now }
{
    let mut state_words = [0; 8];
    put_words(&mut state_words, 0, words);
    State { words: state_words }
}

/// The state of one of so many nodes, the words of whose fields stand node by node.
pub(crate) fn state_at(words: &[u32], fields: usize, nodes: usize, node: usize) -> State
    requires few { fields ≤ 8 }
    requires count { length words.now ≡ nodes * fields }
    requires inside { node < nodes }
    ensures state { result ≡ state_in (states_of fields nodes words.now) node }
{
    let first = node * fields;
    state_of(&words[first..first + fields])
}

/// Puts the words of a state's fields at a place.
pub fn put_state(words: &mut [u32], first: usize, state: &State, fields: usize)
    requires few { fields ≤ 8 }
    requires room { first + fields ≤ length words.old }
    ensures put { words.new ≡ take first words.old ++ take fields state.now.words ++ drop (first + fields) words.old }
    ensures count { length (take fields state.now.words) ≡ fields }
{
    put_words(words, first, &state.words[..fields]);
}

/// The values of the first so many fields; all eight words where there are not so many.
fn first_fields(state: &State, fields: u32) -> &[u32]
    ensures { result.now ≡ take fields state.now.words }
{
    &state.words[..(fields as usize).min(8)]
}

/// The values of the first so many fields, state by state, each in order of declaration.
pub fn state_rows(alloc: Global, states: &[State], fields: u32) -> Result<Vec<u32>, AllocError>
    ensures rows { IfOk result (λ v. v.items ≡ words_in fields states.now) }
{
    let mut words = Vec::new(alloc);
    for state in states {
        words.extend_from_slice(first_fields(state, fields))?;
    }
    Ok(words)
}
