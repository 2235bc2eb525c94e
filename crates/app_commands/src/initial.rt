//! Initial values that the words ask for, put into the states of all nodes.

use crate::arrays::column_at;
use crate::names::names_at;
use crate::set_words::{RandomWord, SetWord, amounts_of};
use crate::start::{FileWord, StartWords};
use app_files::{
    Ending, NodeCalls, ValueWord, drawn_parts, field_place, listed_nodes, names_of_field,
};
use net_initial::Chosen;
use rounds_walk::{set_all_values, set_value};
use rule_check::{Program, State};
use std::alloc::Global;

/// A program whose nodes begin.
#[derive(Clone, Copy)]
pub(crate) struct StartProgram<'a> {
    pub(crate) program: &'a Program,
    /// For each of its fields, in order, the names of its values; none where a field has no states, or nothing is known.
    pub(crate) names: &'a [Vec<String>],
    /// By what nodes are drawn.
    pub(crate) seed: u32,
}

/// A value for a field, by its place.
#[derive(Clone, Copy)]
struct FieldValue {
    field: u32,
    value: u32,
}

impl StartProgram<'_> {
    /// The value that a word after an option names, for the field that another one names.
    fn value_for(
        &self,
        alloc: Global,
        option: &str,
        field: &str,
        word: &ValueWord,
    ) -> Result<FieldValue, Ending> {
        let place = field_place(alloc, self.program, option, field)?;
        let names = names_of_field(self.names, place);
        let value = word.value(alloc, option, field, names)?;
        Ok(FieldValue {
            field: place,
            value,
        })
    }
}

/// The ending where a word of `--set` names no node.
fn no_node(alloc: Global, calls: &NodeCalls<'_>, word: &SetWord) -> Ending {
    let (field, node) = (word.field.as_str(), word.node.as_str());
    match calls.expected(alloc) {
        Ok(expected) => Ending::usage(format!(in alloc;
            "--set: {field}: expected * or {expected}, found `{node}`"
        )),
        Err(_) => Ending::Memory,
    }
}

/// Gives a field of these nodes a value.
fn put_values(states: &mut [State], program: &Program, nodes: &[u32], own: FieldValue) {
    for node in nodes {
        let _ = set_value(program, states, *node, own.field, own.value);
    }
}

/// Gives a field of the nodes from one to another a value.
fn put_range(states: &mut [State], program: &Program, first: u32, last: u32, own: FieldValue) {
    for node in first..=last {
        let _ = set_value(program, states, node, own.field, own.value);
    }
}

/// Gives a field of the nodes that are chosen a value.
fn put_chosen(states: &mut [State], program: &Program, chosen: &Chosen, own: FieldValue) {
    match chosen {
        Chosen::Every => {
            let _ = set_all_values(program, states, own.field, own.value);
        }
        Chosen::One(node) => {
            let _ = set_value(program, states, *node, own.field, own.value);
        }
        Chosen::Range { first, last } => put_range(states, program, *first, *last, own),
        Chosen::These(nodes) => put_values(states, program, nodes, own),
    }
}

/// The node that a word of `--set` names.
fn node_for(alloc: Global, calls: &NodeCalls<'_>, word: &SetWord) -> Result<Chosen, Ending> {
    match calls.node(word.node.as_str()) {
        Some(node) => Ok(Chosen::One(node)),
        None => Err(no_node(alloc, calls, word)),
    }
}

/// The nodes that a word of `--set` names.
fn nodes_for(rt: &HostRuntime, calls: &NodeCalls<'_>, word: &SetWord) -> Result<Chosen, Ending> {
    if word.node.as_str() == "*" {
        return Ok(Chosen::Every);
    }
    match listed_nodes(rt, calls, word.field.as_str(), word.node.as_str())? {
        Some(chosen) => Ok(chosen),
        None => node_for(rt.alloc(), calls, word),
    }
}

/// Gives the values that a word of `--set` names.
fn put_set(
    states: &mut [State],
    rt: &HostRuntime,
    start: StartProgram<'_>,
    calls: &NodeCalls<'_>,
    word: &SetWord,
) -> Result<(), Ending> {
    let own = start.value_for(rt.alloc(), "--set", word.field.as_str(), &word.value)?;
    let nodes = nodes_for(rt, calls, word)?;
    put_chosen(states, start.program, &nodes, own);
    Ok(())
}

/// Gives the values that the words of `--set` name, in their order, of so many nodes.
fn put_sets(
    states: &mut [State],
    rt: &HostRuntime,
    start: StartProgram<'_>,
    nodes: u32,
    words: &StartWords,
) -> Result<(), Ending> {
    let names = names_at(rt, &words.names)?;
    let calls = NodeCalls {
        nodes,
        names: names.as_ref(),
    };
    for word in &words.sets {
        put_set(states, rt, start, &calls, word)?;
    }
    Ok(())
}

/// Gives the value that a word of `--set-random` names to these nodes.
fn put_random(
    states: &mut [State],
    alloc: Global,
    start: StartProgram<'_>,
    word: &RandomWord,
    nodes: &[u32],
) -> Result<(), Ending> {
    let own = start.value_for(alloc, "--set-random", word.field.as_str(), &word.value)?;
    put_values(states, start.program, nodes, own);
    Ok(())
}

/// Gives the values that the words of `--set-random` name to the nodes that they draw, in their order.
fn put_drawn(
    states: &mut [State],
    alloc: Global,
    start: StartProgram<'_>,
    words: &[RandomWord],
    drawn: &[Vec<u32>],
) -> Result<(), Ending> {
    for (word, part) in words.iter().zip(drawn) {
        put_random(states, alloc, start, word, part)?;
    }
    Ok(())
}

/// Gives the values that the words of `--set-random` name, of so many nodes, in their order. They draw the nodes that `unison
/// init` draws by the same words.
fn put_randoms(
    states: &mut [State],
    alloc: Global,
    start: StartProgram<'_>,
    nodes: u32,
    words: &StartWords,
) -> Result<(), Ending> {
    let amounts = amounts_of(alloc, &words.random)?;
    let drawn = drawn_parts(alloc, nodes, &amounts, start.seed, words.overlap)?;
    put_drawn(states, alloc, start, &words.random, &drawn)
}

/// Gives a field of each of so many nodes its value.
fn put_column(states: &mut [State], program: &Program, nodes: u32, field: u32, values: &[u32]) {
    for (node, value) in (0..nodes).zip(values) {
        let _ = set_value(program, states, node, field, *value);
    }
}

/// Gives a field of so many nodes the values of the array that a word of `--set-file` names.
fn put_file(
    states: &mut [State],
    rt: &HostRuntime,
    program: &Program,
    nodes: u32,
    word: &FileWord,
) -> Result<(), Ending> {
    let field = field_place(rt.alloc(), program, "--set-file", word.field.as_str())?;
    let values = column_at(rt, word.path.as_str(), nodes)?;
    put_column(states, program, nodes, field, &values);
    Ok(())
}

/// Gives fields of so many nodes the values of the arrays that the words of `--set-file` name, in their order.
fn put_files(
    states: &mut [State],
    rt: &HostRuntime,
    program: &Program,
    nodes: u32,
    words: &[FileWord],
) -> Result<(), Ending> {
    for word in words {
        put_file(states, rt, program, nodes, word)?;
    }
    Ok(())
}

/// Puts the values that the words ask for into the states of so many nodes: drawn values, then those of arrays, then those of
/// `--set`.
pub(crate) fn put_start(
    states: &mut [State],
    rt: &HostRuntime,
    start: StartProgram<'_>,
    nodes: u32,
    words: &StartWords,
) -> Result<(), Ending> {
    put_randoms(states, rt.alloc(), start, nodes, words)?;
    put_files(states, rt, start.program, nodes, words.files.as_slice())?;
    put_sets(states, rt, start, nodes, words)
}
