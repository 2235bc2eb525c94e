//! Nodes that a word of `--set` lists: those from one to another, and those that a file names.

use crate::ending::Ending;
use crate::files::{bytes_at, name_at};
use app_table::number;
use net_initial::{Chosen, NodeLine, node_lines};
use net_names::NodeNames;
use std::alloc::{AllocError, Global};
use std::rt::Files;
use std::str;

/// How the nodes of a network are called, and how many there are.
#[derive(Drop)]
pub struct NodeCalls<'a> {
    pub nodes: u32,
    /// Their names, where they are called by names, and not by their numbers.
    pub names: Option<&'a NodeNames>,
}

impl<'a> NodeCalls<'a> {
    /// The number that a word stands for, be it one of the network or not.
    fn number_of(&self, word: &str) -> Option<u32> {
        match self.names {
            Some(names) => names.number_of(word),
            None => number(word, 0, 4_294_967_295),
        }
    }

    /// The node that a word calls, where it calls one.
    pub fn node(&self, word: &str) -> Option<u32> {
        let node = self.number_of(word)?;
        if node < self.nodes { Some(node) } else { None }
    }

    /// What a word has to be so that it calls a node.
    pub fn expected(&self, alloc: Global) -> Result<String, AllocError> {
        let nodes = self.nodes;
        match self.names {
            Some(_) => String::from_str(
                alloc,
                "a name that the file of names has for a node of the network",
            ),
            None => format!(in alloc; "a node's number below {nodes}"),
        }
    }
}

/// The ending where a side of `A..B` calls no node.
fn no_side(alloc: Global, calls: &NodeCalls<'_>, field: &str, word: &str) -> Ending {
    match calls.expected(alloc) {
        Ok(expected) => Ending::usage(format!(in alloc;
            "--set: {field}: expected {expected} on both sides of .., found `{word}`"
        )),
        Err(_) => Ending::Memory,
    }
}

/// The ending where the first of two nodes comes after the last.
fn no_range(alloc: Global, field: &str, first: &str, last: &str) -> Ending {
    Ending::usage(format!(in alloc;
        "--set: {field}: expected A..B with A before B, or both the same, found `{first}..{last}`: {first} comes after {last}"
    ))
}

/// The nodes from one to another, both included.
fn range_of(
    alloc: Global,
    calls: &NodeCalls<'_>,
    field: &str,
    sides: (&str, &str),
) -> Result<Chosen, Ending> {
    let (from, to) = sides;
    let Some(first) = calls.node(from) else {
        return Err(no_side(alloc, calls, field, from));
    };
    let Some(last) = calls.node(to) else {
        return Err(no_side(alloc, calls, field, to));
    };
    if first > last {
        return Err(no_range(alloc, field, from, to));
    }
    Ok(Chosen::Range { first, last })
}

/// What is told of a line of a list that calls no node.
fn no_node(
    alloc: Global,
    calls: &NodeCalls<'_>,
    name: &str,
    line: u64,
    found: &str,
) -> Result<String, AllocError> {
    let expected = calls.expected(alloc)?;
    format!(in alloc; "nodes NoNode {line}\n{name}:{line}: expected {expected}, found `{found}`")
}

/// What is told of a line of a list that is no text.
fn no_text(alloc: Global, name: &str, line: u64) -> Result<String, AllocError> {
    format!(in alloc; "nodes NotUtf8 {line}\n{name}:{line}: the line is not UTF-8")
}

/// The node that a line of a list calls.
fn node_on(
    alloc: Global,
    calls: &NodeCalls<'_>,
    name: &str,
    line: &NodeLine<'_>,
) -> Result<u32, Ending> {
    let Ok(text) = str::from_utf8(line.text) else {
        return Err(Ending::refused(no_text(alloc, name, line.line)));
    };
    match calls.node(text) {
        Some(node) => Ok(node),
        None => Err(Ending::refused(no_node(alloc, calls, name, line.line, text))),
    }
}

/// Puts the node that a line of a list calls after the others.
fn put_node(
    nodes: &mut Vec<u32>,
    alloc: Global,
    calls: &NodeCalls<'_>,
    name: &str,
    line: &NodeLine<'_>,
) -> Result<(), Ending> {
    let node = node_on(alloc, calls, name, line)?;
    nodes.push(node)?;
    Ok(())
}

/// The nodes that a list calls, in the order of its lines.
fn nodes_in(
    alloc: Global,
    calls: &NodeCalls<'_>,
    name: &str,
    list: &[u8],
) -> Result<Vec<u32>, Ending> {
    let lines = node_lines(alloc, list)?;
    let mut nodes = Vec::with_capacity(alloc, lines.len())?;
    for line in &lines {
        put_node(&mut nodes, alloc, calls, name, line)?;
    }
    Ok(nodes)
}

/// The nodes that the file at a path lists.
fn nodes_at(
    rt: &(impl Files + Input + AllocGlobal),
    calls: &NodeCalls<'_>,
    path: &str,
) -> Result<Chosen, Ending> {
    let list = bytes_at(rt, path)?;
    let nodes = nodes_in(rt.alloc(), calls, name_at(path), &list)?;
    Ok(Chosen::These(nodes))
}

/// The path after `@`, where a word begins with it.
pub fn list_path(word: &str) -> Option<&str> {
    word.strip_prefix('@')
}

/// The nodes that a word of `--set` for a field lists: for `A..B` those from A to B, both included, for `@FILE` those that
/// the file calls, a line each; `None` where it is neither, or calls a node by itself. Invalid arguments where A or B is no
/// node, or A comes after B; the text is refused where a line of it calls no node.
pub fn listed_nodes(
    rt: &(impl Files + Input + AllocGlobal),
    calls: &NodeCalls<'_>,
    field: &str,
    word: &str,
) -> Result<Option<Chosen>, Ending> {
    if calls.number_of(word).is_some() {
        return Ok(None);
    }
    if let Some(path) = list_path(word) {
        let nodes = nodes_at(rt, calls, path)?;
        return Ok(Some(nodes));
    }
    let Some(sides) = word.split_once("..") else {
        return Ok(None);
    };
    let range = range_of(rt.alloc(), calls, field, sides)?;
    Ok(Some(range))
}
