//! What is told of a text that is not packed.

use app_files::{
    Told, edges_told, matrix_told, on_line, put_matrix_detail, put_place, weight_told, words_told,
};
use app_table::Draft;
use import_network::{MatrixPackFault, NamesPackFault};
use large_pack::{LineFault, NodeFault, PackFault};
use std::alloc::{AllocError, Global};

/// What is wrong with a word that is to say a node.
fn node_told(fault: NodeFault) -> (&'static str, &'static str) {
    match fault {
        NodeFault::BadNode => (
            "BadNode",
            "expected the numbers of two nodes, from 0; for names there is --names FILE (--header passes over a line of headings)",
        ),
        NodeFault::NodeTooLarge => ("NodeTooLarge", "the number of a node is 4294967294 at most"),
    }
}

/// What is wrong with a line.
fn line_told(fault: LineFault) -> (&'static str, &'static str) {
    match fault {
        LineFault::Words(fault) => words_told(fault),
        LineFault::Node { fault, .. } => node_told(fault),
        LineFault::Weight(fault) => weight_told(fault),
    }
}

/// What is wrong with a list of edges.
fn pack_told(fault: PackFault) -> Told {
    match fault {
        PackFault::BadLine { line, fault } => on_line(line, line_told(fault)),
        PackFault::NoNode => (
            None,
            "NoNode",
            "no line says an edge, and --nodes does not say how many nodes there are",
        ),
        PackFault::NodeOutside { line, .. } => (
            Some(line),
            "NodeOutside",
            "the number of a node is lower than what --nodes says",
        ),
        PackFault::SelfLoop { line } => (
            Some(line),
            "SelfLoop",
            "a node is joined with itself (--drop-loops drops such edges, --keep-loops keeps them)",
        ),
        PackFault::ParallelEdge { line, .. } => (
            Some(line),
            "ParallelEdge",
            "an earlier edge joins these two nodes (--parallel min, max or first keeps one, keep keeps all)",
        ),
        PackFault::TooManyEdges => (
            None,
            "TooManyEdges",
            "the nodes would have more than 4294967295 neighbours together",
        ),
        PackFault::Memory => (None, "Memory", ""),
    }
}

/// Adds what is told beside: the node that is none, the earlier edge of two.
fn put_detail(draft: &mut Draft, fault: PackFault) {
    match fault {
        PackFault::NodeOutside { node, .. } => {
            draft.put(": found ");
            draft.put_count(node as u64);
        }
        PackFault::ParallelEdge { earlier, .. } => {
            draft.put("; it stands on line ");
            draft.put_count(earlier);
        }
        _ => {}
    }
}

/// What is wrong with a list of edges between named nodes.
fn names_told(fault: NamesPackFault) -> Told {
    match fault {
        NamesPackFault::Lines(fault) => edges_told(fault),
        NamesPackFault::TooManyNames => (
            None,
            "TooManyNames",
            "a network has 4294967295 nodes at most, and there are more names",
        ),
        NamesPackFault::Edges(PackFault::NoNode) => (None, "NoNode", "no line says an edge"),
        NamesPackFault::Edges(fault) => pack_told(fault),
        NamesPackFault::Memory => (None, "Memory", ""),
    }
}

/// What is wrong with a Matrix Market file.
fn matrix_pack_told(fault: MatrixPackFault) -> Told {
    match fault {
        MatrixPackFault::Matrix(fault) => matrix_told(
            fault,
            "a network has 4294967295 nodes at most",
        ),
        MatrixPackFault::Edges(fault) => pack_told(fault),
        MatrixPackFault::Memory => (None, "Memory", ""),
    }
}

/// What is told of a text of this format and name, but for what stands beside.
fn begun(alloc: Global, format: &str, name: &str, told: Told) -> Result<Draft, AllocError> {
    let (line, kind, why) = told;
    if kind == "Memory" {
        return Err(AllocError);
    }
    let mut draft = Draft::new(alloc);
    draft.put(format);
    draft.put(" ");
    draft.put(kind);
    draft.put("\n");
    put_place(&mut draft, name, line);
    draft.put(": ");
    draft.put(why);
    Ok(draft)
}

/// What is told where a list of edges is not packed.
pub(crate) fn refusal(alloc: Global, name: &str, fault: PackFault) -> Result<String, AllocError> {
    let mut draft = begun(alloc, "edges", name, pack_told(fault))?;
    put_detail(&mut draft, fault);
    draft.end()
}

/// What is told where a list of edges between named nodes is not packed.
pub(crate) fn names_refusal(
    alloc: Global,
    name: &str,
    fault: NamesPackFault,
) -> Result<String, AllocError> {
    let mut draft = begun(alloc, "edges", name, names_told(fault))?;
    if let NamesPackFault::Edges(fault) = fault {
        put_detail(&mut draft, fault);
    }
    draft.end()
}

/// What is told where a Matrix Market file is not packed.
pub(crate) fn matrix_refusal(
    alloc: Global,
    name: &str,
    fault: MatrixPackFault,
) -> Result<String, AllocError> {
    let mut draft = begun(alloc, "matrix-market", name, matrix_pack_told(fault))?;
    match fault {
        MatrixPackFault::Matrix(fault) => put_matrix_detail(&mut draft, fault),
        MatrixPackFault::Edges(fault) => put_detail(&mut draft, fault),
        MatrixPackFault::Memory => {}
    }
    draft.end()
}
