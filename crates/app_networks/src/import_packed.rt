//! Long lists of edges between numbers, which threads read into packed networks.

use crate::import_refusals::refusal;
use crate::import_request::{Delimiter, Format, ImportRequest};
use crate::pack::text_bytes;
use crate::pack_refusals;
use app_files::{Ending, name_at};
use import_links::{NumberFault, SettleFault};
use import_network::{ImportFault, Imported, Making};
use large_net::large_bytes;
use large_pack::{
    LineFault, NodeFault, PackFault, PackOptions, Packed, Parallel, SelfLoops, pack_edges,
};
use std::alloc::{AllocError, Global};
use std::thread::Threads;

/// Whether all words of the lines of a text are meant, which blanks, tabs or commas part, and are numbers.
fn is_plain(asked: &ImportRequest) -> bool {
    matches!(asked.format, Format::Edges)
        && asked.numbers
        && asked.columns.is_none()
        && !matches!(asked.delimiter, Delimiter::Sign(_))
}

/// Whether a network file says the same as a packed network by these options, where it can.
fn has_file(options: &PackOptions) -> bool {
    !options.is_directed
        && options.self_loops != SelfLoops::Keep
        && options.parallel != Parallel::Keep
}

/// How a text is packed that threads read: a list of edges between numbers.
pub(crate) fn threaded_options(asked: &ImportRequest) -> Option<PackOptions> {
    match asked.making {
        Making::Packed(options) if is_plain(asked) && has_file(&options) => Some(options),
        _ => None,
    }
}

/// What is made of a network file, as the packed network of it.
pub(crate) fn packed_file(alloc: Global, imported: Imported) -> Result<Imported, Ending> {
    let mut imported = imported;
    imported.network = text_bytes(alloc, &imported.network)?;
    Ok(imported)
}

/// The same fault of the edges of a network file, where these have it.
fn file_fault(fault: PackFault) -> Option<ImportFault> {
    match fault {
        PackFault::SelfLoop { line } => Some(ImportFault::Settle(SettleFault::SelfLoop { line })),
        PackFault::ParallelEdge { line, earlier } => Some(ImportFault::Settle(
            SettleFault::ParallelEdge {
                line,
                first: earlier,
            },
        )),
        PackFault::BadLine {
            line,
            fault: LineFault::Node {
                fault: NodeFault::BadNode,
                ..
            },
        } => Some(ImportFault::Numbers(NumberFault::NoNumber { line })),
        PackFault::BadLine {
            line,
            fault: LineFault::Node {
                fault: NodeFault::NodeTooLarge,
                ..
            },
        } => Some(ImportFault::Numbers(NumberFault::NumberTooLarge { line })),
        _ => None,
    }
}

/// What is told where edges between numbers are not packed.
fn edges_refusal(
    alloc: Global,
    asked: &ImportRequest,
    fault: PackFault,
) -> Result<String, AllocError> {
    let name = name_at(asked.path.as_str());
    match file_fault(fault) {
        Some(fault) => refusal(alloc, asked.format, name, true, fault, ""),
        None => pack_refusals::refusal(alloc, name, fault),
    }
}

/// What is made of a packed network.
fn made_of(alloc: Global, packed: &Packed) -> Result<Imported, Ending> {
    let network = large_bytes(alloc, &packed.network)?;
    Ok(Imported {
        network,
        names: Vec::new(alloc),
        dropped: packed.dropped_loops,
        merged: packed.merged,
        rounded: 0,
    })
}

/// The packed network of a list of edges that is too large for a network file. Its lines were read for one before, so that
/// none has an empty place or headings.
pub(crate) fn packed_beyond(
    alloc: Global,
    threads: &(impl Threads + Sync),
    asked: &ImportRequest,
    text: &[u8],
    options: &PackOptions,
) -> Result<Imported, Ending> {
    match pack_edges(threads, alloc, text, options) {
        Ok(packed) => made_of(alloc, &packed),
        Err(fault) => Err(Ending::refused(edges_refusal(alloc, asked, fault))),
    }
}
