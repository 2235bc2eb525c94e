//! `pack`: a network of any size as a binary file.

use crate::pack_refusals::{matrix_refusal, names_refusal, refusal};
use crate::pack_request::PackRequest;
use app_commands::check_output;
use app_files::{Ending, bytes_at, file_at, file_of, name_at, print_out, put_note, write_file};
use app_table::Draft;
use import_network::{MatrixOptions, NamedNetwork, pack_matrix, pack_names};
use large_net::{LargeNetwork, large_bytes};
use large_pack::{PackOptions, Packed, pack_edges};
use link_net::NetFile;
use net_names::list_text;
use net_random::{
    BlockChances, RandomFault, RandomNetwork, WeightDraw, large_block, large_chance, large_random,
};
use net_shapes::{LargeShapeFault, Shape, large_shape};
use std::alloc::{AllocError, Global};
use std::thread::Threads;

/// How many edges were dropped or merged; nothing where none were.
fn notes_text(alloc: Global, packed: &Packed) -> Result<String, AllocError> {
    let mut draft = Draft::new(alloc);
    put_note(
        &mut draft,
        "dropped",
        packed.dropped_loops,
        "edge",
        " of a node with itself",
    );
    put_note(&mut draft, "merged", packed.merged, "edge", " into others");
    draft.end()
}

/// A binary file, and what is told beside it.
#[derive(Drop)]
struct Output {
    bytes: Vec<u8>,
    notes: String,
}

/// A binary file beside which nothing is told.
fn plain_output(alloc: Global, bytes: Vec<u8>) -> Output {
    Output {
        bytes,
        notes: String::new(alloc),
    }
}

/// The binary file of a network that is packed, with its notes.
fn packed_output(alloc: Global, packed: &Packed) -> Result<Output, Ending> {
    let notes = notes_text(alloc, packed)?;
    let bytes = large_bytes(alloc, &packed.network)?;
    Ok(Output { bytes, notes })
}

/// The binary file of the list of edges at a path.
fn edges_at(
    rt: &HostRuntime,
    threads: &(impl Threads + Sync),
    path: &str,
    options: &PackOptions,
) -> Result<Output, Ending> {
    let text = bytes_at(rt, path)?;
    match pack_edges(threads, rt.alloc(), &text, options) {
        Ok(packed) => packed_output(rt.alloc(), &packed),
        Err(fault) => Err(Ending::refused(refusal(rt.alloc(), name_at(path), fault))),
    }
}

/// The binary file of the Matrix Market file at a path.
fn matrix_at(rt: &HostRuntime, path: &str, options: &MatrixOptions) -> Result<Output, Ending> {
    let text = bytes_at(rt, path)?;
    match pack_matrix(rt.alloc(), &text, options) {
        Ok(packed) => packed_output(rt.alloc(), &packed),
        Err(fault) => Err(Ending::refused(matrix_refusal(rt.alloc(), name_at(path), fault))),
    }
}

/// Writes a file of the names of a network's nodes.
fn write_names(rt: &HostRuntime, named: &NamedNetwork, names_path: &str) -> Result<(), Ending> {
    let names = list_text(rt.alloc(), &named.names)?;
    write_file(rt, names_path, names.as_slice())
}

/// The binary file of a network of named nodes, whose names are written into their file once it is made.
fn named_output(
    rt: &HostRuntime,
    named: &NamedNetwork,
    names_path: &str,
) -> Result<Output, Ending> {
    let output = packed_output(rt.alloc(), &named.packed)?;
    write_names(rt, named, names_path)?;
    Ok(output)
}

/// The binary file of the list of edges between named nodes at a path; their names are written at another one.
fn names_at(
    rt: &HostRuntime,
    path: &str,
    options: &PackOptions,
    names_path: &str,
) -> Result<Output, Ending> {
    let text = bytes_at(rt, path)?;
    match pack_names(rt.alloc(), &text, options) {
        Ok(named) => named_output(rt, &named, names_path),
        Err(fault) => Err(Ending::refused(names_refusal(rt.alloc(), name_at(path), fault))),
    }
}

/// The binary file of a network file's network.
fn file_bytes(alloc: Global, file: &NetFile) -> Result<Vec<u8>, Ending> {
    let network = LargeNetwork::of_network(alloc, file.network())?;
    Ok(large_bytes(alloc, &network)?)
}

/// The binary file of the network of a network file with this text.
pub(crate) fn text_bytes(alloc: Global, text: &[u8]) -> Result<Vec<u8>, Ending> {
    let file = file_of(alloc, text)?;
    file_bytes(alloc, &file)
}

/// The binary file of the network file at a path.
fn copied_at(rt: &HostRuntime, path: &str) -> Result<Output, Ending> {
    let file = file_at(rt, path)?;
    let bytes = file_bytes(rt.alloc(), &file)?;
    Ok(plain_output(rt.alloc(), bytes))
}

/// How many nodes a shape has at least.
fn least_text(shape: &Shape) -> &'static str {
    match shape {
        Shape::Star { .. } | Shape::Complete { .. } => "there is a node at least",
        Shape::Bipartite { .. } => "each side has a node at least",
        Shape::Tree { .. } => "a tree has a node at least, and an arity of 1 or more",
        _ => "a shape has a node at least, a ring three, and a torus three in each row and column",
    }
}

/// The ending where a shape has no network.
fn no_shape(alloc: Global, shape: &Shape, fault: LargeShapeFault) -> Ending {
    let text = match fault {
        LargeShapeFault::TooFewNodes => least_text(shape),
        LargeShapeFault::TooManyNodes => "a network has 4294967295 nodes at most",
        LargeShapeFault::Memory => return Ending::Memory,
    };
    Ending::usage(String::from_str(alloc, text))
}

/// The binary file of a shape.
pub(crate) fn shape_bytes(alloc: Global, shape: &Shape) -> Result<Vec<u8>, Ending> {
    match large_shape(alloc, shape) {
        Ok(network) => Ok(large_bytes(alloc, &network)?),
        Err(fault) => Err(no_shape(alloc, shape, fault)),
    }
}

/// The ending where no random network comes out of nodes and links that are not too many.
pub(crate) fn undrawn(alloc: Global, fault: RandomFault) -> Ending {
    let text = match fault {
        RandomFault::TooManyNeighbours =>
            "a node came out with more than 4096 neighbours: take another seed, or fewer links",
        RandomFault::OddEnds =>
            "--degree: an odd number of nodes cannot have an odd number of neighbours each: take one node or neighbour more",
        RandomFault::Undrawn => "by this seed no such network came out: take another one",
        _ => return Ending::Memory,
    };
    Ending::usage(String::from_str(alloc, text))
}

/// The ending where no random network is drawn.
fn no_random(alloc: Global, fault: RandomFault) -> Ending {
    let text = match fault {
        RandomFault::NodeCount => "there are 1 to 4294967295 nodes",
        RandomFault::TooManyLinks => {
            "a network has 2147483647 links at most, and no more than there are pairs of nodes: take more nodes, or fewer links"
        }
        fault => return undrawn(alloc, fault),
    };
    Ending::usage(String::from_str(alloc, text))
}

/// The binary file of a network that was drawn, or the ending where there is none.
fn drawn_bytes(alloc: Global, drawn: Result<LargeNetwork, RandomFault>) -> Result<Vec<u8>, Ending> {
    match drawn {
        Ok(network) => Ok(large_bytes(alloc, &network)?),
        Err(fault) => Err(no_random(alloc, fault)),
    }
}

/// The binary file of the random network that a seed draws.
pub(crate) fn random_bytes(
    alloc: Global,
    wanted: &RandomNetwork,
    weights: Option<WeightDraw>,
    seed: u32,
) -> Result<Vec<u8>, Ending> {
    drawn_bytes(alloc, large_random(alloc, wanted, weights, seed as u64))
}

/// The binary file of the pairs of nodes that a seed links, each with the same chance.
pub(crate) fn chance_bytes(
    alloc: Global,
    nodes: u32,
    billionths: u32,
    weights: Option<WeightDraw>,
    seed: u32,
) -> Result<Vec<u8>, Ending> {
    drawn_bytes(
        alloc,
        large_chance(alloc, nodes, billionths, weights, seed as u64),
    )
}

/// The binary file of links that are drawn between the nodes of blocks.
pub(crate) fn block_bytes(
    alloc: Global,
    sizes: &[u32],
    chances: BlockChances,
    weights: Option<WeightDraw>,
    seed: u32,
) -> Result<Vec<u8>, Ending> {
    drawn_bytes(
        alloc,
        large_block(alloc, sizes, chances, weights, seed as u64),
    )
}

/// The binary file of a shape, beside which nothing is told.
fn shape_output(alloc: Global, shape: &Shape) -> Result<Output, Ending> {
    let bytes = shape_bytes(alloc, shape)?;
    Ok(plain_output(alloc, bytes))
}

/// The binary file of the random network that a seed draws, beside which nothing is told.
fn random_output(alloc: Global, wanted: &RandomNetwork, seed: u32) -> Result<Output, Ending> {
    let bytes = random_bytes(alloc, wanted, None, seed)?;
    Ok(plain_output(alloc, bytes))
}

/// The binary file that is asked for.
fn output_for(
    rt: &HostRuntime,
    threads: &(impl Threads + Sync),
    asked: &PackRequest,
) -> Result<Output, Ending> {
    match asked {
        PackRequest::Edges {
            path,
            options,
            names: None,
        } => edges_at(rt, threads, path.as_str(), options),
        PackRequest::Edges {
            path,
            options,
            names: Some(names),
        } => names_at(rt, path.as_str(), options, names.as_str()),
        PackRequest::Matrix { path, options } => matrix_at(rt, path.as_str(), options),
        PackRequest::Network { path } => copied_at(rt, path.as_str()),
        PackRequest::Shape(shape) => shape_output(rt.alloc(), shape),
        PackRequest::Random { wanted, seed } => random_output(rt.alloc(), wanted, *seed),
    }
}

/// Prints a binary file, and tells what was dropped or merged. The status with which the program ends.
fn put_output(rt: &HostRuntime, output: &Output) -> Result<u8, Ending> {
    let status = print_out(rt, &output.bytes)?;
    if !output.notes.is_empty() {
        let _ = eprintln!(rt; "{}", output.notes.as_str());
    }
    Ok(status)
}

/// Prints the binary file of a network, once the names of its nodes are written where that is asked. The status with which the program ends.
pub fn pack_network(
    rt: &HostRuntime,
    threads: &(impl Threads + Sync),
    words: &[String],
) -> Result<u8, Ending> {
    let asked = PackRequest::parse(rt.alloc(), words)?;
    check_output(rt)?;
    let output = output_for(rt, threads, &asked)?;
    put_output(rt, &output)
}
