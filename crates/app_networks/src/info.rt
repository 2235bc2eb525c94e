//! `info NETWORK`: what one wants to know of a network before a run.

use crate::info_request::InfoRequest;
use app_commands::{asked_by, large_lines, packed_in};
use app_files::{Ending, bytes_at, file_of, is_packed, print_out};
use large_net::LargeNetwork;
use link_net::NetFile;
use net_facts::{facts_of, facts_text};
use net_text::{RowsFault, row_text};
use std::alloc::{AllocError, Global};
use std::thread::Threads;

/// The lines about a network.
fn lines_of(alloc: Global, file: &NetFile) -> Result<String, AllocError> {
    let facts = facts_of(alloc, file.network())?;
    facts_text(alloc, &facts)
}

/// The lines about a packed network: those about the network file that says the same, where one does, and else how many nodes
/// and neighbours there are, and how many of these a node has.
fn packed_lines(alloc: Global, network: &LargeNetwork) -> Result<String, Ending> {
    match row_text(alloc, &network.rows()) {
        Ok(text) => text_lines(alloc, &text),
        Err(RowsFault::Memory) => Err(Ending::Memory),
        Err(_) => Ok(large_lines(alloc, network)?),
    }
}

/// The lines about the network of a network file.
fn text_lines(alloc: Global, text: &[u8]) -> Result<String, Ending> {
    let file = file_of(alloc, text)?;
    Ok(lines_of(alloc, &file)?)
}

/// The lines about the network of these bytes.
fn bytes_lines(
    rt: &HostRuntime,
    threads: &impl Threads,
    path: &str,
    bytes: &[u8],
) -> Result<String, Ending> {
    if is_packed(bytes) {
        let packed = packed_in(rt, threads, path, bytes)?;
        return packed_lines(rt.alloc(), &packed.network);
    }
    text_lines(rt.alloc(), bytes)
}

/// Prints the lines about the network at a path. The status with which the program ends.
fn put_info(rt: &HostRuntime, threads: &impl Threads, path: &str) -> Result<u8, Ending> {
    let bytes = bytes_at(rt, path)?;
    let lines = bytes_lines(rt, threads, path, &bytes)?;
    print_out(rt, lines.as_bytes())
}

/// Prints what one wants to know of a network. The status with which the program ends.
pub fn show_info(rt: &HostRuntime, threads: &impl Threads, words: &[String]) -> Result<u8, Ending> {
    let asked = asked_by(InfoRequest::parse(rt.alloc(), words))?;
    put_info(rt, threads, asked.network.as_str())
}
