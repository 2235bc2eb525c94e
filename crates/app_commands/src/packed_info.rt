//! `large info`: what one wants to know of a network of any size.

use crate::packed::packed_in;
use app_files::{Ending, bytes_at, print_out};
use large_net::LargeNetwork;
use link_net::NetRows;
use std::alloc::{AllocError, Global};
use std::thread::Threads;

/// The least and the greatest of some numbers.
#[derive(Clone, Copy)]
struct Extremes {
    least: u32,
    greatest: u32,
}

impl Extremes {
    /// Those of no numbers.
    const NONE: Extremes = Extremes {
        least: u32::MAX,
        greatest: 0,
    };

    /// Those with a number more.
    fn with(self, number: u32) -> Extremes {
        Extremes {
            least: self.least.min(number),
            greatest: self.greatest.max(number),
        }
    }
}

/// The least and the greatest number of neighbours of a node.
fn degrees_of(rows: &NetRows<'_>) -> Extremes {
    let mut extremes = Extremes::NONE;
    for node in 0..rows.nodes() {
        extremes = extremes.with(rows.degree(node).unwrap_or(0));
    }
    extremes
}

/// The least and the greatest weight, these of a node's links counted in.
fn with_weights(extremes: Extremes, weights: &[u32]) -> Extremes {
    let mut extremes = extremes;
    for weight in weights {
        extremes = extremes.with(*weight);
    }
    extremes
}

/// The least and the greatest weight of a link.
fn weights_of(rows: &NetRows<'_>) -> Extremes {
    let mut extremes = Extremes::NONE;
    for node in 0..rows.nodes() {
        extremes = with_weights(extremes, rows.weights(node).unwrap_or(&[]));
    }
    extremes
}

/// Adds a line about some numbers, called so.
fn put_extremes(text: &mut String, name: &str, extremes: Extremes) -> Result<(), AllocError> {
    let Extremes { least, greatest } = extremes;
    write!(text, "{name} {least} to {greatest}\n")
}

/// Adds the lines about a network.
fn put_lines(text: &mut String, network: &LargeNetwork) -> Result<(), AllocError> {
    let rows = network.rows();
    let (nodes, ends) = (network.nodes(), network.ends());
    write!(text, "nodes {nodes}\nneighbours {ends}\n")?;
    put_extremes(text, "neighbours of a node", degrees_of(&rows))?;
    if ends > 0 {
        put_extremes(text, "weights", weights_of(&rows))?;
    }
    Ok(())
}

/// The lines about a network.
pub fn large_lines(alloc: Global, network: &LargeNetwork) -> Result<String, AllocError> {
    let mut text = String::new(alloc);
    put_lines(&mut text, network)?;
    Ok(text)
}

/// Prints what one wants to know of the network at a path. The status with which the program ends.
pub fn show_info(rt: &HostRuntime, threads: &impl Threads, path: &str) -> Result<u8, Ending> {
    let bytes = bytes_at(rt, path)?;
    let packed = packed_in(rt, threads, path, &bytes)?;
    let lines = large_lines(rt.alloc(), &packed.network)?;
    print_out(rt, lines.as_bytes())
}
