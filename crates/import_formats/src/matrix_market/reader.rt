//! Networks that are read.
ghost use Rattle.std.specs.Prelude.{◌≡◌, ◌+◌, ◌<◌, ◌≤◌, ◌^◌, length, IfOk, IfErr, Ok, Err};
ghost use Rattle.import_formats.specs.matrix_market.Steps.{and_then};
ghost use Rattle.import_formats.specs.matrix_market.Matrices.{IsAnswer, entries_of, links_left};
ghost use Rattle.import_formats.specs.matrix_market.View.{matrix_view};

use crate::matrix_market::entries::Entries;
use crate::matrix_market::fault::MatrixFault;
use crate::matrix_market::matrix::{EntryReading, Matrix};
use crate::matrix_market::opening::find_entries;
use import_links::PlacedLink;
use std::alloc::Global;

/// The links of the entries that are left.
fn collect(alloc: Global, from: Entries<'_>) -> Result<Vec<PlacedLink>, MatrixFault>
    requires room { from.lines.passed + length from.lines.bytes.now < 2 ^ 64 }
    requires most { from.found ≤ from.said }
    ensures { IfOk result (λ v. links_left from.entry ≡ Ok v.items) }
{
    let mut entries = from;
    let mut links = Vec::new(alloc);
    while let Some(link) = entries.next_link()? {
        links.push(link)?;
    }
    Ok(links)
}

/// What is wrong with the entries that are left, where something is.
fn check_entries(from: Entries<'_>) -> Result<(), MatrixFault>
    requires room { from.lines.passed + length from.lines.bytes.now < 2 ^ 64 }
    requires most { from.found ≤ from.said }
    ensures { result ≡ and_then (links_left from.entry) (λ _. Ok tt) }
{
    let mut entries = from;
    while entries.next_link()?.is_some() {}
    Ok(())
}

/// The network of a Matrix Market file of the coordinate format, as [`find_entries`] reads it.
///
/// Links are taken as they stand there, also between a node and itself, and several between the same two nodes.
///
/// `BadLine` names the first bad line and what is wrong with it, `TooManyEntries` the first line after as many good
/// entries as were said, `NoSize` and `TooFewEntries` come where no line is bad; all of these also where memory runs
/// out. `Memory` comes only where memory runs out.
pub fn read_matrix(
    alloc: Global,
    text: &[u8],
    reading: &EntryReading,
) -> Result<Matrix, MatrixFault>
    ensures answer { IsAnswer matrix_view (entries_of reading.now text.now) result }
    ensures refused { IfErr (entries_of reading.now text.now) (λ fault. result ≡ Err fault) }
{
    let entries = find_entries(text, reading)?;
    match collect(alloc, entries) {
        Ok(links) => Ok(Matrix {
            nodes: entries.form.nodes,
            is_directed: entries.form.is_directed,
            links,
        }),
        Err(_) => {
            check_entries(entries)?;
            Err(MatrixFault::Memory)
        }
    }
}
