//! Matrices packed into networks.
ghost use Rattle.std.specs.Prelude.{◌≡◌, ◌+◌, ◌<◌, ◌≤◌, ◌^◌, List, length, IfOk, IfErr, Ok, Err, MatchResult};
ghost use Rattle.import_links.specs.declared.placed.PlacedLink.{PlacedLink};
ghost use Rattle.import_formats.specs.matrix_market.Matrices.{links_left, matrix_links};
ghost use Rattle.large_pack.specs.Packing.{IsAnswerOr};
ghost use Rattle.import_network.specs.declared.packed_matrix.fault.MatrixPackFault.TheVariants.{Memory};
ghost use Rattle.import_network.specs.Entries.{sound_of, packing_of};

use crate::packed_matrix::edges::{first_loop, ranked_entries};
use crate::packed_matrix::fault::MatrixPackFault;
use crate::packed_matrix::options::MatrixOptions;
use import_formats::matrix_market::{Entries, find_entries};
use large_pack::{Packed, pack_ranked};
use std::alloc::Global;

/// The entries of a text none of which is bad, or a self-loop that is refused.
fn sound_entries<'a>(
    text: &'a [u8],
    options: &MatrixOptions,
) -> Result<Entries<'a>, MatrixPackFault>
    ensures room { IfOk result (λ from. from.lines.passed + length from.lines.bytes.now < 2 ^ 64) }
    ensures most { IfOk result (λ from. from.found ≤ from.said) }
    ensures some { IfOk result (λ from. 1 ≤ from.form.nodes) }
    ensures sound { MatchResult result (λ from. (links : List PlacedLink) × (links_left from ≡ Ok links) × (sound_of options.now text.now ≡ Ok (matrix_links from.form links))) (λ fault. sound_of options.now text.now ≡ Err fault) }
{
    let entries = find_entries(text, &options.reading())?;
    match first_loop(entries, options.self_loops)? {
        Some(fault) => Err(MatrixPackFault::from(fault)),
        None => Ok(entries),
    }
}

/// The network that a Matrix Market file of the coordinate format says, of up to 4,294,967,295 nodes.
///
/// The text is read as `find_entries` says. An entry in row a and column b makes node b - 1 a neighbour of node a - 1,
/// and where the matrix is symmetric, or the direction of its edges is left aside, node a - 1 a one of node b - 1. What
/// is done with entries of the diagonal, which are self-loops, and with those that join the same two nodes, is as the
/// options say.
///
/// Where several things are wrong the fault is the first in the order of [`MatrixPackFault`]. `Matrix` and the `SelfLoop`
/// of `Edges` come whether memory runs out or not; `Memory` comes only where it does.
pub fn pack_matrix(
    alloc: Global,
    text: &[u8],
    options: &MatrixOptions,
) -> Result<Packed, MatrixPackFault>
    ensures answer { IsAnswerOr Memory (packing_of options.now text.now) result }
    ensures refused { IfErr (sound_of options.now text.now) (λ fault. result ≡ Err fault) }
{
    let entries = sound_entries(text, options)?;
    let form = entries.form;
    let packing = options.packing(form.nodes, form.is_directed);
    let edges = ranked_entries(alloc, entries, &packing)?;
    let packed = pack_ranked(alloc, form.nodes, edges, &packing)?;
    Ok(packed)
}
