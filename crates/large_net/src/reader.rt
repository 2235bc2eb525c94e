//! Network files that are read.
ghost use Rattle.std.specs.Prelude.{◌≡◌, ◌≤◌, length, map, IfOk, IfErr, Ok, Err};
ghost use Rattle.std.specs.Option.{option_map};
ghost use Rattle.std.specs.Int.{from_le_bytes, w32};
ghost use Rattle.link_net.specs.Limits.{most_rows};
ghost use Rattle.large_net.specs.File.{IsAnswer, asked_length, header_of, large_of, tail_of, weights_in};

use crate::checks::check_rows;
use crate::fault::LargeFault;
use crate::header::{FileHeader, HEADER, file_length, read_header};
use crate::network::LargeNetwork;
use crate::numbers::{eights, fours, read_longs, read_words};
use std::alloc::{AllocError, Global};
use std::thread::{Threads, join};

/// From how many neighbours on these and their weights are read side by side: with fewer a second thread gains nothing.
const LEAST_ENDS: usize = 1_048_576;

/// The weights of a file, each 1 where none follow.
fn read_weights(alloc: Global, bytes: &[u8], header: FileHeader) -> Result<Vec<u32>, AllocError>
    requires few { header.nodes ≤ most_rows }
    requires whole { asked_length header ≤ length bytes.now }
    ensures weights { IfOk result (λ v. v.items ≡ weights_in header bytes.now) }
    ensures count { IfOk result (λ v. length v.items ≡ header.ends) }
{
    let ends = header.ends as usize;
    if !header.weighted {
        return vec![in alloc; 1; ends];
    }
    let start = header.neighbours_start() + 4 * ends;
    read_words(alloc, fours(bytes, start, ends))
}

/// The neighbours and the weights of a file, one after the other.
fn read_in_turn(
    alloc: Global,
    bytes: &[u8],
    header: FileHeader,
    neighbours: &[[u8; 4]],
) -> Result<(Vec<u32>, Vec<u32>), AllocError>
    requires few { header.nodes ≤ most_rows }
    requires whole { asked_length header ≤ length bytes.now }
    ensures neighbours { IfOk result (λ v. v.0.items ≡ map (from_le_bytes w32) neighbours.now) }
    ensures weights { IfOk result (λ v. v.1.items ≡ weights_in header bytes.now) }
    ensures count { IfOk result (λ v. length v.1.items ≡ header.ends) }
{
    let words = read_words(alloc, neighbours)?;
    let weights = read_weights(alloc, bytes, header)?;
    Ok((words, weights))
}

/// The neighbours and the weights of a file, side by side where there are many.
fn read_ends<R: Threads>(
    rt: &R,
    alloc: Global,
    bytes: &[u8],
    header: FileHeader,
    neighbours: &[[u8; 4]],
) -> Result<(Vec<u32>, Vec<u32>), AllocError>
    requires few { header.nodes ≤ most_rows }
    requires whole { asked_length header ≤ length bytes.now }
    ensures neighbours { IfOk result (λ v. v.0.items ≡ map (from_le_bytes w32) neighbours.now) }
    ensures weights { IfOk result (λ v. v.1.items ≡ weights_in header bytes.now) }
    ensures count { IfOk result (λ v. length v.1.items ≡ header.ends) }
{
    if neighbours.len() < LEAST_ENDS {
        return read_in_turn(alloc, bytes, header, neighbours);
    }
    let first = move || -> Result<Vec<u32>, AllocError>
        ensures { IfOk result (λ v. v.items ≡ map (from_le_bytes w32) neighbours.entry.now) }
    { read_words(alloc, neighbours) };
    let second = move || -> Result<Vec<u32>, AllocError>
        requires { (header.nodes ≤ most_rows) × (asked_length header ≤ length bytes.now) }
        ensures { IfOk result (λ v. (v.items ≡ weights_in header bytes.entry.now) × (length v.items ≡ header.ends)) }
    { read_weights(alloc, bytes, header) };
    let (words, weights) = join(rt, first, second);
    let words = words?;
    let weights = weights?;
    Ok((words, weights))
}

/// The network of a file with this header, or what is wrong with its rows.
fn read_rows<R: Threads>(
    rt: &R,
    alloc: Global,
    bytes: &[u8],
    header: FileHeader,
) -> Result<LargeNetwork, LargeFault>
    requires some { 1 ≤ header.nodes }
    requires few { header.nodes ≤ most_rows }
    requires whole { asked_length header ≤ length bytes.now }
    requires header { header_of bytes.now ≡ Ok header }
    ensures answer { IsAnswer (large_of bytes.now) result }
    ensures refused { IfErr (large_of bytes.now) (λ fault. result ≡ Err fault) }
{
    let offsets = eights(bytes, HEADER, header.offsets());
    let neighbours = fours(bytes, header.neighbours_start(), header.ends as usize);
    check_rows(offsets, neighbours)?;
    let offsets = read_longs(alloc, offsets)?;
    let (neighbours, weights) = read_ends(rt, alloc, bytes, header, neighbours)?;
    Ok(LargeNetwork::new(offsets, neighbours, weights))
}

/// Reads a network file: the network that stands in it, or the first fault in the order of [`LargeFault`], which is found
/// before memory is taken. `Memory` comes only where memory runs out. Besides the network no memory is taken.
pub fn read_large<R: Threads>(
    rt: &R,
    alloc: Global,
    bytes: &[u8],
) -> Result<LargeNetwork, LargeFault>
    ensures answer { IsAnswer (large_of bytes.now) result }
    ensures refused { IfErr (large_of bytes.now) (λ fault. result ≡ Err fault) }
{
    let header = read_header(bytes)?;
    read_rows(rt, alloc, bytes, header)
}

/// What stands after the rows of a file, where its flags say that something does; or the fault of its header.
pub fn file_tail(bytes: &[u8]) -> Result<Option<&[u8]>, LargeFault>
    ensures tail { IfOk result (λ tail. tail_of bytes.now ≡ Ok (option_map (λ s. s.now) tail)) }
    ensures refused { IfErr result (λ fault. tail_of bytes.now ≡ Err fault) }
{
    let header = read_header(bytes)?;
    if !header.tailed {
        return Ok(None);
    }
    let asked = file_length(header.nodes, header.ends, header.weighted);
    Ok(Some(&bytes[asked as usize..]))
}

/// The network of a file with this header, read in one thread, or what is wrong with its rows.
fn read_rows_in_turn(
    alloc: Global,
    bytes: &[u8],
    header: FileHeader,
) -> Result<LargeNetwork, LargeFault>
    requires some { 1 ≤ header.nodes }
    requires few { header.nodes ≤ most_rows }
    requires whole { asked_length header ≤ length bytes.now }
    requires header { header_of bytes.now ≡ Ok header }
    ensures answer { IsAnswer (large_of bytes.now) result }
    ensures refused { IfErr (large_of bytes.now) (λ fault. result ≡ Err fault) }
{
    let starts = eights(bytes, HEADER, header.offsets());
    let neighbours = fours(bytes, header.neighbours_start(), header.ends as usize);
    check_rows(starts, neighbours)?;
    let offsets = read_longs(alloc, starts)?;
    let (neighbours, weights) = read_in_turn(alloc, bytes, header, neighbours)?;
    Ok(LargeNetwork::new(offsets, neighbours, weights))
}

/// What `read_large` reads, in one thread: for callers that start none.
pub fn read_sequentially(alloc: Global, bytes: &[u8]) -> Result<LargeNetwork, LargeFault>
    ensures answer { IsAnswer (large_of bytes.now) result }
    ensures refused { IfErr (large_of bytes.now) (λ fault. result ≡ Err fault) }
{
    let header = read_header(bytes)?;
    read_rows_in_turn(alloc, bytes, header)
}
