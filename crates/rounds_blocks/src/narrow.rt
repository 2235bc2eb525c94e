//! Columns of words as bytes.
ghost use Rattle.std.specs.Prelude.{◌≡◌, ◌<◌, ◌⊎◌, IsTrue, map};
ghost use Rattle.rounds_code.specs.Block.{StandFor, byte_word};

use crate::batch::Batch;
use rounds_code::NearColumns;
use std::alloc::{AllocError, Global};

/// The fewest nodes of a network whose columns are read in bytes: the words of fewer stand in a cache that is near anyway.
const FEWEST_NODES: usize = 16_384;

/// Whether most batches read their neighbours far apart, and not in windows of a column.
fn are_scattered(batches: &[Batch]) -> bool {
    let apart = batches
        .iter()
        .filter(|batch| batch.windows.is_none())
        .count();
    apart * 2 > batches.len()
}

/// Columns of bytes for so many fields of so many nodes, where it pays to read words from these; else none.
pub fn blank_bytes(
    alloc: Global,
    fields: usize,
    nodes: usize,
    batches: &[Batch],
) -> Result<Vec<Vec<u8>>, AllocError> {
    let mut bytes = Vec::new(alloc);
    if nodes < FEWEST_NODES || !are_scattered(batches) {
        return Ok(bytes);
    }
    for _ in 0..fields {
        bytes.push(vec![in alloc; 0; nodes]?)?;
    }
    Ok(bytes)
}

/// The byte that stands for a word, where one does.
#[inline(always)]
fn byte_of(word: u32) -> u8
    ensures greatest { word ≡ 4294967295 → byte_word result ≡ word }
    ensures small { word < 255 → byte_word result ≡ word }
{
    if word == u32::MAX {
        return u8::MAX;
    }
    (word % 256) as u8
}

/// The word, and 0 for the greatest one: a byte stands for the word where this is below 255.
#[inline(always)]
fn size_of_word(word: u32) -> u32
    ensures small { result < 255 → (word ≡ 4294967295) ⊎ (word < 255) }
{
    if word == u32::MAX {
        return 0;
    }
    word
}

/// Writes a column of words as bytes that stand for them. False where they are not as many, or none stands for one; then the bytes say
/// nothing.
fn narrow(words: &[u32], bytes: &mut [u8]) -> bool
    ensures same { IsTrue result → map byte_word bytes.new ≡ words.now }
{
    if bytes.len() != words.len() {
        return false;
    }
    let mut most = 0;
    for (k, word) in words.iter().enumerate() {
        most = most.max(size_of_word(*word));
        bytes[k] = byte_of(*word);
    }
    most < 255
}

/// Writes columns of words as bytes that stand for them. False where they are not as many, or no byte stands for a word; then the bytes say
/// nothing.
fn narrow_all(words: &[Vec<u32>], bytes: &mut [Vec<u8>]) -> bool
    ensures same { IsTrue result → StandFor bytes.new words.now }
{
    if bytes.len() != words.len() {
        return false;
    }
    for (k, column) in words.iter().enumerate() {
        if !narrow(column, &mut bytes[k]) {
            return false;
        }
    }
    true
}

/// Whether at least half of the batches have to be computed, so that many words are read.
fn are_many(due: &[bool]) -> bool {
    let count = due.iter().filter(|is_due| **is_due).count();
    count * 2 >= due.len()
}

/// Writes columns of words as bytes, where many words are read in a round of these batches and there is room. Where no byte stands for a
/// word, there is no room in later rounds. Whether the bytes stand for the columns.
pub fn narrow_where(words: &[Vec<u32>], bytes: &mut Vec<Vec<u8>>, due: &[bool]) -> bool
    ensures same { IsTrue result → StandFor bytes.new.items words.now }
{
    if bytes.is_empty() || !are_many(due) {
        return false;
    }
    let are_narrow = narrow_all(words, bytes);
    if !are_narrow {
        bytes.clear();
    }
    are_narrow
}

/// The columns of words, with bytes where these stand for them.
pub fn columns_by<'a>(
    are_narrow: bool,
    words: &'a [Vec<u32>],
    bytes: &'a [Vec<u8>],
) -> NearColumns<'a>
    requires same { IsTrue are_narrow → StandFor bytes.now words.now }
    ensures exact { result ≡ words.now }
{
    if are_narrow {
        return NearColumns::with_bytes(words, bytes);
    }
    NearColumns::of_words(words)
}
