//! The columns of a configuration as neighbours' words are read.

ghost use Rattle.std.specs.Prelude.{◌≡◌, ◌<◌, ◌≤◌, ◌+◌, ℕ, length, slice_index};
ghost use Rattle.rounds_code.specs.Steps.{lane};
ghost use Rattle.rounds_code.specs.Block.{column_words, Covers, StandFor};

use crate::lanes::Row;
use crate::places::Places;
use crate::rows::{load_bytes, load_row, load_words};
use std::marker::Model;

/// Columns of words, one for each field, with the words of all nodes, and where all words fit the same columns in bytes, in which 255 stands
/// for the greatest word: what stands far apart is read from these, which take a fourth of the cache. A contract sees the columns of words.
#[derive(Drop)]
pub struct NearColumns<'a> {
    words: &'a [Vec<u32>],
    /// The same columns in bytes; none where a word may not fit.
    bytes: &'a [Vec<u8>],
}

impl<'a> Model for NearColumns<'a> {
    ghost use Rattle.std.specs.Prelude.{List, ℕ};
    ghost use Rattle.std.specs.Global.{Vec};
    ghost use Rattle.rounds_code.specs.Block.{AreInBytes};

    ghost Value = { List (Vec ℕ) };

    ghost view = { λ columns. columns.words.now };

    ghost invariant = { λ columns. AreInBytes columns.words.now columns.bytes.now };
}

impl<'a> NearColumns<'a> {
    /// These columns.
    pub fn of_words(words: &'a [Vec<u32>]) -> NearColumns<'a>
        ensures exact { result ≡ words.now }
    {
        NearColumns { words, bytes: &[] }
    }

    /// These columns, for whose words these bytes stand.
    pub fn with_bytes(words: &'a [Vec<u32>], bytes: &'a [Vec<u8>]) -> NearColumns<'a>
        requires same { StandFor bytes.now words.now }
        ensures exact { result ≡ words.now }
    {
        NearColumns { words, bytes }
    }

    /// The columns of words.
    pub fn words(&self) -> &'a [Vec<u32>]
        ensures exact { result.now ≡ self.now }
    {
        self.words
    }

    /// How many there are.
    pub(crate) fn count(&self) -> usize
        ensures exact { result ≡ length self.now }
    {
        self.words.len()
    }

    /// The lanes of a row from the first one on get a column's words at these places. Long runs of words are copied as they stand.
    pub(crate) fn load(&self, field: usize, row: &mut Row, first: usize, places: &Places)
        requires there { field < length self.now }
        requires few { first + length places.now ≤ 256 }
        requires within { Covers self.now places.now }
        ensures words { (i : ℕ) → i < length places.now → slice_index row.new (first + i) ≡ lane (column_words self.now) (slice_index places.now i) field }
        ensures before { (i : ℕ) → i < first → slice_index row.new i ≡ slice_index row.old i }
    {
        if field < self.bytes.len() && !places.are_in_runs() {
            load_bytes(row, first, &self.bytes[field], places.as_slice());
        } else {
            load_row(row, first, &self.words[field], places);
        }
    }

    /// The first lanes of a row get a column's words at these places.
    pub(crate) fn load_each(&self, field: usize, row: &mut Row, places: &[u32])
        requires there { field < length self.now }
        requires few { length places.now ≤ 256 }
        requires within { Covers self.now places.now }
        ensures words { (i : ℕ) → i < length places.now → slice_index row.new i ≡ lane (column_words self.now) (slice_index places.now i) field }
    {
        if field < self.bytes.len() {
            load_bytes(row, 0, &self.bytes[field], places);
        } else {
            load_words(row, &self.words[field], places);
        }
    }
}
