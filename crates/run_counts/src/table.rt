//! A round as it is counted.
ghost use Rattle.std.specs.Prelude.{◌≡◌, map, slice_index_or};
ghost use Rattle.run_counts.specs.Rows.{count_in};

use crate::asked::Figure;
use crate::values::count_in;
use std::marker::Model;

/// A round as it is counted. A contract sees its parts.
#[derive(Drop)]
pub struct Row {
    round: u32,
    counts: Vec<(u32, u64)>,
    figures: Vec<(Figure, u64)>,
}

impl Model for Row {
    ghost use Rattle.run_counts.specs.Rows.{RowView};

    ghost Value = { RowView };

    ghost view = { λ r. record { round = r.round; counts = r.counts.items; figures = r.figures.items } };
}

impl Row {
    /// A round with these numbers.
    pub(crate) fn new(round: u32, counts: Vec<(u32, u64)>, figures: Vec<(Figure, u64)>) -> Row
        ensures row { result ≡ record { round = round; counts = counts.items; figures = figures.items } }
    {
        Row {
            round,
            counts,
            figures,
        }
    }

    /// The round.
    pub fn round(&self) -> u32
        ensures round { result ≡ self.now.round }
    {
        self.round
    }

    /// Each value that occurs, by rising value, with how many nodes have it.
    pub fn counts(&self) -> &[(u32, u64)]
        ensures counts { result.now ≡ self.now.counts }
    {
        self.counts.as_slice()
    }

    /// How many nodes have a value.
    pub(crate) fn count(&self, value: u32) -> u64
        ensures count { result ≡ count_in self.now.counts value }
    {
        count_in(self.counts.as_slice(), value)
    }

    /// The further numbers, each beside what it is.
    pub(crate) fn figures(&self) -> &[(Figure, u64)]
        ensures figures { result.now ≡ self.now.figures }
    {
        self.figures.as_slice()
    }

    /// The further number at a place, and 0 past the last.
    pub(crate) fn figure(&self, place: usize) -> u64
        ensures figure { result ≡ slice_index_or (map (λ f. f.1) self.now.figures) place 0 }
    {
        match self.figures.get(place) {
            Some(figure) => figure.1,
            None => 0,
        }
    }
}
