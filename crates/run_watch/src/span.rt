//! Which rounds are watched.
ghost use Rattle.std.specs.Prelude.{◌≡◌, ◌<◌, ◌≤◌, ◌+◌, ◌⊎◌, MatchOption};
ghost use Rattle.run_watch.specs.Spans.{count_of, round_at};

use std::marker::Model;

/// Rounds from a first one on, every so many, up to a last one, counted from round 0.
#[derive(Drop)]
pub struct Span {
    first: u32,
    last: u32,
    every: u32,
}

impl Model for Span {
    ghost use Rattle.run_watch.specs.Spans.{SpanView, IsSpan};

    ghost Value = { SpanView };

    ghost view = { λ s. record { first = s.first; last = s.last; every = s.every } };

    ghost invariant = { λ s. IsSpan (record { first = s.first; last = s.last; every = s.every }) };
}

impl Span {
    /// The rounds from the first on, every so many, up to the last. None where the last lies before the first, or where
    /// they are to come every 0 rounds.
    pub fn new(first: u32, last: u32, every: u32) -> Option<Span>
        ensures span { MatchOption result ((last < first) ⊎ (every ≡ 0)) (λ span. span ≡ record { first = first; last = last; every = every }) }
    {
        if last < first || every == 0 {
            return None;
        }
        Some(Span { first, last, every })
    }

    /// The first round.
    pub fn first(&self) -> u32
        ensures first { result ≡ self.now.first }
    {
        self.first
    }

    /// The round that none is greater than; it is one of them where they meet it.
    pub fn last(&self) -> u32
        ensures last { result ≡ self.now.last }
        ensures order { self.now.first ≤ self.now.last }
    {
        self.last
    }

    /// How many rounds there are, less one.
    pub fn steps(&self) -> u32
        ensures steps { result + 1 ≡ count_of self.now }
        ensures few { result ≤ self.now.last }
    {
        (self.last - self.first) / self.every
    }

    /// The round at a place, counted from 0.
    pub fn round_at(&self, place: u32) -> u32
        requires place { place < count_of self.now }
        ensures round { result ≡ round_at self.now place }
        ensures first { self.now.first ≤ result }
        ensures last { result ≤ self.now.last }
    {
        self.first + place * self.every
    }
}
