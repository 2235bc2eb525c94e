//! Edges between named ends.
ghost use Rattle.std.specs.Prelude.{◌≡◌};

use crate::Weight;
use std::marker::Model;

/// An edge of a text: the names of its two ends, its weight, and the line where it stands, counted from 1.
#[derive(Drop)]
pub struct Edge<'a> {
    first: &'a str,
    second: &'a str,
    weight: Weight,
    line: u64,
}

impl<'a> Model for Edge<'a> {
    ghost use Rattle.import_lines.specs.Named.{NamedEdge};

    ghost Value = { NamedEdge };

    ghost view = { λ a. record { first = a.first.now; second = a.second.now; weight = a.weight.value; exact = a.weight.exact; line = a.line } };
}

impl<'a> Edge<'a> {
    /// The edge between two ends with these names, of this weight, that stands in this line.
    pub fn new(first: &'a str, second: &'a str, weight: Weight, line: u64) -> Edge<'a>
        ensures edge { result ≡ record { first = first.now; second = second.now; weight = weight.value; exact = weight.exact; line = line } }
    {
        Edge {
            first,
            second,
            weight,
            line,
        }
    }

    /// The name of the first end.
    pub fn first(&self) -> &'a str
        ensures name { result.now ≡ self.now.first }
    {
        self.first
    }

    /// The name of the second end.
    pub fn second(&self) -> &'a str
        ensures name { result.now ≡ self.now.second }
    {
        self.second
    }

    /// The weight.
    pub fn weight(&self) -> u32
        ensures weight { result ≡ self.now.weight }
    {
        self.weight.value
    }

    /// Whether the weight is the one that stands there, and not the nearest whole number to it.
    pub fn is_exact(&self) -> bool
        ensures exact { result ≡ self.now.exact }
    {
        self.weight.exact
    }

    /// The line where the edge stands, counted from 1.
    pub fn line(&self) -> u64
        ensures line { result ≡ self.now.line }
    {
        self.line
    }
}
