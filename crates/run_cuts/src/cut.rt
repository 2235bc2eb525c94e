//! What is told of an operator.

/// An operator whose value can be cut.
#[derive(Clone, Copy, PartialEq, Eq)]
pub enum Kind {
    /// `(a + b)`, cut at 4294967295.
    Sum,
    /// `(a - b)`, cut at 0.
    Difference,
    /// `(a * b)`, cut at 4294967295.
    Product,
    /// `total a`, cut at 4294967295.
    Total,
}

/// An operator that was cut: where first, and how often.
#[derive(Clone, Copy)]
pub struct Cut {
    /// Its number among the `+`, `-`, `*` and `total` of the program's text, counted from 0.
    pub operator: usize,
    /// Which operator it is.
    pub kind: Kind,
    /// The first round in which it was cut, counted from round 0: round 1 leads from the states after round 0 to those
    /// after round 1.
    pub round: u32,
    /// The first node at which it was cut in that round.
    pub node: u32,
    /// At how many nodes it was cut, in all rounds together.
    pub times: u64,
}
