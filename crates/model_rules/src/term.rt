//! What an expression of a model is once its constants and lets are put in.

use rule_lang::{Agg, Op};

/// An expression of the rule language in which parameters of a `let` may stand.
#[derive(Drop)]
pub enum Term {
    /// A number.
    Number(u32),
    /// A field of the node itself, by its name.
    Own(String),
    /// The number of the node itself.
    Id,
    /// How many neighbours the node has.
    Degree,
    /// The number of the round.
    Round,
    /// The parameter at this place, counted from 0.
    Parameter(usize),
    /// A field of the neighbour, by its name.
    Near(String),
    /// The number of the neighbour.
    NearId,
    /// The weight of the link to the neighbour.
    NearWeight,
    /// An operator between two parts.
    Infix(Op, Box<Term>, Box<Term>),
    /// `not`
    Not(Box<Term>),
    /// An aggregate of a part.
    Over(Agg, Box<Term>),
    /// `if`, `then`, `else`
    Choice(Box<Term>, Box<Term>, Box<Term>),
}
