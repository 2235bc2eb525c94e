//! The tree of a program.

/// An operator between two parts, in brackets.
#[derive(Clone, Copy, PartialEq, Eq)]
pub enum Op {
    /// `(a + b)`
    Plus,
    /// `(a - b)`
    Minus,
    /// `(a * b)`
    Times,
    /// `(a / b)`
    Quot,
    /// `(a % b)`
    Rem,
    /// `(a & b)`
    BitAnd,
    /// `(a | b)`
    BitOr,
    /// `(a ^ b)`
    BitXor,
    /// `(a == b)`
    Equal,
    /// `(a != b)`
    Differ,
    /// `(a < b)`
    Less,
    /// `(a <= b)`
    LessEq,
    /// `(a > b)`
    Greater,
    /// `(a >= b)`
    GreaterEq,
    /// `(a min b)`
    Min,
    /// `(a max b)`
    Max,
}

/// What is made of the values of an expression over all neighbours.
#[derive(Clone, Copy, PartialEq, Eq)]
pub enum Agg {
    /// `total a`
    Total,
    /// `least a`
    Least,
    /// `most a`
    Most,
    /// `count a`
    Count,
    /// `any a`
    Some1,
    /// `all a`
    Every,
}

/// An expression.
#[derive(Drop)]
pub enum Expr {
    /// A number.
    Number(u32),
    /// A field of the node itself, by its name.
    Own(String),
    /// `id`: the number of the node itself.
    Id,
    /// `degree`: how many neighbours the node has.
    Degree,
    /// `round`: the number of the round.
    Round,
    /// `n.name`: a field of the neighbour, by its name.
    Near(String),
    /// `n.id`: the number of the neighbour.
    NearId,
    /// `n.weight`: the weight of the link to the neighbour.
    NearWeight,
    /// `(a op b)`
    Infix(Op, Box<Expr>, Box<Expr>),
    /// `not a`
    Not(Box<Expr>),
    /// An aggregate of a part.
    Over(Agg, Box<Expr>),
    /// `if a then b else c`
    Choice(Box<Expr>, Box<Expr>, Box<Expr>),
}

/// An item of a program.
#[derive(Drop)]
pub enum Item {
    /// `field name = value;`: a field and its initial value.
    Field { name: String, value: u32 },
    /// `next name = body;`: the next value of a field.
    Next { name: String, body: Expr },
}
