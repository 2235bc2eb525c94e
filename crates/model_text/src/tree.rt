//! The tree of a model, with the place of each of its words and operators in the text.
//!
//! A place is that of a token's first byte, counted in bytes from 0. Brackets are kept, so that a
//! tree has one list of tokens. What a name means is not told here, nor how many arguments a call
//! takes.

/// An operator between two parts.
#[derive(Clone, Copy)]
pub enum Operator {
    /// `a or b`
    Or,
    /// `a and b`
    And,
    /// `a == b`
    Equal,
    /// `a != b`
    Differ,
    /// `a < b`
    Less,
    /// `a <= b`
    LessEq,
    /// `a > b`
    Greater,
    /// `a >= b`
    GreaterEq,
    /// `a | b`
    BitOr,
    /// `a ^ b`
    BitXor,
    /// `a & b`
    BitAnd,
    /// `a + b`
    Plus,
    /// `a - b`
    Minus,
    /// `a * b`
    Times,
    /// `a / b`
    Quot,
    /// `a % b`
    Rem,
}

/// A function that the notation has; each name is a reserved word.
#[derive(Clone, Copy)]
pub enum Function {
    /// `total(a)`: the sum over the neighbours.
    Total,
    /// `sum(a)`: the same.
    Sum,
    /// `least(a)`: the least value over the neighbours.
    Least,
    /// `most(a)`: the greatest value over the neighbours.
    Most,
    /// `count(a)`: of how many neighbours it holds.
    Count,
    /// `any(a)`: whether it holds of a neighbour.
    Any,
    /// `all(a)`: whether it holds of each neighbour.
    All,
    /// `min(a, b, ..)`: the least of its arguments.
    Min,
    /// `max(a, b, ..)`: the greatest of its arguments.
    Max,
    /// `difference(a, b)`: the distance between two numbers.
    Difference,
    /// `random(k)` or `random()`: a number drawn for the node and the round.
    Random,
    /// `link_random(k)` or `link_random()`: a number drawn for the link and the round.
    LinkRandom,
}

/// A decimal: `numerator` over the power of ten with exponent `places`, as 5 and 2 for `0.05`. It
/// has as many places as digits stood after the point; a whole number has 0.
#[derive(Clone, Copy)]
pub struct Decimal {
    pub numerator: u32,
    pub places: u32,
}

/// An expression. Where `at` has no other remark, it is the place of the first token.
#[cycle(expression)]
#[derive(Drop)]
pub enum Expr {
    /// A number.
    Number {
        value: u32,
        at: u32,
    },
    /// `none`: 4294967295.
    Nothing {
        at: u32,
    },
    /// A constant, a state, a field of the node, a let or a parameter, by its name.
    Name {
        name: String,
        at: u32,
    },
    /// `id`: the number of the node.
    Id {
        at: u32,
    },
    /// `degree`: how many neighbours the node has.
    Degree {
        at: u32,
    },
    /// `round`: the number of the round.
    Round {
        at: u32,
    },
    /// `n.name`: a field or a let as seen from the neighbour, by its name.
    Near {
        name: String,
        at: u32,
    },
    /// `n.id`: the number of the neighbour.
    NearId {
        at: u32,
    },
    /// `n.weight`: the weight of the link to the neighbour.
    NearWeight {
        at: u32,
    },
    /// `left operator right`; `at` is the operator's place.
    Infix {
        operator: Operator,
        at: u32,
        left: Box<Expr>,
        right: Box<Expr>,
    },
    /// `not part`
    Not {
        at: u32,
        part: Box<Expr>,
    },
    /// `(part)`
    Parens {
        at: u32,
        part: Box<Expr>,
    },
    /// `if test then yes else no`
    If {
        at: u32,
        test: Box<Expr>,
        yes: Box<Expr>,
        no: Box<Expr>,
    },
    /// `cases { arms }`
    Cases {
        at: u32,
        arms: Box<Arms>,
    },
    /// `function(arguments)`
    Call {
        function: Function,
        at: u32,
        arguments: Box<Arguments>,
    },
    /// `name(arguments)`: a let with parameters, by its name.
    Apply {
        name: String,
        at: u32,
        arguments: Box<Arguments>,
    },
    /// `chance(decimal)`
    Chance {
        at: u32,
        decimal: Decimal,
    },
    /// `chance_of(decimal)`
    ChanceOf {
        at: u32,
        decimal: Decimal,
    },
}

/// What stands in the braces of `cases`.
#[cycle(expression)]
#[derive(Drop)]
pub enum Arms {
    /// `test: value; rest`
    Arm {
        test: Box<Expr>,
        value: Box<Expr>,
        rest: Box<Arms>,
    },
    /// `else: value;`
    Else {
        value: Box<Expr>,
    },
}

/// What stands in the brackets of a call.
#[cycle(expression)]
#[derive(Drop)]
pub enum Arguments {
    /// No argument, or none after those before.
    End,
    /// `first, rest`
    Argument {
        first: Box<Expr>,
        rest: Box<Arguments>,
    },
}

/// A name that an item gives or uses.
#[derive(Drop)]
pub struct Name {
    pub name: String,
    pub at: u32,
}

/// An item of a model.
#[derive(Drop)]
pub enum Item {
    /// `const name = value;`
    Const {
        name: Name,
        value: Expr,
    },
    /// `states name { members }`: one member or more, separated by commas.
    States {
        name: Name,
        members: Vec<Name>,
    },
    /// `field name = initial;` or `field name: states = initial;`
    Field {
        name: Name,
        states: Option<Name>,
        initial: Expr,
    },
    /// `let name = body;` or `let name(parameters) = body;`, with one parameter or more, separated
    /// by commas.
    Let {
        name: Name,
        parameters: Vec<Name>,
        body: Expr,
    },
    /// `next name = body;`
    Next {
        name: Name,
        body: Expr,
    },
}
