//! Expressions as postfix code.

use rule_lang::Op;

/// One instruction, which takes its operands from the stack and puts its value there.
#[derive(Clone, Copy, PartialEq, Eq)]
pub enum Instr {
    /// This number.
    Push(u32),
    /// The node's own field at this place.
    OwnWord(u32),
    /// The node's number.
    NodeId,
    /// The node's number of neighbours.
    NodeDegree,
    /// The round that the step starts from.
    NodeRound,
    /// The neighbour's field at this place.
    NearWord(u32),
    /// The neighbour's number.
    NearId,
    /// The weight of the link to the neighbour.
    NearWeight,
    /// An operator between the two values on top.
    Apply(Op),
    /// 1 where the value on top is 0, else 0.
    Negate,
    /// The value of the aggregate at this place.
    SumWord(u32),
    /// The second value where the first of the three on top isn't 0, else the third.
    Pick,
}
