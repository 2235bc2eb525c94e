//! What is accepted at a place of a program, and rarely meant.

use crate::items::item_tokens;
use crate::place_at;
use crate::told::Named;
use rule_lang::{Expr, Item, Lexeme, Op, read_program, read_tokens};
use std::alloc::{AllocError, Global};

/// What is accepted, and rarely meant.
#[derive(Clone, Copy)]
pub enum Slip {
    /// An aggregate whose expression names no neighbour, and is not the same at all nodes.
    NoNeighbour,
    /// A value below 0.
    NeverHolds,
    /// A value that is 0 or more.
    AlwaysHolds,
    /// `^` before a small number.
    NoPower,
    /// `not` and a bracket after which an operator stands; in models alone.
    NotOfAll,
}

/// The notation in which a slip stands.
#[derive(Clone, Copy)]
pub enum Notation {
    /// The rule language.
    Program,
    /// That of models.
    Model,
}

/// The numbers that `^` stands before as a power would.
pub fn is_power(number: u32) -> bool {
    number >= 2 && number <= 9
}

/// What a slip means here, and what to write.
fn words(slip: Slip, notation: Notation) -> &'static str {
    match (slip, notation) {
        (Slip::NoNeighbour, Notation::Program) =>
            "the aggregate names no neighbour, and has the value of the node itself for each: a neighbour's field is n.NAME, as in: count n.NAME",
        (Slip::NoNeighbour, Notation::Model) =>
            "the aggregate names no neighbour, and has the value of the node itself for each: a neighbour's field is n.NAME, as in count(n.NAME)",
        (Slip::NeverHolds, Notation::Program) =>
            "this never holds: no value is below 0, and a difference stops at 0; whether A is below B is (A < B)",
        (Slip::NeverHolds, Notation::Model) =>
            "this never holds: no value is below 0, and a difference stops at 0; whether a is below b is a < b",
        (Slip::AlwaysHolds, Notation::Program) =>
            "this always holds: no value is below 0, and a difference stops at 0; whether A is not below B is (A >= B)",
        (Slip::AlwaysHolds, Notation::Model) =>
            "this always holds: no value is below 0, and a difference stops at 0; whether a is not below b is a >= b",
        (Slip::NoPower, Notation::Program) =>
            "`^` gives the bits of just one of two numbers, and is no power: the square of A is (A * A)",
        (Slip::NoPower, Notation::Model) =>
            "`^` gives the bits of just one of two numbers, and is no power: the square of a is a * a",
        (Slip::NotOfAll, _) =>
            "`not` goes over all behind it up to `and` or `or`, here not ((a) + b); of the bracket alone it is (not (a)) + b",
    }
}

/// Adds the note on a slip at a byte of a text.
pub fn put_slip(
    out: &mut String,
    named: Named,
    at: usize,
    slip: Slip,
    notation: Notation,
) -> Result<(), AllocError> {
    let name = named.name;
    let place = place_at(named.text, at);
    let line = place.line;
    let column = place.column;
    let words = words(slip, notation);
    write!(out, "note: {name}:{line}:{column}: {words}\n")
}

/// Whether the expression is the number 0.
fn is_zero(expr: &Expr) -> bool {
    matches!(expr, Expr::Number(0))
}

/// What is rarely meant by an operator between two parts.
fn infix_slip(op: Op, left: &Expr, right: &Expr) -> Option<Slip> {
    match (op, right) {
        (Op::BitXor, Expr::Number(number)) if is_power(*number) => Some(Slip::NoPower),
        (Op::Less, Expr::Number(0)) => Some(Slip::NeverHolds),
        (Op::GreaterEq, Expr::Number(0)) => Some(Slip::AlwaysHolds),
        (Op::Greater, _) if is_zero(left) => Some(Slip::NeverHolds),
        (Op::LessEq, _) if is_zero(left) => Some(Slip::AlwaysHolds),
        _ => None,
    }
}

/// Whether the expression names a neighbour.
fn names_near(expr: &Expr) -> bool {
    match expr {
        Expr::Near(_) | Expr::NearId | Expr::NearWeight => true,
        Expr::Number(_) | Expr::Own(_) | Expr::Id | Expr::Degree | Expr::Round => false,
        Expr::Not(part) | Expr::Over(_, part) => names_near(part),
        Expr::Infix(_, left, right) => names_near(left) || names_near(right),
        Expr::Choice(test, yes, no) => names_near(test) || names_near(yes) || names_near(no),
    }
}

/// Whether the expression names something of the node itself or the round.
fn names_own(expr: &Expr) -> bool {
    match expr {
        Expr::Own(_) | Expr::Id | Expr::Degree | Expr::Round => true,
        Expr::Number(_) | Expr::Near(_) | Expr::NearId | Expr::NearWeight => false,
        Expr::Not(part) | Expr::Over(_, part) => names_own(part),
        Expr::Infix(_, left, right) => names_own(left) || names_own(right),
        Expr::Choice(test, yes, no) => names_own(test) || names_own(yes) || names_own(no),
    }
}

/// The text whose notes are made, and the tokens of an expression in it.
#[derive(Clone, Copy)]
struct Body<'a> {
    program: Named<'a>,
    lexemes: &'a [Lexeme<'a>],
}

/// Adds the note on a slip at the token of this number, where there is one.
fn put_at(
    out: &mut String,
    body: Body<'_>,
    index: usize,
    slip: Option<Slip>,
) -> Result<(), AllocError> {
    match (slip, body.lexemes.get(index)) {
        (Some(slip), Some(lexeme)) => put_slip(
            out,
            body.program,
            lexeme.at as usize,
            slip,
            Notation::Program,
        ),
        _ => Ok(()),
    }
}

/// What is rarely meant by an aggregate of this part.
fn aggregate_slip(part: &Expr) -> Option<Slip> {
    if names_own(part) && !names_near(part) {
        return Some(Slip::NoNeighbour);
    }
    None
}

/// Adds the notes on an expression, whose first token has this number. Answers the number of the token after it.
fn put_notes_on(
    out: &mut String,
    body: Body<'_>,
    index: usize,
    expr: &Expr,
) -> Result<usize, AllocError> {
    let behind = index.saturating_add(1);
    match expr {
        Expr::Infix(op, left, right) => {
            let sign = put_notes_on(out, body, behind, left)?;
            put_at(out, body, sign, infix_slip(*op, left, right))?;
            let end = put_notes_on(out, body, sign.saturating_add(1), right)?;
            Ok(end.saturating_add(1))
        }
        Expr::Not(part) => put_notes_on(out, body, behind, part),
        Expr::Over(_, part) => {
            put_at(out, body, index, aggregate_slip(part))?;
            put_notes_on(out, body, behind, part)
        }
        Expr::Choice(test, yes, no) => {
            let then = put_notes_on(out, body, behind, test)?;
            let other = put_notes_on(out, body, then.saturating_add(1), yes)?;
            put_notes_on(out, body, other.saturating_add(1), no)
        }
        _ => Ok(behind),
    }
}

/// The tokens of the expression of a rule, after `next`, its name and `=`.
fn body_of<'a>(lexemes: &'a [Lexeme<'a>], item: usize) -> &'a [Lexeme<'a>] {
    match item_tokens(lexemes, item) {
        [_, _, _, rest @ ..] => rest,
        _ => &[],
    }
}

/// Notes on what is accepted in a program and rarely meant, a line for each, with its place; none where the text is no
/// program.
pub fn program_slips(alloc: Global, program: Named) -> Result<String, AllocError> {
    let mut out = String::new(alloc);
    let Ok(source) = read_program(alloc, program.text) else {
        return Ok(out);
    };
    let lexemes = read_tokens(alloc, program.text)?.unwrap_or(Vec::new(alloc));
    for (number, item) in source.items().iter().enumerate() {
        if let Item::Next { body, .. } = item {
            let tokens = Body {
                program,
                lexemes: body_of(&lexemes, number),
            };
            put_notes_on(&mut out, tokens, 0, body)?;
        }
    }
    Ok(out)
}
