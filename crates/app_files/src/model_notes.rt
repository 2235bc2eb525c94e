//! What is accepted in a model, and rarely meant.

use crate::programs::is_model;
use app_why::{Named, Notation, Slip, is_power, program_slips, put_slip};
use model_text::{Arguments, Arms, Expr, Function, Item, Operator, read_model};
use std::alloc::{AllocError, Global};

/// Whether a name is that of a constant or of a state.
fn is_fixed(items: &[Item], word: &str) -> bool {
    for item in items {
        match item {
            Item::Const { name, .. } if name.name.as_str() == word => return true,
            Item::States { members, .. } => {
                if members.iter().any(|member| member.name.as_str() == word) {
                    return true;
                }
            }
            _ => {}
        }
    }
    false
}

/// What an expression names.
#[derive(Clone, Copy)]
struct Names {
    /// Something of a neighbour, or of the link to it.
    near: bool,
    /// Something of the node itself, or the round.
    own: bool,
}

/// Nothing of either.
const NOTHING: Names = Names {
    near: false,
    own: false,
};

/// Something of a neighbour.
const NEAR: Names = Names {
    near: true,
    own: false,
};

/// Something of the node itself.
const OWN: Names = Names {
    near: false,
    own: true,
};

/// What two parts name.
fn joined(left: Names, right: Names) -> Names {
    Names {
        near: left.near || right.near,
        own: left.own || right.own,
    }
}

/// What a function names by itself.
fn named_by(function: Function) -> Names {
    match function {
        Function::Random => OWN,
        Function::LinkRandom => NEAR,
        _ => NOTHING,
    }
}

/// What an expression names.
#[cycle(naming)]
fn names_in(items: &[Item], expr: &Expr) -> Names {
    match expr {
        Expr::Number { .. } | Expr::Nothing { .. } | Expr::Chance { .. } => NOTHING,
        Expr::Name { name, .. } => {
            if is_fixed(items, name) {
                return NOTHING;
            }
            OWN
        }
        Expr::Id { .. } | Expr::Degree { .. } | Expr::Round { .. } | Expr::ChanceOf { .. } => OWN,
        Expr::Near { .. } | Expr::NearId { .. } | Expr::NearWeight { .. } => NEAR,
        Expr::Infix { left, right, .. } => joined(names_in(items, left), names_in(items, right)),
        Expr::Not { part, .. } | Expr::Parens { part, .. } => names_in(items, part),
        Expr::If { test, yes, no, .. } => {
            let both = joined(names_in(items, yes), names_in(items, no));
            joined(names_in(items, test), both)
        }
        Expr::Cases { arms, .. } => names_in_arms(items, arms),
        Expr::Call {
            function,
            arguments,
            ..
        } => joined(named_by(*function), names_in_arguments(items, arguments)),
        Expr::Apply { arguments, .. } => joined(OWN, names_in_arguments(items, arguments)),
    }
}

/// What the arms of `cases` name.
#[cycle(naming)]
fn names_in_arms(items: &[Item], arms: &Arms) -> Names {
    match arms {
        Arms::Arm { test, value, rest } => {
            let both = joined(names_in(items, test), names_in(items, value));
            joined(both, names_in_arms(items, rest))
        }
        Arms::Else { value } => names_in(items, value),
    }
}

/// What arguments name.
#[cycle(naming)]
fn names_in_arguments(items: &[Item], arguments: &Arguments) -> Names {
    match arguments {
        Arguments::End => NOTHING,
        Arguments::Argument { first, rest } => {
            joined(names_in(items, first), names_in_arguments(items, rest))
        }
    }
}

/// Whether the function is an aggregate.
fn is_aggregate(function: Function) -> bool {
    match function {
        Function::Total
        | Function::Sum
        | Function::Least
        | Function::Most
        | Function::Count
        | Function::Any
        | Function::All => true,
        Function::Min
        | Function::Max
        | Function::Difference
        | Function::Random
        | Function::LinkRandom => false,
    }
}

/// What is rarely meant by a function of these arguments.
fn call_slip(items: &[Item], function: Function, arguments: &Arguments) -> Option<Slip> {
    if !is_aggregate(function) {
        return None;
    }
    let names = names_in_arguments(items, arguments);
    if names.own && !names.near {
        return Some(Slip::NoNeighbour);
    }
    None
}

/// The number that an expression is, brackets round it aside.
fn number_of(expr: &Expr) -> Option<u32> {
    match expr {
        Expr::Number { value, .. } => Some(*value),
        Expr::Parens { part, .. } => number_of(part),
        _ => None,
    }
}

/// What is rarely meant by an operator between two parts.
fn infix_slip(operator: Operator, left: &Expr, right: &Expr) -> Option<Slip> {
    match (operator, number_of(left), number_of(right)) {
        (Operator::BitXor, _, Some(number)) if is_power(number) => Some(Slip::NoPower),
        (Operator::Less, _, Some(0)) | (Operator::Greater, Some(0), _) => Some(Slip::NeverHolds),
        (Operator::GreaterEq, _, Some(0)) | (Operator::LessEq, Some(0), _) => Some(
            Slip::AlwaysHolds,
        ),
        _ => None,
    }
}

/// Where the bracket stands with which an expression begins, where it begins with one.
fn first_bracket(expr: &Expr) -> Option<u32> {
    match expr {
        Expr::Parens { at, .. } => Some(*at),
        Expr::Infix { left, .. } => first_bracket(left),
        _ => None,
    }
}

/// What is rarely meant by a `not` at a byte, before this part: that it goes over more than the bracket that stands right
/// after it.
fn not_slip(at: u32, part: &Expr) -> Option<Slip> {
    match part {
        Expr::Infix { left, .. } if first_bracket(left) == Some(at.saturating_add(3)) => Some(
            Slip::NotOfAll,
        ),
        _ => None,
    }
}

/// A model whose notes are made.
#[derive(Clone, Copy)]
struct Model<'a> {
    named: Named<'a>,
    items: &'a [Item],
}

/// Adds the note on a slip at a byte, where there is one.
fn put_at(
    out: &mut String,
    model: Model<'_>,
    at: u32,
    slip: Option<Slip>,
) -> Result<(), AllocError> {
    match slip {
        Some(slip) => put_slip(out, model.named, at as usize, slip, Notation::Model),
        None => Ok(()),
    }
}

/// Adds the notes on an expression.
#[cycle(noting)]
fn put_notes_on(out: &mut String, model: Model<'_>, expr: &Expr) -> Result<(), AllocError> {
    match expr {
        Expr::Infix {
            operator,
            at,
            left,
            right,
        } => {
            put_notes_on(out, model, left)?;
            put_at(out, model, *at, infix_slip(*operator, left, right))?;
            put_notes_on(out, model, right)
        }
        Expr::Not { at, part } => {
            put_at(out, model, *at, not_slip(*at, part))?;
            put_notes_on(out, model, part)
        }
        Expr::Parens { part, .. } => put_notes_on(out, model, part),
        Expr::If { test, yes, no, .. } => {
            put_notes_on(out, model, test)?;
            put_notes_on(out, model, yes)?;
            put_notes_on(out, model, no)
        }
        Expr::Cases { arms, .. } => put_arms(out, model, arms),
        Expr::Call {
            function,
            at,
            arguments,
        } => {
            put_at(
                out,
                model,
                *at,
                call_slip(model.items, *function, arguments),
            )?;
            put_arguments(out, model, arguments)
        }
        Expr::Apply { arguments, .. } => put_arguments(out, model, arguments),
        _ => Ok(()),
    }
}

/// Adds the notes on the arms of `cases`.
#[cycle(noting)]
fn put_arms(out: &mut String, model: Model<'_>, arms: &Arms) -> Result<(), AllocError> {
    match arms {
        Arms::Arm { test, value, rest } => {
            put_notes_on(out, model, test)?;
            put_notes_on(out, model, value)?;
            put_arms(out, model, rest)
        }
        Arms::Else { value } => put_notes_on(out, model, value),
    }
}

/// Adds the notes on arguments.
#[cycle(noting)]
fn put_arguments(
    out: &mut String,
    model: Model<'_>,
    arguments: &Arguments,
) -> Result<(), AllocError> {
    match arguments {
        Arguments::End => Ok(()),
        Arguments::Argument { first, rest } => {
            put_notes_on(out, model, first)?;
            put_arguments(out, model, rest)
        }
    }
}

/// The expression of an item.
fn body_of(item: &Item) -> Option<&Expr> {
    match item {
        Item::Const { value, .. } => Some(value),
        Item::Field { initial, .. } => Some(initial),
        Item::Let { body, .. } | Item::Next { body, .. } => Some(body),
        Item::States { .. } => None,
    }
}

/// Notes on what is accepted in a model and rarely meant, a line for each, with its place; none where the text is no model.
pub fn model_slips(alloc: Global, named: Named) -> Result<String, AllocError> {
    let mut out = String::new(alloc);
    let Ok(items) = read_model(alloc, named.text) else {
        return Ok(out);
    };
    let model = Model {
        named,
        items: &items,
    };
    for item in &items {
        if let Some(body) = body_of(item) {
            put_notes_on(&mut out, model, body)?;
        }
    }
    Ok(out)
}

/// Notes on what is accepted in a program or a model and rarely meant, a line for each, by the name of its file; none
/// where the text is neither.
pub fn slips_in(alloc: Global, named: Named) -> Result<String, AllocError> {
    if is_model(named.name) {
        return model_slips(alloc, named);
    }
    program_slips(alloc, named)
}
