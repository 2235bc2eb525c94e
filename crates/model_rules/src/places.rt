//! The places of the draws in a model.

ghost use Rattle.std.specs.Prelude.{◌≡◌, ◌++◌, IfOk, OnOk};
ghost use Rattle.model_text.specs.View.{tree_of, arms_of, arguments_of, items_of};
ghost use Rattle.model_rules.specs.Meaning.{is_draw};
ghost use Rattle.model_rules.specs.Models.{draws_in, arms_draws, arguments_draws, draws_of};

use model_text::{Arguments, Arms, Expr, Function, Item};
use std::alloc::{AllocError, Global};

/// Whether the function draws.
fn draws(function: Function) -> bool
    ensures exact { result ≡ is_draw function }
{
    matches!(function, Function::Random | Function::LinkRandom)
}

/// Adds the places of the draws in an expression.
#[cycle(places)]
fn add_expression(places: &mut Vec<u32>, tree: &Expr) -> Result<(), AllocError>
    ensures added { OnOk result (places.new.items ≡ places.old.items ++ draws_in (tree_of tree.now)) }
{
    match tree {
        Expr::Infix { left, right, .. } => {
            add_expression(places, left)?;
            add_expression(places, right)
        }
        Expr::Not { part, .. } | Expr::Parens { part, .. } => add_expression(places, part),
        Expr::If { test, yes, no, .. } => {
            add_expression(places, test)?;
            add_expression(places, yes)?;
            add_expression(places, no)
        }
        Expr::Cases { arms, .. } => add_arms(places, arms),
        Expr::Call {
            function,
            at,
            arguments,
        } => {
            if draws(*function) {
                places.push(*at)?;
            }
            add_arguments(places, arguments)
        }
        Expr::Apply { arguments, .. } => add_arguments(places, arguments),
        Expr::ChanceOf { at, .. } => {
            places.push(*at)?;
            Ok(())
        }
        Expr::Number { .. }
        | Expr::Nothing { .. }
        | Expr::Name { .. }
        | Expr::Id { .. }
        | Expr::Degree { .. }
        | Expr::Round { .. }
        | Expr::Near { .. }
        | Expr::NearId { .. }
        | Expr::NearWeight { .. }
        | Expr::Chance { .. } => Ok(()),
    }
}

/// Adds those in the arms of `cases`.
#[cycle(places)]
fn add_arms(places: &mut Vec<u32>, arms: &Arms) -> Result<(), AllocError>
    ensures added { OnOk result (places.new.items ≡ places.old.items ++ arms_draws (arms_of arms.now)) }
{
    match arms {
        Arms::Arm { test, value, rest } => {
            add_expression(places, test)?;
            add_expression(places, value)?;
            add_arms(places, rest)
        }
        Arms::Else { value } => add_expression(places, value),
    }
}

/// Adds those in the arguments of a call.
#[cycle(places)]
fn add_arguments(places: &mut Vec<u32>, arguments: &Arguments) -> Result<(), AllocError>
    ensures added { OnOk result (places.new.items ≡ places.old.items ++ arguments_draws (arguments_of arguments.now)) }
{
    match arguments {
        Arguments::End => Ok(()),
        Arguments::Argument { first, rest } => {
            add_expression(places, first)?;
            add_arguments(places, rest)
        }
    }
}

/// The places of all draws of a model, in the order of the text.
pub fn draw_places(items: &[Item], alloc: Global) -> Result<Vec<u32>, AllocError>
    ensures exact { IfOk result (λ places. places.items ≡ draws_of (items_of items.now)) }
{
    let mut places = Vec::new(alloc);
    for item in items {
        match item {
            Item::Const { value: body, .. }
            | Item::Field { initial: body, .. }
            | Item::Let { body, .. }
            | Item::Next { body, .. } => add_expression(&mut places, body)?,
            Item::States { .. } => {}
        }
    }
    Ok(places)
}
