//! How deep an expression is nested.

ghost use Rattle.std.specs.Prelude.{◌≡◌, nat_le};
ghost use Rattle.model_text.specs.View.{tree_of, arms_of, arguments_of};
ghost use Rattle.model_text.specs.Grammar.{depth, arms_depth, arguments_depth};

use crate::tree::{Arguments, Arms, Expr};

/// Whether an expression is so deep at most.
#[cycle(depth)]
pub fn is_within(tree: &Expr, limit: u32) -> bool
    ensures exact { result ≡ nat_le (depth (tree_of tree.now)) limit }
{
    if limit == 0 {
        return false;
    }
    match tree {
        Expr::Infix { left, right, .. } => {
            is_within(left, limit - 1) && is_within(right, limit - 1)
        }
        Expr::Not { part, .. } | Expr::Parens { part, .. } => is_within(part, limit - 1),
        Expr::If { test, yes, no, .. } => {
            is_within(test, limit - 1) && is_within(yes, limit - 1) && is_within(no, limit - 1)
        }
        Expr::Cases { arms, .. } => arms_within(arms, limit - 1),
        Expr::Call { arguments, .. } | Expr::Apply { arguments, .. } => {
            arguments_within(arguments, limit - 1)
        }
        Expr::Number { .. }
        | Expr::Nothing { .. }
        | Expr::Name { .. }
        | Expr::Id { .. }
        | Expr::Degree { .. }
        | Expr::Round { .. }
        | Expr::Near { .. }
        | Expr::NearId { .. }
        | Expr::NearWeight { .. }
        | Expr::Chance { .. }
        | Expr::ChanceOf { .. } => true,
    }
}

/// Whether arms of `cases` are so deep at most.
#[cycle(depth)]
fn arms_within(arms: &Arms, limit: u32) -> bool
    ensures exact { result ≡ nat_le (arms_depth (arms_of arms.now)) limit }
{
    if limit == 0 {
        return false;
    }
    match arms {
        Arms::Arm { test, value, rest } => {
            is_within(test, limit - 1)
                && is_within(value, limit - 1)
                && arms_within(rest, limit - 1)
        }
        Arms::Else { value } => is_within(value, limit - 1),
    }
}

/// Whether arguments of a call are so deep at most.
#[cycle(depth)]
fn arguments_within(arguments: &Arguments, limit: u32) -> bool
    ensures exact { result ≡ nat_le (arguments_depth (arguments_of arguments.now)) limit }
{
    if limit == 0 {
        return false;
    }
    match arguments {
        Arguments::End => true,
        Arguments::Argument { first, rest } => {
            is_within(first, limit - 1) && arguments_within(rest, limit - 1)
        }
    }
}
