//! How many bytes rules have in the canonical spelling.

ghost use Rattle.std.specs.Prelude.{◌≡◌, ◌≤◌, ◌^◌, ◌-◌, min, length, IfOk};
ghost use Rattle.std.specs.Fmt.{decimal};
ghost use Rattle.rule_lang.specs.View.{tree_of, item_of};
ghost use Rattle.rule_lang.specs.Tree.{agg_word};
ghost use Rattle.rule_lang.specs.Canonical.{op_text, tree_text, item_text};

use rule_lang::{Agg, Expr, Item, Op};
use std::alloc::{AllocError, Global};

/// The bytes of an operator.
fn operator_length(op: Op) -> usize
    ensures exact { result ≡ length (op_text op) }
    ensures short { result ≤ 3 }
{
    match op {
        Op::Plus
        | Op::Minus
        | Op::Times
        | Op::Quot
        | Op::Rem
        | Op::BitAnd
        | Op::BitOr
        | Op::BitXor
        | Op::Less
        | Op::Greater => 1,
        Op::Equal | Op::Differ | Op::LessEq | Op::GreaterEq => 2,
        Op::Min | Op::Max => 3,
    }
}

/// The bytes of an aggregate's word.
fn aggregate_length(agg: Agg) -> usize
    ensures exact { result ≡ length (agg_word agg) }
    ensures short { result ≤ 5 }
{
    match agg {
        Agg::Some1 | Agg::Every => 3,
        Agg::Most => 4,
        Agg::Total | Agg::Least | Agg::Count => 5,
    }
}

/// The digits of a number.
fn digits(value: u32, alloc: Global) -> Result<usize, AllocError>
    ensures exact { IfOk result (λ n. n ≡ length (decimal value)) }
{
    let text = value.to_string(alloc)?;
    Ok(text.len())
}

/// The bytes of an expression, as far as a word counts.
fn expression_length(e: &Expr, alloc: Global) -> Result<usize, AllocError>
    ensures exact { IfOk result (λ n. n ≡ min (length (tree_text (tree_of e.now))) (2 ^ 64 - 1)) }
{
    match e {
        Expr::Number(value) => digits(*value, alloc),
        Expr::Own(name) => Ok(name.len()),
        Expr::Id => Ok(2),
        Expr::Degree => Ok(6),
        Expr::Round => Ok(5),
        Expr::Near(name) => Ok(name.len().saturating_add(2)),
        Expr::NearId => Ok(4),
        Expr::NearWeight => Ok(8),
        Expr::Infix(op, a, b) => {
            let parts = expression_length(a, alloc)?.saturating_add(expression_length(b, alloc)?);
            Ok(parts.saturating_add(operator_length(*op) + 4))
        }
        Expr::Not(a) => Ok(expression_length(a, alloc)?.saturating_add(4)),
        Expr::Over(agg, a) => {
            Ok(expression_length(a, alloc)?.saturating_add(aggregate_length(*agg) + 1))
        }
        Expr::Choice(a, b, c) => {
            let parts = expression_length(a, alloc)?.saturating_add(expression_length(b, alloc)?);
            Ok(
                parts
                    .saturating_add(expression_length(c, alloc)?)
                    .saturating_add(15),
            )
        }
    }
}

/// The bytes of an item, as far as a word counts.
pub fn item_length(item: &Item, alloc: Global) -> Result<usize, AllocError>
    ensures exact { IfOk result (λ n. n ≡ min (length (item_text (item_of item.now))) (2 ^ 64 - 1)) }
{
    match item {
        Item::Field { name, value } => {
            let number = digits(*value, alloc)?;
            Ok(name.len().saturating_add(number).saturating_add(11))
        }
        Item::Next { name, body } => {
            let text = expression_length(body, alloc)?;
            Ok(name.len().saturating_add(text).saturating_add(10))
        }
    }
}
