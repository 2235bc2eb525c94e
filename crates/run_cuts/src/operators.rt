//! The operators of a program whose values can be cut.
ghost use Rattle.std.specs.Prelude.{◌≡◌, ◌++◌, ◌∷◌, [], map, IfOk, OnOk};
ghost use Rattle.rule_lang.specs.View.{tree_of, items_of};
ghost use Rattle.run_cuts.specs.Operators.{aggregate_operators, infix_operators, operators as operators_lem, operators_of};
ghost use Rattle.run_cuts.specs.Counting.{operator_of};

use rule_lang::{Agg, Expr, Item, Op};
use std::alloc::{AllocError, Global};

/// An operator with its operands; a total with what it goes over.
#[derive(Clone, Copy)]
pub(crate) enum Form<'a> {
    Sum(&'a Expr, &'a Expr),
    Difference(&'a Expr, &'a Expr),
    Product(&'a Expr, &'a Expr),
    Total(&'a Expr),
}

/// An operator of a rule.
#[derive(Clone, Copy)]
pub(crate) struct Operator<'a> {
    /// Whether it stands within an aggregate, and so is valued once for each neighbour.
    pub(crate) within: bool,
    pub(crate) form: Form<'a>,
}

/// Puts the operator of an infix form, where its value can be cut.
fn put_infix<'a>(
    found: &mut Vec<Operator<'a>>,
    within: bool,
    op: Op,
    a: &'a Expr,
    b: &'a Expr,
) -> Result<(), AllocError>
    ensures put { OnOk result (map operator_of found.new.items ≡ map operator_of found.old.items ++ infix_operators within op (tree_of a.now) (tree_of b.now)) }
{
    match op {
        Op::Plus => put(found, within, Form::Sum(a, b)),
        Op::Minus => put(found, within, Form::Difference(a, b)),
        Op::Times => put(found, within, Form::Product(a, b)),
        _ => Ok(()),
    }
}

/// Puts an operator.
fn put<'a>(found: &mut Vec<Operator<'a>>, within: bool, form: Form<'a>) -> Result<(), AllocError>
    ensures put { OnOk result (found.new.items ≡ found.old.items ++ record { within = within; form = form.entry } ∷ []) }
{
    found.push(Operator { within, form })?;
    Ok(())
}

/// Puts the operator of an aggregate, where its value can be cut.
fn put_aggregate<'a>(
    found: &mut Vec<Operator<'a>>,
    within: bool,
    agg: Agg,
    body: &'a Expr,
) -> Result<(), AllocError>
    ensures put { OnOk result (map operator_of found.new.items ≡ map operator_of found.old.items ++ aggregate_operators within agg (tree_of body.now)) }
{
    match agg {
        Agg::Total => put(found, within, Form::Total(body)),
        _ => Ok(()),
    }
}

/// Puts the operators of an expression.
fn collect<'a>(found: &mut Vec<Operator<'a>>, within: bool, e: &'a Expr) -> Result<(), AllocError>
    ensures put { OnOk result (map operator_of found.new.items ≡ map operator_of found.old.items ++ operators_lem within (tree_of e.now)) }
{
    match e {
        Expr::Number(_)
        | Expr::Own(_)
        | Expr::Id
        | Expr::Degree
        | Expr::Round
        | Expr::Near(_)
        | Expr::NearId
        | Expr::NearWeight => Ok(()),
        Expr::Infix(op, a, b) => {
            collect(found, within, a)?;
            put_infix(found, within, *op, a, b)?;
            collect(found, within, b)
        }
        Expr::Not(e) => collect(found, within, e),
        Expr::Over(agg, e) => {
            put_aggregate(found, within, *agg, e)?;
            collect(found, true, e)
        }
        Expr::Choice(a, b, c) => {
            collect(found, within, a)?;
            collect(found, within, b)?;
            collect(found, within, c)
        }
    }
}

/// The operators of a program's items, in the order of its text.
pub(crate) fn operators_in<'a>(
    alloc: Global,
    items: &'a [Item],
) -> Result<Vec<Operator<'a>>, AllocError>
    ensures all { IfOk result (λ v. map operator_of v.items ≡ operators_of (items_of items.now)) }
{
    let mut found = Vec::new(alloc);
    for item in items {
        if let Item::Next { body, .. } = item {
            collect(&mut found, false, body)?;
        }
    }
    Ok(found)
}
