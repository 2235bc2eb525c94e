//! The products and totals of a program, and which of them can be cut.

ghost use Rattle.std.specs.Prelude.{◌≡◌, ◌≤◌, ◌<◌, ◌*◌, ◌+◌, ◌++◌, ◌∷◌, [], All, false, map, nat_lt, IfOk, OnOk};
ghost use Rattle.rule_lang.specs.View.{tree_of, items_of};
ghost use Rattle.rule_check.specs.Table.{M};
ghost use Rattle.rule_cuts.specs.Operations.{HasRanges, IsNeverCut, LiesIn, aggregate_operations, can_pass, infix_operations, operation_of, operations, operations_of};

use crate::expression::value_range;
use crate::limits::Limits;
use rule_lang::{Agg, Expr, Item, Op};
use rule_ranges::Range;
use std::alloc::{AllocError, Global};

/// An operand of an operation.
#[derive(Clone, Copy)]
pub struct Operand<'a> {
    pub expr: &'a Expr,
    /// Its value lies between the ends of this range; the most is 4294967295 where nothing bounds it.
    pub range: Range,
}

/// A product or a total of a rule.
#[derive(Clone, Copy)]
pub enum Operation<'a> {
    /// `(a * b)`
    Product(Operand<'a>, Operand<'a>),
    /// `total a`
    Total(Operand<'a>),
}

/// An expression as an operand.
fn operand_of<'a>(expr: &'a Expr, limits: &Limits<'_>) -> Operand<'a>
    ensures exact { tree_of result.expr.now ≡ tree_of expr.now }
    ensures lies { LiesIn limits.now (tree_of expr.now) result.range }
{
    Operand {
        expr,
        range: value_range(expr, limits),
    }
}

/// Puts an operation.
fn put<'a>(found: &mut Vec<Operation<'a>>, operation: Operation<'a>) -> Result<(), AllocError>
    ensures put { OnOk result (found.new.items ≡ found.old.items ++ operation.entry ∷ []) }
{
    found.push(operation)?;
    Ok(())
}

/// Puts the product of an infix form, where it is one.
fn put_infix<'a>(
    found: &mut Vec<Operation<'a>>,
    limits: &Limits<'_>,
    op: Op,
    left: &'a Expr,
    right: &'a Expr,
) -> Result<(), AllocError>
    ensures put { OnOk result (map operation_of found.new.items ≡ map operation_of found.old.items ++ infix_operations op (tree_of left.now) (tree_of right.now)) }
    ensures ranges { All (HasRanges limits.now) found.old.items → OnOk result (All (HasRanges limits.now) found.new.items) }
{
    match op {
        Op::Times => put(
            found,
            Operation::Product(operand_of(left, limits), operand_of(right, limits)),
        ),
        _ => Ok(()),
    }
}

/// Puts the total of an aggregate, where it is one.
fn put_aggregate<'a>(
    found: &mut Vec<Operation<'a>>,
    limits: &Limits<'_>,
    agg: Agg,
    body: &'a Expr,
) -> Result<(), AllocError>
    ensures put { OnOk result (map operation_of found.new.items ≡ map operation_of found.old.items ++ aggregate_operations agg (tree_of body.now)) }
    ensures ranges { All (HasRanges limits.now) found.old.items → OnOk result (All (HasRanges limits.now) found.new.items) }
{
    match agg {
        Agg::Total => put(found, Operation::Total(operand_of(body, limits))),
        _ => Ok(()),
    }
}

/// Puts the operations of an expression.
fn collect<'a>(
    found: &mut Vec<Operation<'a>>,
    limits: &Limits<'_>,
    expr: &'a Expr,
) -> Result<(), AllocError>
    ensures put { OnOk result (map operation_of found.new.items ≡ map operation_of found.old.items ++ operations (tree_of expr.now)) }
    ensures ranges { All (HasRanges limits.now) found.old.items → OnOk result (All (HasRanges limits.now) found.new.items) }
{
    match expr {
        Expr::Number(_)
        | Expr::Own(_)
        | Expr::Id
        | Expr::Degree
        | Expr::Round
        | Expr::Near(_)
        | Expr::NearId
        | Expr::NearWeight => Ok(()),
        Expr::Infix(op, left, right) => {
            collect(found, limits, left)?;
            put_infix(found, limits, *op, left, right)?;
            collect(found, limits, right)
        }
        Expr::Not(part) => collect(found, limits, part),
        Expr::Over(agg, part) => {
            put_aggregate(found, limits, *agg, part)?;
            collect(found, limits, part)
        }
        Expr::Choice(test, yes, no) => {
            collect(found, limits, test)?;
            collect(found, limits, yes)?;
            collect(found, limits, no)
        }
    }
}

/// The products and totals of a program's items, in the order of its text, each with the ranges in which its operands lie
/// at nodes within the bounds.
pub fn operations_in<'a>(
    alloc: Global,
    items: &'a [Item],
    limits: &Limits<'_>,
) -> Result<Vec<Operation<'a>>, AllocError>
    ensures all { IfOk result (λ v. map operation_of v.items ≡ operations_of (items_of items.now)) }
    ensures ranges { IfOk result (λ v. All (HasRanges limits.now) v.items) }
{
    let mut found = Vec::new(alloc);
    for item in items {
        if let Item::Next { body, .. } = item {
            collect(&mut found, limits, body)?;
        }
    }
    Ok(found)
}

/// Whether the greatest values of the operands pass 4294967295: those of a product multiplied, that of a total over as
/// many neighbours as a node can have. Where they do not, the operation is never cut.
pub fn can_be_cut(operation: Operation<'_>, limits: &Limits<'_>) -> bool
    ensures exact { result ≡ can_pass limits.now operation.entry }
    ensures never { result ≡ false → HasRanges limits.now operation.entry → IsNeverCut limits.now (operation_of operation.entry) }
{
    match operation {
        Operation::Product(left, right) => passes(left.range.most, right.range.most),
        Operation::Total(body) => passes(body.range.most, limits.bounds.degree),
    }
}

/// Whether a product passes 4294967295.
fn passes(a: u32, b: u32) -> bool
    ensures exact { result ≡ nat_lt M (a * b) }
{
    a as u64 * b as u64 > u32::MAX as u64
}

/// The greatest number that is not cut when it is multiplied by this one.
pub fn greatest_uncut(factor: u32) -> u32
    ensures uncut { result * factor ≤ M }
    ensures next { 0 < factor → M < (result + 1) * factor }
{
    u32::MAX / factor.max(1)
}
