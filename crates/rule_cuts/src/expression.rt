//! In which range the value of an expression lies, whatever the states are.

ghost use Rattle.std.specs.Prelude.{◌≤◌};
ghost use Rattle.rule_lang.specs.View.{tree_of};
ghost use Rattle.rule_check.specs.declared.state.Near.{Near};
ghost use Rattle.rule_check.specs.Table.{M};
ghost use Rattle.rule_check.specs.Value.{Here, value};
ghost use Rattle.rule_cuts.specs.Bounded.{IsHereWithin, IsNearWithin};
ghost use Rattle.rule_ranges.specs.Ranges.{IsWithin};

use crate::limits::{Limits, field_range};
use rule_lang::Expr;
use rule_ranges::{Range, at_most_number, choice, exactly, gathered_range, negation, operated};

/// In which range the value of an expression lies at each node within the limits. Where it stands in an aggregate, this holds
/// at each neighbour.
pub fn value_range(expr: &Expr, limits: &Limits<'_>) -> Range
    ensures within { (here : Here) (near : Near) → IsHereWithin limits.now here → IsNearWithin limits.now near → IsWithin result (value here (tree_of expr.now) near) }
    ensures word { (here : Here) (near : Near) → IsHereWithin limits.now here → IsNearWithin limits.now near → value here (tree_of expr.now) near ≤ M }
{
    match expr {
        Expr::Number(number) => exactly(*number),
        Expr::Own(name) | Expr::Near(name) => field_range(limits, name.as_str()),
        Expr::Round => at_most_number(limits.bounds.round),
        Expr::Id | Expr::NearId => at_most_number(limits.bounds.id),
        Expr::Degree => at_most_number(limits.bounds.degree),
        Expr::NearWeight => at_most_number(limits.bounds.weight),
        Expr::Infix(op, left, right) => operated(
            *op,
            value_range(left, limits),
            value_range(right, limits),
        ),
        Expr::Not(part) => negation(value_range(part, limits)),
        Expr::Over(agg, part) => {
            gathered_range(*agg, value_range(part, limits), limits.bounds.degree)
        }
        Expr::Choice(test, yes, no) => choice(
            value_range(test, limits),
            value_range(yes, limits),
            value_range(no, limits),
        ),
    }
}
