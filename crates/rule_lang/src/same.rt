//! Whether two programs have the same items.

ghost use Rattle.std.specs.Prelude.{◌≡◌, ◌↔◌, IsTrue};
ghost use Rattle.rule_lang.specs.View.{tree_of, item_of, items_of};

use crate::tree::{Expr, Item};

/// Whether both are the same expression.
fn same_expression(left: &Expr, right: &Expr) -> bool
    ensures { IsTrue result ↔ (tree_of left.now ≡ tree_of right.now) }
{
    match (left, right) {
        (Expr::Number(a), Expr::Number(b)) => a == b,
        (Expr::Own(a), Expr::Own(b)) | (Expr::Near(a), Expr::Near(b)) => a == b,
        (Expr::Id, Expr::Id)
        | (Expr::Degree, Expr::Degree)
        | (Expr::Round, Expr::Round)
        | (Expr::NearId, Expr::NearId)
        | (Expr::NearWeight, Expr::NearWeight) => true,
        (Expr::Infix(op, a, b), Expr::Infix(other, c, d)) => {
            op == other && same_expression(a, c) && same_expression(b, d)
        }
        (Expr::Not(a), Expr::Not(b)) => same_expression(a, b),
        (Expr::Over(agg, a), Expr::Over(other, b)) => agg == other && same_expression(a, b),
        (Expr::Choice(a, b, c), Expr::Choice(d, e, f)) => {
            same_expression(a, d) && same_expression(b, e) && same_expression(c, f)
        }
        _ => false,
    }
}

/// Whether both are the same item.
fn same_item(left: &Item, right: &Item) -> bool
    ensures { IsTrue result ↔ (item_of left.now ≡ item_of right.now) }
{
    match (left, right) {
        (
            Item::Field { name, value },
            Item::Field {
                name: other,
                value: number,
            },
        ) => name == other && value == number,
        (
            Item::Next { name, body },
            Item::Next {
                name: other,
                body: expr,
            },
        ) => name == other && same_expression(body, expr),
        _ => false,
    }
}

/// Whether both are the same items in the same order.
pub fn same_items(left: &[Item], right: &[Item]) -> bool
    ensures { IsTrue result ↔ (items_of left.now ≡ items_of right.now) }
{
    if left.len() != right.len() {
        return false;
    }
    for (i, item) in left.iter().enumerate() {
        if !same_item(item, &right[i]) {
            return false;
        }
    }
    true
}
