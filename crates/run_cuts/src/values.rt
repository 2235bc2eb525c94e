//! The values of expressions at a node, and the plain numbers of which operators make them.
ghost use Rattle.std.specs.Prelude.{◌≡◌, ◌≤◌, length, map, sum};
ghost use Rattle.std.specs.List.{list_any};
ghost use Rattle.rule_lang.specs.View.{tree_of};
ghost use Rattle.rule_check.specs.Value.{names_of, place, value, word as word_lem};
ghost use Rattle.run_cuts.specs.Cuts.{is_cut as is_cut_lem, is_outside as is_outside_lem};
ghost use Rattle.run_cuts.specs.Counting.{form_of, here_of, operator_of};

use crate::operators::{Form, Operator};
use rule_check::{Near, Program, State, apply, gathered, opening};
use rule_lang::Expr;

/// A node in the step from a round, with its neighbours.
#[derive(Clone, Copy)]
pub(crate) struct Node<'a> {
    pub(crate) program: &'a Program,
    pub(crate) round: u32,
    pub(crate) id: u32,
    pub(crate) own: State,
    pub(crate) nears: &'a [Near],
}

/// The place of the field of this name, or the number of fields where it is none of them.
fn place_of(program: &Program, name: &str) -> u32
    ensures exact { result ≡ place (names_of program.now) name.now }
{
    match program.field_index(name) {
        Some(place) => place,
        None => program.field_count(),
    }
}

/// The word of a field.
fn word(program: &Program, state: &State, name: &str) -> u32
    ensures exact { result ≡ word_lem (names_of program.now) state.now name.now }
{
    state.value(place_of(program, name))
}

/// The value of an expression at a node, and at one neighbour where it stands in an aggregate.
#[tactic(auto, using(rule_check::proofs::Gathers::gather_none, crate::proofs::Turns::gather_more))]
fn value_of(node: &Node<'_>, e: &Expr, near: &Near) -> u32
    requires few { length node.now.nears.now ≤ 4294967295 }
    ensures exact { result ≡ value (here_of node.now) (tree_of e.now) near.now }
{
    match e {
        Expr::Number(n) => *n,
        Expr::Own(name) => word(node.program, &node.own, name.as_str()),
        Expr::Id => node.id,
        Expr::Degree => node.nears.len() as u32,
        Expr::Round => node.round,
        Expr::Near(name) => word(node.program, &near.state, name.as_str()),
        Expr::NearId => near.id,
        Expr::NearWeight => near.weight,
        Expr::Infix(op, a, b) => apply(*op, value_of(node, a, near), value_of(node, b, near)),
        Expr::Not(e) => u32::from(value_of(node, e, near) == 0),
        Expr::Over(agg, body) => {
            let mut so_far = opening(*agg);
            for other in node.nears {
                so_far = gathered(*agg, so_far, value_of(node, body, other));
            }
            so_far
        }
        Expr::Choice(a, b, c) => {
            if value_of(node, a, near) == 0 {
                value_of(node, c, near)
            } else {
                value_of(node, b, near)
            }
        }
    }
}

/// The plain sum of an expression over the neighbours.
#[tactic(auto, using(crate::proofs::Turns::total_more))]
fn plain_total(node: &Node<'_>, e: &Expr) -> u64
    requires few { length node.now.nears.now ≤ 4294967295 }
    ensures exact { result ≡ sum (map (value (here_of node.now) (tree_of e.now)) node.now.nears.now) }
{
    let mut sum = 0u64;
    for near in node.nears {
        sum += value_of(node, e, near) as u64;
    }
    sum
}

/// Whether the plain number that an operator makes of its operands' values is none that a value can be.
fn is_outside(node: &Node<'_>, form: Form<'_>, near: &Near) -> bool
    requires few { length node.now.nears.now ≤ 4294967295 }
    ensures exact { result ≡ is_outside_lem (here_of node.now) (form_of form.entry) near.now }
{
    match form {
        Form::Sum(a, b) => {
            value_of(node, a, near) as u64 + value_of(node, b, near) as u64 > u32::MAX as u64
        }
        Form::Difference(a, b) => value_of(node, a, near) < value_of(node, b, near),
        Form::Product(a, b) => {
            value_of(node, a, near) as u64 * value_of(node, b, near) as u64 > u32::MAX as u64
        }
        Form::Total(e) => plain_total(node, e) > u32::MAX as u64,
    }
}

/// Whether that is so at some neighbour.
fn is_outside_somewhere(node: &Node<'_>, form: Form<'_>) -> bool
    requires few { length node.now.nears.now ≤ 4294967295 }
    ensures exact { result ≡ list_any (is_outside_lem (here_of node.now) (form_of form.entry)) node.now.nears.now }
{
    for near in node.nears {
        if is_outside(node, form, near) {
            return true;
        }
    }
    false
}

/// Whether an operator is cut at a node.
pub(crate) fn is_cut(node: &Node<'_>, operator: Operator<'_>) -> bool
    requires few { length node.now.nears.now ≤ 4294967295 }
    ensures exact { result ≡ is_cut_lem (here_of node.now) (operator_of operator.entry) }
{
    if operator.within {
        return is_outside_somewhere(node, operator.form);
    }
    let alone = Near {
        id: node.id,
        weight: 0,
        state: node.own,
    };
    is_outside(node, operator.form, &alone)
}
