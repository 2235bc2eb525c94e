//! What a rule's expression has to be, so that the program is accepted.

ghost use Rattle.std.specs.Prelude.{◌≡◌, min, map, length, string_bytes, None, Some, IfErr, OnOk};
ghost use Rattle.rule_lang.specs.View.{tree_of};
ghost use Rattle.rule_lang.specs.Tree.{depth};
ghost use Rattle.rule_check.specs.Table.{M};
ghost use Rattle.rule_check.specs.Value.{parts};
ghost use Rattle.rule_check.specs.WellFormed.{names_unknown, looks_outside, nests};
ghost use Rattle.model_rules.specs.Terms.{lowered};
ghost use Rattle.model_rules.specs.TermView.{term_of};
ghost use Rattle.model_rules.specs.Bounds.{IsAllowed, form_cause};
ghost use Rattle.model_rules.specs.FirstFaults.{told_at};

use crate::fault::{Cause, ExpandFault, wrong};
use crate::scope::place_of;
use crate::term::Term;
use rule_lang::Expr;

/// Whether the expression has a name that is no field's.
fn has_unknown(fields: &[String], e: &Expr) -> bool
    ensures exact { result ≡ names_unknown (map string_bytes fields.now) (tree_of e.now) }
{
    match e {
        Expr::Number(_) | Expr::Id | Expr::Degree | Expr::Round | Expr::NearId | Expr::NearWeight =>
            false,
        Expr::Own(name) => place_of(fields, name).is_none(),
        Expr::Near(name) => place_of(fields, name).is_none(),
        Expr::Infix(_, a, b) => has_unknown(fields, a) || has_unknown(fields, b),
        Expr::Not(a) => has_unknown(fields, a),
        Expr::Over(_, a) => has_unknown(fields, a),
        Expr::Choice(a, b, c) => {
            has_unknown(fields, a) || has_unknown(fields, b) || has_unknown(fields, c)
        }
    }
}

/// Whether the expression names the neighbour outside of an aggregate.
fn names_neighbour(e: &Expr) -> bool
    ensures exact { result ≡ looks_outside (tree_of e.now) }
{
    match e {
        Expr::Number(_) | Expr::Own(_) | Expr::Id | Expr::Degree | Expr::Round | Expr::Over(_, _) =>
            false,
        Expr::Near(_) | Expr::NearId | Expr::NearWeight => true,
        Expr::Infix(_, a, b) => names_neighbour(a) || names_neighbour(b),
        Expr::Not(a) => names_neighbour(a),
        Expr::Choice(a, b, c) => names_neighbour(a) || names_neighbour(b) || names_neighbour(c),
    }
}

/// How many aggregates the expression has, those inside of others aside, as far as a word counts.
pub fn aggregates_in(e: &Expr) -> u32
    ensures exact { result ≡ min (length (parts (tree_of e.now))) M }
{
    match e {
        Expr::Over(_, _) => 1,
        Expr::Infix(_, a, b) => aggregates_in(a).saturating_add(aggregates_in(b)),
        Expr::Not(a) => aggregates_in(a),
        Expr::Choice(a, b, c) => {
            aggregates_in(a).saturating_add(aggregates_in(b).saturating_add(aggregates_in(c)))
        }
        Expr::Number(_)
        | Expr::Own(_)
        | Expr::Id
        | Expr::Degree
        | Expr::Round
        | Expr::Near(_)
        | Expr::NearId
        | Expr::NearWeight => 0,
    }
}

/// Whether an aggregate stands in an aggregate.
fn has_nested(e: &Expr) -> bool
    ensures exact { result ≡ nests (tree_of e.now) }
{
    match e {
        Expr::Number(_)
        | Expr::Own(_)
        | Expr::Id
        | Expr::Degree
        | Expr::Round
        | Expr::Near(_)
        | Expr::NearId
        | Expr::NearWeight => false,
        Expr::Over(_, a) => aggregates_in(a) > 0,
        Expr::Infix(_, a, b) => has_nested(a) || has_nested(b),
        Expr::Not(a) => has_nested(a),
        Expr::Choice(a, b, c) => has_nested(a) || has_nested(b) || has_nested(c),
    }
}

/// The depth of the expression that a term is, as far as a word counts.
pub fn depth_of(term: &Term) -> u32
    ensures exact { result ≡ min (depth (lowered (term_of term.now))) M }
{
    match term {
        Term::Number(_)
        | Term::Own(_)
        | Term::Id
        | Term::Degree
        | Term::Round
        | Term::Parameter(_)
        | Term::Near(_)
        | Term::NearId
        | Term::NearWeight => 1,
        Term::Infix(_, a, b) => depth_of(a).max(depth_of(b)).saturating_add(1),
        Term::Not(a) => depth_of(a).saturating_add(1),
        Term::Over(_, a) => depth_of(a).saturating_add(1),
        Term::Choice(a, b, c) => {
            let most = depth_of(b).max(depth_of(c));
            depth_of(a).max(most).saturating_add(1)
        }
    }
}

/// The expression is one that a program with these fields may have.
pub fn check_form(e: &Expr, fields: &[String], at: u32) -> Result<(), ExpandFault>
    ensures allowed { OnOk result (IsAllowed (map string_bytes fields.now) (tree_of e.now)) }
    ensures faultless { OnOk result (form_cause (map string_bytes fields.now) (tree_of e.now) ≡ None) }
    ensures refused { IfErr result (λ fault. told_at at (form_cause (map string_bytes fields.now) (tree_of e.now)) ≡ Some fault) }
{
    if has_unknown(fields, e) {
        return Err(wrong(Cause::UnknownName, at));
    }
    if names_neighbour(e) {
        return Err(wrong(Cause::NeighbourOutside, at));
    }
    if has_nested(e) {
        return Err(wrong(Cause::NestedAggregate, at));
    }
    Ok(())
}
