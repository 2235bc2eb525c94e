//! What a term looks at.

ghost use Rattle.std.specs.Prelude.{◌≡◌};
ghost use Rattle.model_rules.specs.Terms.{gathers, looks, knows_degree};
ghost use Rattle.model_rules.specs.TermView.{term_of};

use crate::term::Term;

/// Whether an aggregate stands in the term.
pub fn has_aggregate(term: &Term) -> bool
    ensures exact { result ≡ gathers (term_of term.now) }
{
    match term {
        Term::Over(_, _) => true,
        Term::Infix(_, a, b) => has_aggregate(a) || has_aggregate(b),
        Term::Not(a) => has_aggregate(a),
        Term::Choice(a, b, c) => has_aggregate(a) || has_aggregate(b) || has_aggregate(c),
        Term::Number(_)
        | Term::Own(_)
        | Term::Id
        | Term::Degree
        | Term::Round
        | Term::Parameter(_)
        | Term::Near(_)
        | Term::NearId
        | Term::NearWeight => false,
    }
}

/// Whether the neighbour is named outside of an aggregate.
pub fn looks_outside(term: &Term) -> bool
    ensures exact { result ≡ looks (term_of term.now) }
{
    match term {
        Term::Near(_) | Term::NearId | Term::NearWeight => true,
        Term::Infix(_, a, b) => looks_outside(a) || looks_outside(b),
        Term::Not(a) => looks_outside(a),
        Term::Choice(a, b, c) => looks_outside(a) || looks_outside(b) || looks_outside(c),
        Term::Number(_)
        | Term::Own(_)
        | Term::Id
        | Term::Degree
        | Term::Round
        | Term::Parameter(_)
        | Term::Over(_, _) => false,
    }
}

/// Whether the degree or an aggregate stands in the term, so that a neighbour's value of it isn't known.
pub fn needs_neighbours(term: &Term) -> bool
    ensures exact { result ≡ knows_degree (term_of term.now) }
{
    match term {
        Term::Degree | Term::Over(_, _) => true,
        Term::Infix(_, a, b) => needs_neighbours(a) || needs_neighbours(b),
        Term::Not(a) => needs_neighbours(a),
        Term::Choice(a, b, c) => needs_neighbours(a) || needs_neighbours(b) || needs_neighbours(c),
        Term::Number(_)
        | Term::Own(_)
        | Term::Id
        | Term::Round
        | Term::Parameter(_)
        | Term::Near(_)
        | Term::NearId
        | Term::NearWeight => false,
    }
}
