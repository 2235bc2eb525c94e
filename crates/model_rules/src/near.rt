//! Forms of the neighbour.

ghost use Rattle.std.specs.Prelude.{◌≡◌, IfErr, IfOk, OnOk, Some, None};
ghost use Rattle.model_rules.specs.FirstFaults.{outside_cause, told_at};
ghost use Rattle.model_rules.specs.TermView.{term_of};
ghost use Rattle.model_rules.specs.Terms.{NearIdTerm, NearWeightTerm};

use crate::fault::ExpandFault;
use crate::names::inside_only;
use crate::term::Term;

/// The term of `n.id`.
pub fn near_id(inside: bool, at: u32) -> Result<Term, ExpandFault>
    ensures exact { IfOk result (λ t. term_of t ≡ NearIdTerm) }
    ensures faultless { OnOk result (outside_cause inside ≡ None) }
    ensures refused { IfErr result (λ fault. told_at at (outside_cause inside) ≡ Some fault) }
{
    inside_only(inside, at)?;
    Ok(Term::NearId)
}

/// The term of `n.weight`.
pub fn near_weight(inside: bool, at: u32) -> Result<Term, ExpandFault>
    ensures exact { IfOk result (λ t. term_of t ≡ NearWeightTerm) }
    ensures faultless { OnOk result (outside_cause inside ≡ None) }
    ensures refused { IfErr result (λ fault. told_at at (outside_cause inside) ≡ Some fault) }
{
    inside_only(inside, at)?;
    Ok(Term::NearWeight)
}
