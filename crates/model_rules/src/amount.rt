//! The values of constants.

ghost use Rattle.std.specs.Prelude.{◌≡◌, true, Some, None, IfErr, IfOk, OnOk};
ghost use Rattle.rule_check.specs.Table.{operate};
ghost use Rattle.model_rules.specs.declared.fault.Cause.TheVariants.{OutOfRange};
ghost use Rattle.model_rules.specs.declared.fault.ExpandFault.TheVariants.{At};
ghost use Rattle.model_rules.specs.Constants.{amount_in, operator_cause, is_plain, is_fixed, part_cause, amount_cause};
ghost use Rattle.model_rules.specs.FirstFaults.{told_at};
ghost use Rattle.model_rules.specs.TermView.{term_of};

use crate::fault::{Cause, ExpandFault, wrong};
use crate::term::Term;
use rule_lang::Op;

/// The value, where it is a word.
fn in_range(value: Option<u32>, at: u32) -> Result<u32, ExpandFault>
    ensures same { IfOk result (λ v. value ≡ Some v) }
    ensures refused { IfErr result (λ fault. (value ≡ None) × (fault ≡ At OutOfRange at)) }
{
    match value {
        Some(value) => Ok(value),
        None => Err(wrong(Cause::OutOfRange, at)),
    }
}

/// A sum, a difference, a product, a quotient or a remainder, where it is a word without being cut.
fn computed(op: Op, left: u32, right: u32, at: u32) -> Result<u32, ExpandFault>
    ensures exact { IfOk result (λ v. v ≡ operate op left right) }
    ensures faultless { OnOk result (operator_cause op left right ≡ None) }
    ensures refused { IfErr result (λ fault. told_at at (operator_cause op left right) ≡ Some fault) }
{
    match op {
        Op::Plus => in_range(left.checked_add(right), at),
        Op::Minus => in_range(left.checked_sub(right), at),
        Op::Times => in_range(left.checked_mul(right), at),
        Op::Quot => in_range(left.checked_div(right), at),
        Op::Rem => in_range(left.checked_rem(right), at),
        Op::BitAnd
        | Op::BitOr
        | Op::BitXor
        | Op::Equal
        | Op::Differ
        | Op::Less
        | Op::LessEq
        | Op::Greater
        | Op::GreaterEq
        | Op::Min
        | Op::Max => Err(wrong(Cause::NotConstant, at)),
    }
}

/// Whether the operator is one of `+ - * / %`.
fn is_plain(op: Op) -> bool
    ensures exact { result ≡ is_plain op }
{
    match op {
        Op::Plus | Op::Minus | Op::Times | Op::Quot | Op::Rem => true,
        Op::BitAnd
        | Op::BitOr
        | Op::BitXor
        | Op::Equal
        | Op::Differ
        | Op::Less
        | Op::LessEq
        | Op::Greater
        | Op::GreaterEq
        | Op::Min
        | Op::Max => false,
    }
}

/// Whether the term is made of numbers by `+ - * / %` alone: a constant.
pub fn is_fixed(term: &Term) -> bool
    ensures exact { result ≡ is_fixed (term_of term.now) }
{
    match term {
        Term::Number(_) => true,
        Term::Infix(op, left, right) => is_plain(*op) && is_fixed(left) && is_fixed(right),
        Term::Own(_)
        | Term::Id
        | Term::Degree
        | Term::Round
        | Term::Parameter(_)
        | Term::Near(_)
        | Term::NearId
        | Term::NearWeight
        | Term::Not(_)
        | Term::Over(_, _)
        | Term::Choice(_, _, _) => false,
    }
}

/// The number that a term is worth, part by part from the left, at a place of the text.
fn worked_out(term: &Term, at: u32) -> Result<u32, ExpandFault>
    ensures exact { IfOk result (λ v. v ≡ amount_in (term_of term.now)) }
    ensures faultless { OnOk result (part_cause (term_of term.now) ≡ None) }
    ensures refused { IfErr result (λ fault. told_at at (part_cause (term_of term.now)) ≡ Some fault) }
{
    match term {
        Term::Number(value) => Ok(*value),
        Term::Infix(op, left, right) => {
            let left = worked_out(left, at)?;
            let right = worked_out(right, at)?;
            let value = computed(*op, left, right, at)?;
            Ok(value)
        }
        Term::Own(_)
        | Term::Id
        | Term::Degree
        | Term::Round
        | Term::Parameter(_)
        | Term::Near(_)
        | Term::NearId
        | Term::NearWeight
        | Term::Not(_)
        | Term::Over(_, _)
        | Term::Choice(_, _, _) => Err(wrong(Cause::NotConstant, at)),
    }
}

/// The value of a constant, at a place of the text.
pub fn amount(term: &Term, at: u32) -> Result<u32, ExpandFault>
    ensures exact { IfOk result (λ v. v ≡ amount_in (term_of term.now)) }
    ensures fixed { OnOk result (is_fixed (term_of term.now) ≡ true) }
    ensures faultless { OnOk result (amount_cause (term_of term.now) ≡ None) }
    ensures refused { IfErr result (λ fault. told_at at (amount_cause (term_of term.now)) ≡ Some fault) }
{
    if !is_fixed(term) {
        return Err(wrong(Cause::NotConstant, at));
    }
    worked_out(term, at)
}
