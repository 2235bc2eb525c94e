//! Terms put in the place of parameters.

ghost use Rattle.std.specs.Prelude.{◌≡◌, ◌≢◌, ◌+◌, ◌<◌, IfErr, IfOk, OnOk, slice_get};
ghost use Rattle.model_rules.specs.declared.fault.ExpandFault.TheVariants.{Memory};
ghost use Rattle.model_rules.specs.Parts.{size, size_put, filled_parts};
ghost use Rattle.model_rules.specs.Refusals.{item_at, parts_left, IsTooLong};
ghost use Rattle.model_rules.specs.Terms.{filled, term_or};
ghost use Rattle.model_rules.specs.TermView.{term_of, terms_of};

use crate::fault::ExpandFault;
use crate::room::Room;
use crate::term::Term;

/// An equal term.
#[cycle(copying)]
#[tactic(auto, using(crate::proofs::Parts::size_some))]
pub fn copy(term: &Term, room: &mut Room) -> Result<Term, ExpandFault>
    ensures exact { IfOk result (λ t. term_of t ≡ term_of term.now) }
    ensures item { item_at room.new ≡ item_at room.old }
    ensures taken { OnOk result (parts_left room.new + size (term_of term.now) ≡ parts_left room.old) }
    ensures refused { IfErr result (IsTooLong (item_at room.old)) }
    ensures many { IfErr result (λ fault. fault ≢ Memory → parts_left room.old < size (term_of term.now)) }
{
    room.take()?;
    match term {
        Term::Number(n) => Ok(Term::Number(*n)),
        Term::Own(name) => Ok(Term::Own(String::from_str(room.alloc, name)?)),
        Term::Id => Ok(Term::Id),
        Term::Degree => Ok(Term::Degree),
        Term::Round => Ok(Term::Round),
        Term::Parameter(k) => Ok(Term::Parameter(*k)),
        Term::Near(name) => Ok(Term::Near(String::from_str(room.alloc, name)?)),
        Term::NearId => Ok(Term::NearId),
        Term::NearWeight => Ok(Term::NearWeight),
        Term::Infix(op, a, b) => {
            let a = copy_boxed(a, room)?;
            let b = copy_boxed(b, room)?;
            Ok(Term::Infix(*op, a, b))
        }
        Term::Not(a) => Ok(Term::Not(copy_boxed(a, room)?)),
        Term::Over(agg, a) => Ok(Term::Over(*agg, copy_boxed(a, room)?)),
        Term::Choice(a, b, c) => {
            let a = copy_boxed(a, room)?;
            let b = copy_boxed(b, room)?;
            let c = copy_boxed(c, room)?;
            Ok(Term::Choice(a, b, c))
        }
    }
}

/// An equal term in a box.
#[cycle(copying)]
fn copy_boxed(term: &Term, room: &mut Room) -> Result<Box<Term>, ExpandFault>
    ensures exact { IfOk result (λ t. term_of t.value ≡ term_of term.now) }
    ensures item { item_at room.new ≡ item_at room.old }
    ensures taken { OnOk result (parts_left room.new + size (term_of term.now) ≡ parts_left room.old) }
    ensures refused { IfErr result (IsTooLong (item_at room.old)) }
    ensures many { IfErr result (λ fault. fault ≢ Memory → parts_left room.old < size (term_of term.now)) }
{
    let made = copy(term, room)?;
    Ok(Box::new(room.alloc, made)?)
}

/// The argument at this place, or 0 where there is none.
fn argument(arguments: &[Term], k: usize, room: &mut Room) -> Result<Term, ExpandFault>
    ensures exact { IfOk result (λ t. term_of t ≡ term_or (slice_get (terms_of arguments.now) k)) }
    ensures item { item_at room.new ≡ item_at room.old }
    ensures taken { OnOk result (parts_left room.new + size_put (slice_get (terms_of arguments.now) k) ≡ parts_left room.old) }
    ensures refused { IfErr result (IsTooLong (item_at room.old)) }
    ensures many { IfErr result (λ fault. fault ≢ Memory → parts_left room.old < size_put (slice_get (terms_of arguments.now) k)) }
{
    match arguments.get(k) {
        Some(term) => copy(term, room),
        None => Ok(Term::Number(0)),
    }
}

/// The term with the arguments in place of its parameters.
#[cycle(filling)]
#[tactic(auto, using(crate::proofs::Parts::filled_some, crate::proofs::Parts::put_none, crate::proofs::Parts::put_one, crate::proofs::Parts::put_both))]
pub fn fill(term: &Term, arguments: &[Term], room: &mut Room) -> Result<Term, ExpandFault>
    ensures exact { IfOk result (λ t. term_of t ≡ filled (terms_of arguments.now) (term_of term.now)) }
    ensures item { item_at room.new ≡ item_at room.old }
    ensures taken { OnOk result (parts_left room.new + filled_parts (terms_of arguments.now) (term_of term.now) ≡ parts_left room.old) }
    ensures refused { IfErr result (IsTooLong (item_at room.old)) }
    ensures many { IfErr result (λ fault. fault ≢ Memory → parts_left room.old < filled_parts (terms_of arguments.now) (term_of term.now)) }
{
    room.take()?;
    match term {
        Term::Number(n) => Ok(Term::Number(*n)),
        Term::Own(name) => Ok(Term::Own(String::from_str(room.alloc, name)?)),
        Term::Id => Ok(Term::Id),
        Term::Degree => Ok(Term::Degree),
        Term::Round => Ok(Term::Round),
        Term::Parameter(k) => argument(arguments, *k, room),
        Term::Near(name) => Ok(Term::Near(String::from_str(room.alloc, name)?)),
        Term::NearId => Ok(Term::NearId),
        Term::NearWeight => Ok(Term::NearWeight),
        Term::Infix(op, a, b) => {
            let a = fill_boxed(a, arguments, room)?;
            let b = fill_boxed(b, arguments, room)?;
            Ok(Term::Infix(*op, a, b))
        }
        Term::Not(a) => Ok(Term::Not(fill_boxed(a, arguments, room)?)),
        Term::Over(agg, a) => Ok(Term::Over(*agg, fill_boxed(a, arguments, room)?)),
        Term::Choice(a, b, c) => {
            let a = fill_boxed(a, arguments, room)?;
            let b = fill_boxed(b, arguments, room)?;
            let c = fill_boxed(c, arguments, room)?;
            Ok(Term::Choice(a, b, c))
        }
    }
}

/// A term with the arguments in place of its parameters, in a box.
#[cycle(filling)]
fn fill_boxed(term: &Term, arguments: &[Term], room: &mut Room) -> Result<Box<Term>, ExpandFault>
    ensures exact { IfOk result (λ t. term_of t.value ≡ filled (terms_of arguments.now) (term_of term.now)) }
    ensures item { item_at room.new ≡ item_at room.old }
    ensures taken { OnOk result (parts_left room.new + filled_parts (terms_of arguments.now) (term_of term.now) ≡ parts_left room.old) }
    ensures refused { IfErr result (IsTooLong (item_at room.old)) }
    ensures many { IfErr result (λ fault. fault ≢ Memory → parts_left room.old < filled_parts (terms_of arguments.now) (term_of term.now)) }
{
    let made = fill(term, arguments, room)?;
    Ok(Box::new(room.alloc, made)?)
}
