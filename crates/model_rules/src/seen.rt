//! Terms as seen from a neighbour.

ghost use Rattle.std.specs.Prelude.{◌≡◌, ◌≢◌, ◌+◌, ◌<◌, IfErr, IfOk, OnOk};
ghost use Rattle.model_rules.specs.declared.fault.ExpandFault.TheVariants.{Memory};
ghost use Rattle.model_rules.specs.Parts.{size};
ghost use Rattle.model_rules.specs.Refusals.{item_at, parts_left, IsTooLong};
ghost use Rattle.model_rules.specs.Terms.{seen_near};
ghost use Rattle.model_rules.specs.TermView.{term_of};

use crate::fault::ExpandFault;
use crate::room::Room;
use crate::term::Term;

/// The term as seen from a neighbour: of its fields and its number. What a neighbour does not know is 0,
/// and so are parameters.
#[cycle(seeing)]
#[tactic(auto, using(crate::proofs::Parts::seen_some))]
pub fn seen(term: &Term, room: &mut Room) -> Result<Term, ExpandFault>
    ensures exact { IfOk result (λ t. term_of t ≡ seen_near (term_of term.now)) }
    ensures item { item_at room.new ≡ item_at room.old }
    ensures taken { OnOk result (parts_left room.new + size (seen_near (term_of term.now)) ≡ parts_left room.old) }
    ensures refused { IfErr result (IsTooLong (item_at room.old)) }
    ensures many { IfErr result (λ fault. fault ≢ Memory → parts_left room.old < size (seen_near (term_of term.now))) }
{
    room.take()?;
    match term {
        Term::Number(n) => Ok(Term::Number(*n)),
        Term::Own(name) => Ok(Term::Near(String::from_str(room.alloc, name)?)),
        Term::Id => Ok(Term::NearId),
        Term::Round => Ok(Term::Round),
        Term::Degree
        | Term::Parameter(_)
        | Term::Near(_)
        | Term::NearId
        | Term::NearWeight
        | Term::Over(_, _) => Ok(Term::Number(0)),
        Term::Infix(op, a, b) => {
            let a = seen_boxed(a, room)?;
            let b = seen_boxed(b, room)?;
            Ok(Term::Infix(*op, a, b))
        }
        Term::Not(a) => Ok(Term::Not(seen_boxed(a, room)?)),
        Term::Choice(a, b, c) => {
            let a = seen_boxed(a, room)?;
            let b = seen_boxed(b, room)?;
            let c = seen_boxed(c, room)?;
            Ok(Term::Choice(a, b, c))
        }
    }
}

/// A term as seen from a neighbour, in a box.
#[cycle(seeing)]
fn seen_boxed(term: &Term, room: &mut Room) -> Result<Box<Term>, ExpandFault>
    ensures exact { IfOk result (λ t. term_of t.value ≡ seen_near (term_of term.now)) }
    ensures item { item_at room.new ≡ item_at room.old }
    ensures taken { OnOk result (parts_left room.new + size (seen_near (term_of term.now)) ≡ parts_left room.old) }
    ensures refused { IfErr result (IsTooLong (item_at room.old)) }
    ensures many { IfErr result (λ fault. fault ≢ Memory → parts_left room.old < size (seen_near (term_of term.now))) }
{
    let made = seen(term, room)?;
    Ok(Box::new(room.alloc, made)?)
}
