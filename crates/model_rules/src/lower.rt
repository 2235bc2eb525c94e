//! From terms to expressions of the rule language.

ghost use Rattle.std.specs.Prelude.{◌≡◌, IfOk};
ghost use Rattle.rule_lang.specs.View.{tree_of};
ghost use Rattle.model_rules.specs.Terms.{lowered};
ghost use Rattle.model_rules.specs.TermView.{term_of};

use crate::term::Term;
use rule_lang::Expr;
use std::alloc::{AllocError, Global};

/// The expression that a term without parameters is.
#[cycle(lowering)]
pub fn lower(term: &Term, alloc: Global) -> Result<Expr, AllocError>
    ensures exact { IfOk result (λ e. tree_of e ≡ lowered (term_of term.now)) }
{
    match term {
        Term::Number(n) => Ok(Expr::Number(*n)),
        Term::Own(name) => Ok(Expr::Own(String::from_str(alloc, name)?)),
        Term::Id => Ok(Expr::Id),
        Term::Degree => Ok(Expr::Degree),
        Term::Round => Ok(Expr::Round),
        Term::Parameter(_) => Ok(Expr::Number(0)),
        Term::Near(name) => Ok(Expr::Near(String::from_str(alloc, name)?)),
        Term::NearId => Ok(Expr::NearId),
        Term::NearWeight => Ok(Expr::NearWeight),
        Term::Infix(op, a, b) => {
            let a = boxed(a, alloc)?;
            let b = boxed(b, alloc)?;
            Ok(Expr::Infix(*op, a, b))
        }
        Term::Not(a) => Ok(Expr::Not(boxed(a, alloc)?)),
        Term::Over(agg, a) => Ok(Expr::Over(*agg, boxed(a, alloc)?)),
        Term::Choice(a, b, c) => {
            let a = boxed(a, alloc)?;
            let b = boxed(b, alloc)?;
            let c = boxed(c, alloc)?;
            Ok(Expr::Choice(a, b, c))
        }
    }
}

/// That expression in a box.
#[cycle(lowering)]
fn boxed(term: &Term, alloc: Global) -> Result<Box<Expr>, AllocError>
    ensures exact { IfOk result (λ e. tree_of e.value ≡ lowered (term_of term.now)) }
{
    let expression = lower(term, alloc)?;
    Ok(Box::new(alloc, expression)?)
}
