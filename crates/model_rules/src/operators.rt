//! Terms of operators and of functions that the notation has.

ghost use Rattle.std.specs.Prelude.{◌≡◌, ◌≢◌, ◌+◌, ◌<◌, IfErr, IfOk, OnOk};
ghost use Rattle.model_rules.specs.declared.fault.ExpandFault.TheVariants.{Memory};
ghost use Rattle.model_rules.specs.Parts.{size};
ghost use Rattle.model_text.specs.View.{arguments_of};
ghost use Rattle.model_rules.specs.TermView.{term_of};
ghost use Rattle.model_rules.specs.Terms.{InfixTerm, OverTerm, ChoiceTerm, is_test, is_tested, tested, parted};
ghost use Rattle.model_rules.specs.Refusals.{item_at, parts_left, IsTooLong};
ghost use Rattle.model_rules.specs.Operators.{combined, kind_of, is_end};

use crate::fault::ExpandFault;
use crate::fill::copy;
use crate::room::Room;
use crate::term::Term;
use model_text::{Arguments, Function, Operator};
use rule_lang::{Agg, Op};
use std::alloc::{AllocError, Global};

/// Whether the operator gives 0 or 1 only.
fn tests(op: Op) -> bool
    ensures exact { result ≡ is_test op }
{
    matches!(
        op,
        Op::Equal | Op::Differ | Op::Less | Op::LessEq | Op::Greater | Op::GreaterEq
    )
}

/// Whether the term is a form that gives 0 or 1 only.
fn gives_truth(term: &Term) -> bool
    ensures exact { result ≡ is_tested (term_of term.now) }
{
    match term {
        Term::Infix(op, _, _) => tests(*op),
        Term::Not(_) => true,
        _ => false,
    }
}

/// A term that is 1 where this is not 0, and else 0.
fn truth(term: Term, alloc: Global) -> Result<Term, AllocError>
    ensures exact { IfOk result (λ t. term_of t ≡ tested (term_of term)) }
{
    if gives_truth(&term) {
        return Ok(term);
    }
    let zero = Box::new(alloc, Term::Number(0))?;
    Ok(Term::Infix(Op::Differ, Box::new(alloc, term)?, zero))
}

/// Two terms with an operator of the rule language between them.
pub fn between(op: Op, left: Term, right: Term, alloc: Global) -> Result<Term, AllocError>
    ensures exact { IfOk result (λ t. term_of t ≡ InfixTerm op (term_of left) (term_of right)) }
{
    let left = Box::new(alloc, left)?;
    Ok(Term::Infix(op, left, Box::new(alloc, right)?))
}

/// The term of two parts with an operator between them.
pub fn infix_term(
    operator: Operator,
    left: Term,
    right: Term,
    alloc: Global,
) -> Result<Term, AllocError>
    ensures exact { IfOk result (λ t. term_of t ≡ combined operator (term_of left) (term_of right)) }
{
    match operator {
        Operator::Or => between(Op::Max, truth(left, alloc)?, truth(right, alloc)?, alloc),
        Operator::And => between(Op::Min, truth(left, alloc)?, truth(right, alloc)?, alloc),
        Operator::Equal => between(Op::Equal, left, right, alloc),
        Operator::Differ => between(Op::Differ, left, right, alloc),
        Operator::Less => between(Op::Less, left, right, alloc),
        Operator::LessEq => between(Op::LessEq, left, right, alloc),
        Operator::Greater => between(Op::Greater, left, right, alloc),
        Operator::GreaterEq => between(Op::GreaterEq, left, right, alloc),
        Operator::BitOr => between(Op::BitOr, left, right, alloc),
        Operator::BitXor => between(Op::BitXor, left, right, alloc),
        Operator::BitAnd => between(Op::BitAnd, left, right, alloc),
        Operator::Plus => between(Op::Plus, left, right, alloc),
        Operator::Minus => between(Op::Minus, left, right, alloc),
        Operator::Times => between(Op::Times, left, right, alloc),
        Operator::Quot => between(Op::Quot, left, right, alloc),
        Operator::Rem => between(Op::Rem, left, right, alloc),
    }
}

/// An aggregate of a term.
pub fn over_term(agg: Agg, part: Term, alloc: Global) -> Result<Term, AllocError>
    ensures exact { IfOk result (λ t. term_of t ≡ OverTerm agg (term_of part)) }
{
    Ok(Term::Over(agg, Box::new(alloc, part)?))
}

/// The term of a choice.
pub fn choice(test: Term, yes: Term, no: Term, alloc: Global) -> Result<Term, AllocError>
    ensures exact { IfOk result (λ t. term_of t ≡ ChoiceTerm (term_of test) (term_of yes) (term_of no)) }
{
    let test = Box::new(alloc, test)?;
    let yes = Box::new(alloc, yes)?;
    Ok(Term::Choice(test, yes, Box::new(alloc, no)?))
}

/// The term of the distance between two numbers.
pub fn distance(left: Term, right: Term, room: &mut Room) -> Result<Term, ExpandFault>
    ensures exact { IfOk result (λ t. term_of t ≡ parted (term_of left) (term_of right)) }
    ensures item { item_at room.new ≡ item_at room.old }
    ensures taken { OnOk result (parts_left room.new + (size (term_of left) + size (term_of right)) ≡ parts_left room.old) }
    ensures refused { IfErr result (IsTooLong (item_at room.old)) }
    ensures many { IfErr result (λ fault. fault ≢ Memory → parts_left room.old < size (term_of left) + size (term_of right)) }
{
    let same_left = copy(&left, room)?;
    let same_right = copy(&right, room)?;
    let above = between(Op::Minus, left, right, room.alloc)?;
    let below = between(Op::Minus, same_right, same_left, room.alloc)?;
    Ok(between(Op::Max, above, below, room.alloc)?)
}

/// What a random number is drawn for, in each round anew.
#[derive(Clone, Copy)]
pub enum Source {
    /// A node.
    Node,
    /// A link.
    Link,
}

/// What a function of the notation does with its arguments.
#[derive(Clone, Copy)]
pub enum CallKind {
    /// An aggregate of the one argument.
    Gather(Agg),
    /// All arguments with an operator between them.
    Join(Op),
    /// The distance of two arguments.
    Distance,
    /// A random number.
    Draw(Source),
}

/// What a function of the notation does with its arguments.
pub fn call_kind(function: Function) -> CallKind
    ensures exact { result ≡ kind_of function }
{
    match function {
        Function::Total | Function::Sum => CallKind::Gather(Agg::Total),
        Function::Least => CallKind::Gather(Agg::Least),
        Function::Most => CallKind::Gather(Agg::Most),
        Function::Count => CallKind::Gather(Agg::Count),
        Function::Any => CallKind::Gather(Agg::Some1),
        Function::All => CallKind::Gather(Agg::Every),
        Function::Min => CallKind::Join(Op::Min),
        Function::Max => CallKind::Join(Op::Max),
        Function::Difference => CallKind::Distance,
        Function::Random => CallKind::Draw(Source::Node),
        Function::LinkRandom => CallKind::Draw(Source::Link),
    }
}

/// Whether there is no argument more.
pub fn ends(arguments: &Arguments) -> bool
    ensures exact { result ≡ is_end (arguments_of arguments.now) }
{
    match arguments {
        Arguments::End => true,
        Arguments::Argument { .. } => false,
    }
}
