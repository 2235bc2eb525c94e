//! From tokens to the tree of an expression.

ghost use Rattle.std.specs.Prelude.{◌≡◌, ◌≤◌, List, Some};
ghost use Rattle.model_text.specs.Tokens.{Placed};
ghost use Rattle.model_text.specs.Tree.{Tree, ApplyTree, CallTree, ChanceTree, ChanceOfTree, NameTree, NearTree};
ghost use Rattle.model_text.specs.View.{tree_of, arms_of, arguments_of, placed_all};
ghost use Rattle.model_text.specs.Causes.{Gives};
ghost use Rattle.model_text.specs.Grammar.{is_chain};
ghost use Rattle.model_text.specs.Reading.{◌>>=◌ as ◌and_then◌, parens_at, if_at, not_at, cases_at, named_at, chance_at, keyword_at, form_at, more_at, value_at, else_arm_at, one_arm_at, arm_at, argument_at, first_at, next_at, expr_at, arms_at, arguments_at, others_at, then_at, else_at, open_at};

use crate::expect::{
    behind_close, behind_else, brace_close, brace_open, close, colon, decimal, open, operator_at,
    operator_level, semicolon, word_else, word_then,
};
use crate::fault::Expected;
use crate::keyword::Keyword;
use crate::stuck::Stuck;
use crate::token::{Lexeme, Sign, Token};
use crate::tree::{Arguments, Arms, Decimal, Expr, Function, Operator};
use std::alloc::Global;

/// The level of `not`.
const NOT_LEVEL: u32 = 3;

/// Whether an operator after this part would be a comparison after a comparison.
fn is_chain(left: &Expr, operator: Operator) -> bool
    ensures { result ≡ is_chain (tree_of left.now) operator }
{
    match left {
        Expr::Infix {
            operator: first,
            ..
        } => { operator_level(*first) == 4 && operator_level(operator) == 4 }
        _ => false,
    }
}

/// An expression of at most this depth whose operators have this level at least, and the tokens
/// after it.
#[cycle(expression)]
#[tactic(auto, unfolding(crate::specs::Reading::expr_at))]
pub fn expression<'t, 'a>(
    alloc: Global,
    depth: u32,
    level: u32,
    tokens: &'t [Lexeme<'a>],
) -> Result<(Expr, &'t [Lexeme<'a>]), Stuck>
    requires { depth ≤ 100 }
    ensures { Gives (λ x. (tree_of x.0, placed_all x.1.now)) result (expr_at depth level (placed_all tokens.now)) }
{
    if depth == 0 {
        return Err(Stuck::before(tokens, Expected::Shallower));
    }
    let (left, rest) = form(alloc, depth - 1, level, tokens)?;
    more(alloc, depth - 1, depth - 1, level, left, rest)
}

/// A part: a whole expression in a box, and the tokens after it.
#[cycle(expression)]
fn part<'t, 'a>(
    alloc: Global,
    depth: u32,
    level: u32,
    tokens: &'t [Lexeme<'a>],
) -> Result<(Box<Expr>, &'t [Lexeme<'a>]), Stuck>
    requires { depth ≤ 100 }
    ensures { Gives (λ x. (tree_of x.0.value, placed_all x.1.now)) result (expr_at depth level (placed_all tokens.now)) }
{
    let (part, rest) = expression(alloc, depth, level, tokens)?;
    Ok((Box::new(alloc, part)?, rest))
}

/// The operators of this level and above after a left part, no more than `joins`, with their right parts.
#[cycle(expression)]
#[tactic(auto, unfolding(crate::specs::Reading::more_at))]
fn more<'t, 'a>(
    alloc: Global,
    depth: u32,
    joins: u32,
    level: u32,
    left: Expr,
    tokens: &'t [Lexeme<'a>],
) -> Result<(Expr, &'t [Lexeme<'a>]), Stuck>
    requires depth { depth ≤ 99 }
    requires joins { joins ≤ 99 }
    ensures { Gives (λ x. (tree_of x.0, placed_all x.1.now)) result (more_at (expr_at depth) joins level (tree_of left) (placed_all tokens.now)) }
{
    let Some((operator, at, rest)) = operator_at(tokens) else {
        return Ok((left, tokens));
    };
    if operator_level(operator) < level {
        return Ok((left, tokens));
    }
    if is_chain(&left, operator) {
        return Err(Stuck::before(tokens, Expected::NoChain));
    }
    if joins == 0 {
        return Err(Stuck::before(tokens, Expected::Shallower));
    }
    let (right, rest) = part(alloc, depth, operator_level(operator) + 1, rest)?;
    let left = Box::new(alloc, left)?;
    let infix = Expr::Infix {
        operator,
        at,
        left,
        right,
    };
    more(alloc, depth, joins - 1, level, infix, rest)
}

/// An expression up to its first operator, whose parts have at most this depth.
#[cycle(expression)]
#[tactic(auto, unfolding(crate::specs::Reading::form_at))]
fn form<'t, 'a>(
    alloc: Global,
    depth: u32,
    level: u32,
    tokens: &'t [Lexeme<'a>],
) -> Result<(Expr, &'t [Lexeme<'a>]), Stuck>
    requires { depth ≤ 99 }
    ensures { Gives (λ x. (tree_of x.0, placed_all x.1.now)) result (form_at (expr_at depth) (arms_at depth) (arguments_at depth) level (placed_all tokens.now)) }
{
    let [first, rest @ ..] = tokens else {
        return Err(Stuck::before(tokens, Expected::Expression));
    };
    let at = first.at;
    match first.token {
        Token::Number(value) => Ok((Expr::Number { value, at }, rest)),
        Token::Name(name) => named(alloc, depth, name, at, rest),
        Token::Near(name) => near(alloc, name, at, rest),
        Token::NearId => Ok((Expr::NearId { at }, rest)),
        Token::NearWeight => Ok((Expr::NearWeight { at }, rest)),
        Token::Keyword(keyword) => worded(alloc, depth, level, keyword, tokens.len(), at, rest),
        Token::Sign(Sign::Open) => parens(alloc, depth, at, rest),
        Token::Sign(_) | Token::Decimal(_) => Err(Stuck::before(tokens, Expected::Expression)),
    }
}

/// A name of the neighbour, before these tokens.
fn near<'t, 'a>(
    alloc: Global,
    name: &str,
    at: u32,
    tokens: &'t [Lexeme<'a>],
) -> Result<(Expr, &'t [Lexeme<'a>]), Stuck>
    ensures { Gives {Y = Tree × List Placed} (λ x. (tree_of x.0, placed_all x.1.now)) result (Some (NearTree name.now at, placed_all tokens.now)) }
{
    let name = String::from_str(alloc, name)?;
    Ok((Expr::Near { name, at }, tokens))
}

/// What follows the reserved word with which the last `left` tokens begin.
#[cycle(expression)]
#[tactic(auto, unfolding(crate::specs::Reading::keyword_at))]
fn worded<'t, 'a>(
    alloc: Global,
    depth: u32,
    level: u32,
    keyword: Keyword,
    left: usize,
    at: u32,
    tokens: &'t [Lexeme<'a>],
) -> Result<(Expr, &'t [Lexeme<'a>]), Stuck>
    requires { depth ≤ 99 }
    ensures { Gives (λ x. (tree_of x.0, placed_all x.1.now)) result (keyword_at (expr_at depth) (arms_at depth) (arguments_at depth) level keyword at (placed_all tokens.now)) }
{
    match keyword {
        Keyword::Nothing => Ok((Expr::Nothing { at }, tokens)),
        Keyword::Id => Ok((Expr::Id { at }, tokens)),
        Keyword::Degree => Ok((Expr::Degree { at }, tokens)),
        Keyword::Round => Ok((Expr::Round { at }, tokens)),
        Keyword::Not => not(alloc, depth, level, left, at, tokens),
        Keyword::If => choice(alloc, depth, at, tokens),
        Keyword::Cases => cases(alloc, depth, at, tokens),
        Keyword::Chance => chance(at, tokens),
        Keyword::ChanceOf => chance_of(at, tokens),
        Keyword::Function(function) => call(alloc, depth, function, at, tokens),
        _ => Err(Stuck::Token {
            left,
            expected: Expected::Expression,
        }),
    }
}

/// What follows `not`, with which the last `left` tokens begin.
#[cycle(expression)]
#[tactic(auto, unfolding(crate::specs::Reading::not_at))]
fn not<'t, 'a>(
    alloc: Global,
    depth: u32,
    level: u32,
    left: usize,
    at: u32,
    tokens: &'t [Lexeme<'a>],
) -> Result<(Expr, &'t [Lexeme<'a>]), Stuck>
    requires { depth ≤ 99 }
    ensures { Gives (λ x. (tree_of x.0, placed_all x.1.now)) result (not_at (expr_at depth) level at (placed_all tokens.now)) }
{
    if NOT_LEVEL < level {
        return Err(Stuck::Token {
            left,
            expected: Expected::Brackets,
        });
    }
    let (part, rest) = part(alloc, depth, NOT_LEVEL, tokens)?;
    Ok((Expr::Not { at, part }, rest))
}

/// What follows an opening bracket.
#[cycle(expression)]
#[tactic(auto, unfolding(crate::specs::Reading::parens_at))]
fn parens<'t, 'a>(
    alloc: Global,
    depth: u32,
    at: u32,
    tokens: &'t [Lexeme<'a>],
) -> Result<(Expr, &'t [Lexeme<'a>]), Stuck>
    requires { depth ≤ 99 }
    ensures { Gives (λ x. (tree_of x.0, placed_all x.1.now)) result (parens_at (expr_at depth) at (placed_all tokens.now)) }
{
    let (part, rest) = part(alloc, depth, 0, tokens)?;
    let rest = close(rest)?;
    Ok((Expr::Parens { at, part }, rest))
}

/// The word `then`, and a part.
#[cycle(expression)]
fn then_part<'t, 'a>(
    alloc: Global,
    depth: u32,
    tokens: &'t [Lexeme<'a>],
) -> Result<(Box<Expr>, &'t [Lexeme<'a>]), Stuck>
    requires { depth ≤ 99 }
    ensures { Gives (λ x. (tree_of x.0.value, placed_all x.1.now)) result (then_at (placed_all tokens.now) and_then expr_at depth 0) }
{
    let rest = word_then(tokens)?;
    part(alloc, depth, 0, rest)
}

/// The word `else`, and a part.
#[cycle(expression)]
fn else_part<'t, 'a>(
    alloc: Global,
    depth: u32,
    tokens: &'t [Lexeme<'a>],
) -> Result<(Box<Expr>, &'t [Lexeme<'a>]), Stuck>
    requires { depth ≤ 99 }
    ensures { Gives (λ x. (tree_of x.0.value, placed_all x.1.now)) result (else_at (placed_all tokens.now) and_then expr_at depth 0) }
{
    let rest = word_else(tokens)?;
    part(alloc, depth, 0, rest)
}

/// What follows `if`.
#[cycle(expression)]
#[tactic(auto, unfolding(crate::specs::Reading::if_at))]
fn choice<'t, 'a>(
    alloc: Global,
    depth: u32,
    at: u32,
    tokens: &'t [Lexeme<'a>],
) -> Result<(Expr, &'t [Lexeme<'a>]), Stuck>
    requires { depth ≤ 99 }
    ensures { Gives (λ x. (tree_of x.0, placed_all x.1.now)) result (if_at (expr_at depth) at (placed_all tokens.now)) }
{
    let (test, rest) = part(alloc, depth, 0, tokens)?;
    let (yes, rest) = then_part(alloc, depth, rest)?;
    let (no, rest) = else_part(alloc, depth, rest)?;
    let choice = Expr::If { at, test, yes, no };
    Ok((choice, rest))
}

/// What follows `cases`.
#[cycle(expression)]
#[tactic(auto, unfolding(crate::specs::Reading::cases_at))]
fn cases<'t, 'a>(
    alloc: Global,
    depth: u32,
    at: u32,
    tokens: &'t [Lexeme<'a>],
) -> Result<(Expr, &'t [Lexeme<'a>]), Stuck>
    requires { depth ≤ 99 }
    ensures { Gives (λ x. (tree_of x.0, placed_all x.1.now)) result (cases_at (arms_at depth) at (placed_all tokens.now)) }
{
    let rest = brace_open(tokens)?;
    let (arms, rest) = arms(alloc, depth, rest)?;
    Ok((Expr::Cases { at, arms }, rest))
}

/// Arms, to the closing brace.
#[cycle(expression)]
#[tactic(auto, unfolding(crate::specs::Reading::arms_at, crate::specs::Reading::arm_at))]
fn arms<'t, 'a>(
    alloc: Global,
    depth: u32,
    tokens: &'t [Lexeme<'a>],
) -> Result<(Box<Arms>, &'t [Lexeme<'a>]), Stuck>
    requires { depth ≤ 99 }
    ensures { Gives (λ x. (arms_of x.0.value, placed_all x.1.now)) result (arms_at depth (placed_all tokens.now)) }
{
    if depth == 0 {
        return Err(Stuck::before(tokens, Expected::Shallower));
    }
    match behind_else(tokens) {
        Some(rest) => else_arm(alloc, depth - 1, rest),
        None => one_arm(alloc, depth - 1, tokens),
    }
}

/// A colon, a value and a semicolon.
#[cycle(expression)]
#[tactic(auto, unfolding(crate::specs::Reading::value_at))]
fn valued<'t, 'a>(
    alloc: Global,
    depth: u32,
    tokens: &'t [Lexeme<'a>],
) -> Result<(Box<Expr>, &'t [Lexeme<'a>]), Stuck>
    requires { depth ≤ 99 }
    ensures { Gives (λ x. (tree_of x.0.value, placed_all x.1.now)) result (value_at (expr_at depth) (placed_all tokens.now)) }
{
    let rest = colon(tokens)?;
    let (value, rest) = part(alloc, depth, 0, rest)?;
    let rest = semicolon(rest)?;
    Ok((value, rest))
}

/// What follows the `else` of the last arm.
#[cycle(expression)]
#[tactic(auto, unfolding(crate::specs::Reading::else_arm_at))]
fn else_arm<'t, 'a>(
    alloc: Global,
    depth: u32,
    tokens: &'t [Lexeme<'a>],
) -> Result<(Box<Arms>, &'t [Lexeme<'a>]), Stuck>
    requires { depth ≤ 99 }
    ensures { Gives (λ x. (arms_of x.0.value, placed_all x.1.now)) result (else_arm_at (expr_at depth) (placed_all tokens.now)) }
{
    let (value, rest) = valued(alloc, depth, tokens)?;
    let rest = brace_close(rest)?;
    Ok((Box::new(alloc, Arms::Else { value })?, rest))
}

/// An arm with a test, and those after it.
#[cycle(expression)]
#[tactic(auto, unfolding(crate::specs::Reading::one_arm_at))]
fn one_arm<'t, 'a>(
    alloc: Global,
    depth: u32,
    tokens: &'t [Lexeme<'a>],
) -> Result<(Box<Arms>, &'t [Lexeme<'a>]), Stuck>
    requires { depth ≤ 99 }
    ensures { Gives (λ x. (arms_of x.0.value, placed_all x.1.now)) result (one_arm_at (expr_at depth) (arms_at depth) (placed_all tokens.now)) }
{
    let (test, rest) = part(alloc, depth, 0, tokens)?;
    let (value, rest) = valued(alloc, depth, rest)?;
    let (behind, rest) = arms(alloc, depth, rest)?;
    let arm = Arms::Arm {
        test,
        value,
        rest: behind,
    };
    Ok((Box::new(alloc, arm)?, rest))
}

/// What follows the word of a function: its arguments in brackets.
#[cycle(expression)]
fn call<'t, 'a>(
    alloc: Global,
    depth: u32,
    function: Function,
    at: u32,
    tokens: &'t [Lexeme<'a>],
) -> Result<(Expr, &'t [Lexeme<'a>]), Stuck>
    requires { depth ≤ 99 }
    ensures { Gives {Y = Tree × List Placed} (λ x. (tree_of x.0, placed_all x.1.now)) result ((open_at (placed_all tokens.now) and_then arguments_at depth) and_then λ a. Some (CallTree function at a.0, a.1)) }
{
    let rest = open(tokens)?;
    let (arguments, rest) = arguments(alloc, depth, rest)?;
    let call = Expr::Call {
        function,
        at,
        arguments,
    };
    Ok((call, rest))
}

/// What follows a name: arguments in brackets, or nothing of the same expression.
#[cycle(expression)]
#[tactic(auto, unfolding(crate::specs::Reading::named_at))]
fn named<'t, 'a>(
    alloc: Global,
    depth: u32,
    name: &str,
    at: u32,
    tokens: &'t [Lexeme<'a>],
) -> Result<(Expr, &'t [Lexeme<'a>]), Stuck>
    requires { depth ≤ 99 }
    ensures { Gives (λ x. (tree_of x.0, placed_all x.1.now)) result (named_at (arguments_at depth) name.now at (placed_all tokens.now)) }
{
    match tokens {
        [
            Lexeme {
                token: Token::Sign(Sign::Open),
                ..
            },
            rest @ ..,
        ] => application(alloc, depth, name, at, rest),
        _ => plain(alloc, name, at, tokens),
    }
}

/// A name before these tokens, without arguments.
fn plain<'t, 'a>(
    alloc: Global,
    name: &str,
    at: u32,
    tokens: &'t [Lexeme<'a>],
) -> Result<(Expr, &'t [Lexeme<'a>]), Stuck>
    ensures { Gives {Y = Tree × List Placed} (λ x. (tree_of x.0, placed_all x.1.now)) result (Some (NameTree name.now at, placed_all tokens.now)) }
{
    let name = String::from_str(alloc, name)?;
    Ok((Expr::Name { name, at }, tokens))
}

/// A name and its arguments, which these tokens begin with.
#[cycle(expression)]
fn application<'t, 'a>(
    alloc: Global,
    depth: u32,
    name: &str,
    at: u32,
    tokens: &'t [Lexeme<'a>],
) -> Result<(Expr, &'t [Lexeme<'a>]), Stuck>
    requires { depth ≤ 99 }
    ensures { Gives {Y = Tree × List Placed} (λ x. (tree_of x.0, placed_all x.1.now)) result (arguments_at depth (placed_all tokens.now) and_then λ a. Some (ApplyTree name.now at a.0, a.1)) }
{
    let name = String::from_str(alloc, name)?;
    let (arguments, rest) = arguments(alloc, depth, tokens)?;
    let apply = Expr::Apply {
        name,
        at,
        arguments,
    };
    Ok((apply, rest))
}

/// Arguments, to the closing bracket.
#[cycle(expression)]
#[tactic(auto, unfolding(crate::specs::Reading::arguments_at, crate::specs::Reading::first_at))]
fn arguments<'t, 'a>(
    alloc: Global,
    depth: u32,
    tokens: &'t [Lexeme<'a>],
) -> Result<(Box<Arguments>, &'t [Lexeme<'a>]), Stuck>
    requires { depth ≤ 99 }
    ensures { Gives (λ x. (arguments_of x.0.value, placed_all x.1.now)) result (arguments_at depth (placed_all tokens.now)) }
{
    if depth == 0 {
        return Err(Stuck::before(tokens, Expected::Shallower));
    }
    match behind_close(tokens) {
        Some(rest) => Ok((Box::new(alloc, Arguments::End)?, rest)),
        None => argument(alloc, depth - 1, tokens),
    }
}

/// What follows an argument: the closing bracket, or a comma and more arguments.
#[cycle(expression)]
#[tactic(auto, unfolding(crate::specs::Reading::others_at, crate::specs::Reading::next_at))]
fn others<'t, 'a>(
    alloc: Global,
    depth: u32,
    tokens: &'t [Lexeme<'a>],
) -> Result<(Box<Arguments>, &'t [Lexeme<'a>]), Stuck>
    requires { depth ≤ 99 }
    ensures { Gives (λ x. (arguments_of x.0.value, placed_all x.1.now)) result (others_at depth (placed_all tokens.now)) }
{
    if depth == 0 {
        return Err(Stuck::before(tokens, Expected::Shallower));
    }
    match tokens {
        [
            Lexeme {
                token: Token::Sign(Sign::Close),
                ..
            },
            rest @ ..,
        ] => Ok((Box::new(alloc, Arguments::End)?, rest)),
        [
            Lexeme {
                token: Token::Sign(Sign::Comma),
                ..
            },
            rest @ ..,
        ] => argument(alloc, depth - 1, rest),
        _ => Err(Stuck::before(tokens, Expected::Comma)),
    }
}

/// An argument, and those after it.
#[cycle(expression)]
#[tactic(auto, unfolding(crate::specs::Reading::argument_at))]
fn argument<'t, 'a>(
    alloc: Global,
    depth: u32,
    tokens: &'t [Lexeme<'a>],
) -> Result<(Box<Arguments>, &'t [Lexeme<'a>]), Stuck>
    requires { depth ≤ 99 }
    ensures { Gives (λ x. (arguments_of x.0.value, placed_all x.1.now)) result (argument_at (expr_at depth) (others_at depth) (placed_all tokens.now)) }
{
    let (first, rest) = part(alloc, depth, 0, tokens)?;
    let (behind, rest) = others(alloc, depth, rest)?;
    let argument = Arguments::Argument {
        first,
        rest: behind,
    };
    Ok((Box::new(alloc, argument)?, rest))
}

/// A decimal in brackets.
#[tactic(auto, unfolding(crate::specs::Reading::chance_at))]
fn bracketed<'t, 'a>(tokens: &'t [Lexeme<'a>]) -> Result<(Decimal, &'t [Lexeme<'a>]), Stuck>
    ensures { Gives (λ x. (x.0, placed_all x.1.now)) result (chance_at (placed_all tokens.now)) }
{
    let rest = open(tokens)?;
    let (decimal, rest) = decimal(rest)?;
    let rest = close(rest)?;
    Ok((decimal, rest))
}

/// What follows `chance`.
fn chance<'t, 'a>(at: u32, tokens: &'t [Lexeme<'a>]) -> Result<(Expr, &'t [Lexeme<'a>]), Stuck>
    ensures { Gives {Y = Tree × List Placed} (λ x. (tree_of x.0, placed_all x.1.now)) result (chance_at (placed_all tokens.now) and_then λ d. Some (ChanceTree at d.0, d.1)) }
{
    let (decimal, rest) = bracketed(tokens)?;
    Ok((Expr::Chance { at, decimal }, rest))
}

/// What follows `chance_of`.
fn chance_of<'t, 'a>(at: u32, tokens: &'t [Lexeme<'a>]) -> Result<(Expr, &'t [Lexeme<'a>]), Stuck>
    ensures { Gives {Y = Tree × List Placed} (λ x. (tree_of x.0, placed_all x.1.now)) result (chance_at (placed_all tokens.now) and_then λ d. Some (ChanceOfTree at d.0, d.1)) }
{
    let (decimal, rest) = bracketed(tokens)?;
    Ok((Expr::ChanceOf { at, decimal }, rest))
}
