//! From tokens to the tree.

ghost use Rattle.std.specs.Prelude.{string_bytes};
ghost use Rattle.rule_lang.specs.View.{tree_of, item_of, items_of, toks_of};
ghost use Rattle.rule_lang.specs.Causes.{Gives, IsProgramOf};
ghost use Rattle.rule_lang.specs.Reading.{◌>>=◌ as ◌and_then◌, then_at, else_at, near_of, field_at, next_at, item_at, infix_at, choice_at, over_at, prefix_at, form_at, expr_at};

use crate::cause::Expected;
use crate::expect::{
    aggregate, assign, close, name, number, operator_at, semicolon, word_else, word_then,
};
use crate::keyword::{Keyword, reserved_word};
use crate::stuck::Stuck;
use crate::token::{Lexeme, Sign, Token};
use crate::tree::{Expr, Item};
use std::alloc::Global;

/// The greatest depth of an expression.
const NESTING: u32 = 64;

/// A form of a neighbour, by the word after `n.` with which these tokens begin.
#[tactic(auto, unfolding(crate::specs::Reading::near_of))]
fn near(alloc: Global, tokens: &[Lexeme], word: &str) -> Result<Expr, Stuck>
    ensures { Gives tree_of result (near_of word.now) }
{
    match reserved_word(word) {
        None => Ok(Expr::Near(String::from_str(alloc, word)?)),
        Some(Keyword::Id) => Ok(Expr::NearId),
        Some(Keyword::Weight) => Ok(Expr::NearWeight),
        Some(_) => Err(Stuck::before(tokens, Expected::NearForm)),
    }
}

/// An expression of at most this depth, and the tokens after it.
#[cycle(expression)]
#[tactic(auto, unfolding(crate::specs::Reading::expr_at, crate::specs::Reading::form_at))]
fn expression<'t, 'a>(
    alloc: Global,
    depth: u32,
    tokens: &'t [Lexeme<'a>],
) -> Result<(Expr, &'t [Lexeme<'a>]), Stuck>
    ensures { Gives (λ x. (tree_of x.0, toks_of x.1.now)) result (expr_at depth (toks_of tokens.now)) }
{
    if depth == 0 {
        return Err(Stuck::before(tokens, Expected::Shallower));
    }
    let [first, rest @ ..] = tokens else {
        return Err(Stuck::before(tokens, Expected::Expression));
    };
    match first.token {
        Token::Number(value) => Ok((Expr::Number(value), rest)),
        Token::Near(word) => Ok((near(alloc, tokens, word)?, rest)),
        Token::Word(word) => match reserved_word(word) {
            None => Ok((Expr::Own(String::from_str(alloc, word)?), rest)),
            Some(word) => prefix(alloc, depth - 1, tokens.len(), word, rest),
        },
        Token::Sign(Sign::Open) => infix(alloc, depth - 1, rest),
        Token::Sign(_) => Err(Stuck::before(tokens, Expected::Expression)),
    }
}

/// An expression of at most this depth, in a box, and the tokens after it.
#[cycle(expression)]
fn part<'t, 'a>(
    alloc: Global,
    depth: u32,
    tokens: &'t [Lexeme<'a>],
) -> Result<(Box<Expr>, &'t [Lexeme<'a>]), Stuck>
    ensures { Gives (λ x. (tree_of x.0.value, toks_of x.1.now)) result (expr_at depth (toks_of tokens.now)) }
{
    let (part, rest) = expression(alloc, depth, tokens)?;
    Ok((Box::new(alloc, part)?, rest))
}

/// The word `then`, and a part.
#[cycle(expression)]
fn then_part<'t, 'a>(
    alloc: Global,
    depth: u32,
    tokens: &'t [Lexeme<'a>],
) -> Result<(Box<Expr>, &'t [Lexeme<'a>]), Stuck>
    ensures { Gives (λ x. (tree_of x.0.value, toks_of x.1.now)) result (then_at (toks_of tokens.now) and_then expr_at depth) }
{
    let rest = word_then(tokens)?;
    part(alloc, depth, rest)
}

/// The word `else`, and a part.
#[cycle(expression)]
fn else_part<'t, 'a>(
    alloc: Global,
    depth: u32,
    tokens: &'t [Lexeme<'a>],
) -> Result<(Box<Expr>, &'t [Lexeme<'a>]), Stuck>
    ensures { Gives (λ x. (tree_of x.0.value, toks_of x.1.now)) result (else_at (toks_of tokens.now) and_then expr_at depth) }
{
    let rest = word_else(tokens)?;
    part(alloc, depth, rest)
}

/// What follows an opening bracket.
#[cycle(expression)]
#[tactic(auto, unfolding(crate::specs::Reading::infix_at))]
fn infix<'t, 'a>(
    alloc: Global,
    depth: u32,
    tokens: &'t [Lexeme<'a>],
) -> Result<(Expr, &'t [Lexeme<'a>]), Stuck>
    ensures { Gives (λ x. (tree_of x.0, toks_of x.1.now)) result (infix_at (expr_at depth) (toks_of tokens.now)) }
{
    let (left, rest) = part(alloc, depth, tokens)?;
    let (op, rest) = operator_at(rest)?;
    let (right, rest) = part(alloc, depth, rest)?;
    let rest = close(rest)?;
    Ok((Expr::Infix(op, left, right), rest))
}

/// What follows the reserved word, with which the last `left` tokens begin.
#[cycle(expression)]
#[tactic(auto, unfolding(crate::specs::Reading::prefix_at, crate::specs::Reading::over_at))]
fn prefix<'t, 'a>(
    alloc: Global,
    depth: u32,
    left: usize,
    word: Keyword,
    tokens: &'t [Lexeme<'a>],
) -> Result<(Expr, &'t [Lexeme<'a>]), Stuck>
    ensures { Gives (λ x. (tree_of x.0, toks_of x.1.now)) result (prefix_at (expr_at depth) word (toks_of tokens.now)) }
{
    match word {
        Keyword::Id => Ok((Expr::Id, tokens)),
        Keyword::Degree => Ok((Expr::Degree, tokens)),
        Keyword::Round => Ok((Expr::Round, tokens)),
        Keyword::If => choice(alloc, depth, tokens),
        Keyword::Not => {
            let (part, rest) = part(alloc, depth, tokens)?;
            Ok((Expr::Not(part), rest))
        }
        _ => {
            let Some(agg) = aggregate(word) else {
                return Err(Stuck::Token {
                    left,
                    expected: Expected::Expression,
                });
            };
            let (part, rest) = part(alloc, depth, tokens)?;
            Ok((Expr::Over(agg, part), rest))
        }
    }
}

/// What follows `if`.
#[cycle(expression)]
#[tactic(auto, unfolding(crate::specs::Reading::choice_at))]
fn choice<'t, 'a>(
    alloc: Global,
    depth: u32,
    tokens: &'t [Lexeme<'a>],
) -> Result<(Expr, &'t [Lexeme<'a>]), Stuck>
    ensures { Gives (λ x. (tree_of x.0, toks_of x.1.now)) result (choice_at (expr_at depth) (toks_of tokens.now)) }
{
    let (test, rest) = part(alloc, depth, tokens)?;
    let (yes, rest) = then_part(alloc, depth, rest)?;
    let (no, rest) = else_part(alloc, depth, rest)?;
    Ok((Expr::Choice(test, yes, no), rest))
}

/// What follows `field`.
#[tactic(auto, unfolding(crate::specs::Reading::field_at))]
fn field<'t, 'a>(alloc: Global, tokens: &'t [Lexeme<'a>]) -> Result<(Item, &'t [Lexeme<'a>]), Stuck>
    ensures { Gives (λ x. (item_of x.0, toks_of x.1.now)) result (field_at (toks_of tokens.now)) }
{
    let (name, rest) = name(alloc, tokens)?;
    let rest = assign(rest)?;
    let (value, rest) = number(rest)?;
    let rest = semicolon(rest)?;
    Ok((Item::Field { name, value }, rest))
}

/// What follows `next`.
#[tactic(auto, unfolding(crate::specs::Reading::next_at))]
fn next<'t, 'a>(alloc: Global, tokens: &'t [Lexeme<'a>]) -> Result<(Item, &'t [Lexeme<'a>]), Stuck>
    ensures { Gives (λ x. (item_of x.0, toks_of x.1.now)) result (next_at (toks_of tokens.now)) }
{
    let (name, rest) = name(alloc, tokens)?;
    let rest = assign(rest)?;
    let (body, rest) = expression(alloc, NESTING, rest)?;
    let rest = semicolon(rest)?;
    Ok((Item::Next { name, body }, rest))
}

/// An item, and the tokens after it.
#[tactic(auto, unfolding(crate::specs::Reading::item_at))]
fn item<'t, 'a>(alloc: Global, tokens: &'t [Lexeme<'a>]) -> Result<(Item, &'t [Lexeme<'a>]), Stuck>
    ensures { Gives (λ x. (item_of x.0, toks_of x.1.now)) result (item_at (toks_of tokens.now)) }
{
    let [first, rest @ ..] = tokens else {
        return Err(Stuck::before(tokens, Expected::Item));
    };
    match first.token {
        Token::Word(word) => match reserved_word(word) {
            Some(Keyword::Field) => field(alloc, rest),
            Some(Keyword::Next) => next(alloc, rest),
            _ => Err(Stuck::before(tokens, Expected::Item)),
        },
        _ => Err(Stuck::before(tokens, Expected::Item)),
    }
}

/// The items that these tokens spell, all of the tokens.
pub fn items<'a>(alloc: Global, tokens: &[Lexeme<'a>]) -> Result<Vec<Item>, Stuck>
    ensures { IsProgramOf (toks_of tokens.now) (λ v. items_of v.items) result }
{
    let mut items = Vec::new(alloc);
    let mut at = 0;
    while at < tokens.len() {
        let (next, rest) = item(alloc, &tokens[at..])?;
        items.push(next)?;
        at = tokens.len() - rest.len();
    }
    Ok(items)
}
