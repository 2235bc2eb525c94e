//! One token that has to stand first: what it is, and the tokens after it.

ghost use Rattle.std.specs.Prelude.{◌≡◌, string_bytes};
ghost use Rattle.rule_lang.specs.View.{tok_of, toks_of};
ghost use Rattle.rule_lang.specs.Causes.{Gives};
ghost use Rattle.rule_lang.specs.Reading.{sign_op, op_of, op_at, agg_of, close_at, then_at, else_at, name_at, number_at, assign_at, semicolon_at};

use crate::cause::Expected;
use crate::keyword::{Keyword, reserved_word};
use crate::stuck::Stuck;
use crate::token::{Lexeme, Sign, Token};
use crate::tree::{Agg, Op};
use std::alloc::Global;

/// The operator of this sign, if it is one.
#[tactic(auto, unfolding(crate::specs::Reading::sign_op))]
fn sign_operator(sign: Sign) -> Option<Op>
    ensures { result ≡ sign_op sign }
{
    match sign {
        Sign::Plus => Some(Op::Plus),
        Sign::Minus => Some(Op::Minus),
        Sign::Star => Some(Op::Times),
        Sign::Slash => Some(Op::Quot),
        Sign::Percent => Some(Op::Rem),
        Sign::Ampersand => Some(Op::BitAnd),
        Sign::Bar => Some(Op::BitOr),
        Sign::Caret => Some(Op::BitXor),
        Sign::Equal => Some(Op::Equal),
        Sign::Differ => Some(Op::Differ),
        Sign::Less => Some(Op::Less),
        Sign::LessEq => Some(Op::LessEq),
        Sign::Greater => Some(Op::Greater),
        Sign::GreaterEq => Some(Op::GreaterEq),
        Sign::Assign | Sign::Semicolon | Sign::Open | Sign::Close => None,
    }
}

/// The operator of this token, if it is one.
#[tactic(auto, unfolding(crate::specs::Reading::op_of))]
fn operator(token: Token) -> Option<Op>
    ensures { result ≡ op_of (tok_of token.entry) }
{
    match token {
        Token::Sign(sign) => sign_operator(sign),
        Token::Word(word) => match reserved_word(word) {
            Some(Keyword::Min) => Some(Op::Min),
            Some(Keyword::Max) => Some(Op::Max),
            _ => None,
        },
        Token::Near(_) | Token::Number(_) => None,
    }
}

/// The aggregate of this reserved word, if it is one.
#[tactic(auto, unfolding(crate::specs::Reading::agg_of))]
pub fn aggregate(word: Keyword) -> Option<Agg>
    ensures { result ≡ agg_of word }
{
    match word {
        Keyword::Total => Some(Agg::Total),
        Keyword::Least => Some(Agg::Least),
        Keyword::Most => Some(Agg::Most),
        Keyword::Count => Some(Agg::Count),
        Keyword::Any => Some(Agg::Some1),
        Keyword::All => Some(Agg::Every),
        _ => None,
    }
}

/// An operator.
#[tactic(auto, unfolding(crate::specs::Reading::op_at))]
pub fn operator_at<'t, 'a>(tokens: &'t [Lexeme<'a>]) -> Result<(Op, &'t [Lexeme<'a>]), Stuck>
    ensures { Gives (λ x. (x.0, toks_of x.1.now)) result (op_at (toks_of tokens.now)) }
{
    let [first, rest @ ..] = tokens else {
        return Err(Stuck::before(tokens, Expected::Operator));
    };
    match operator(first.token) {
        Some(op) => Ok((op, rest)),
        None => Err(Stuck::before(tokens, Expected::Operator)),
    }
}

/// A closing bracket.
#[tactic(auto, unfolding(crate::specs::Reading::close_at))]
pub fn close<'t, 'a>(tokens: &'t [Lexeme<'a>]) -> Result<&'t [Lexeme<'a>], Stuck>
    ensures { Gives (λ x. toks_of x.now) result (close_at (toks_of tokens.now)) }
{
    let [first, rest @ ..] = tokens else {
        return Err(Stuck::before(tokens, Expected::Close));
    };
    match first.token {
        Token::Sign(Sign::Close) => Ok(rest),
        _ => Err(Stuck::before(tokens, Expected::Close)),
    }
}

/// The word `then`.
#[tactic(auto, unfolding(crate::specs::Reading::then_at))]
pub fn word_then<'t, 'a>(tokens: &'t [Lexeme<'a>]) -> Result<&'t [Lexeme<'a>], Stuck>
    ensures { Gives (λ x. toks_of x.now) result (then_at (toks_of tokens.now)) }
{
    let [first, rest @ ..] = tokens else {
        return Err(Stuck::before(tokens, Expected::Then));
    };
    match first.token {
        Token::Word(word) if reserved_word(word) == Some(Keyword::Then) => Ok(rest),
        _ => Err(Stuck::before(tokens, Expected::Then)),
    }
}

/// The word `else`.
#[tactic(auto, unfolding(crate::specs::Reading::else_at))]
pub fn word_else<'t, 'a>(tokens: &'t [Lexeme<'a>]) -> Result<&'t [Lexeme<'a>], Stuck>
    ensures { Gives (λ x. toks_of x.now) result (else_at (toks_of tokens.now)) }
{
    let [first, rest @ ..] = tokens else {
        return Err(Stuck::before(tokens, Expected::Else));
    };
    match first.token {
        Token::Word(word) if reserved_word(word) == Some(Keyword::Else) => Ok(rest),
        _ => Err(Stuck::before(tokens, Expected::Else)),
    }
}

/// The sign `=`.
#[tactic(auto, unfolding(crate::specs::Reading::assign_at))]
pub fn assign<'t, 'a>(tokens: &'t [Lexeme<'a>]) -> Result<&'t [Lexeme<'a>], Stuck>
    ensures { Gives (λ x. toks_of x.now) result (assign_at (toks_of tokens.now)) }
{
    match tokens {
        [
            Lexeme {
                token: Token::Sign(Sign::Assign),
                ..
            },
            rest @ ..,
        ] => Ok(rest),
        _ => Err(Stuck::before(tokens, Expected::Assign)),
    }
}

/// A semicolon.
#[tactic(auto, unfolding(crate::specs::Reading::semicolon_at))]
pub fn semicolon<'t, 'a>(tokens: &'t [Lexeme<'a>]) -> Result<&'t [Lexeme<'a>], Stuck>
    ensures { Gives (λ x. toks_of x.now) result (semicolon_at (toks_of tokens.now)) }
{
    match tokens {
        [
            Lexeme {
                token: Token::Sign(Sign::Semicolon),
                ..
            },
            rest @ ..,
        ] => Ok(rest),
        _ => Err(Stuck::before(tokens, Expected::Semicolon)),
    }
}

/// A number.
#[tactic(auto, unfolding(crate::specs::Reading::number_at))]
pub fn number<'t, 'a>(tokens: &'t [Lexeme<'a>]) -> Result<(u32, &'t [Lexeme<'a>]), Stuck>
    ensures { Gives (λ x. (x.0, toks_of x.1.now)) result (number_at (toks_of tokens.now)) }
{
    let [first, rest @ ..] = tokens else {
        return Err(Stuck::before(tokens, Expected::Number));
    };
    match first.token {
        Token::Number(value) => Ok((value, rest)),
        _ => Err(Stuck::before(tokens, Expected::Number)),
    }
}

/// A word that is no reserved word.
#[tactic(auto, unfolding(crate::specs::Reading::name_at))]
pub fn name<'t, 'a>(
    alloc: Global,
    tokens: &'t [Lexeme<'a>],
) -> Result<(String, &'t [Lexeme<'a>]), Stuck>
    ensures { Gives (λ x. (string_bytes x.0, toks_of x.1.now)) result (name_at (toks_of tokens.now)) }
{
    let [first, rest @ ..] = tokens else {
        return Err(Stuck::before(tokens, Expected::Name));
    };
    match first.token {
        Token::Word(word) if reserved_word(word).is_none() => {
            Ok((String::from_str(alloc, word)?, rest))
        }
        _ => Err(Stuck::before(tokens, Expected::Name)),
    }
}
