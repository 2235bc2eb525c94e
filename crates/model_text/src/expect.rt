//! One token that has to stand first: what it is, and the tokens after it.

ghost use Rattle.std.specs.Prelude.{◌≡◌, ◌≤◌};
ghost use Rattle.std.specs.Option.{option_map};
ghost use Rattle.model_text.specs.View.{tok_of, placed_all, name_of};
ghost use Rattle.model_text.specs.Causes.{Gives};
ghost use Rattle.model_text.specs.Grammar.{operator_level};
ghost use Rattle.model_text.specs.Reading.{assign_at, semicolon_at, colon_at, comma_at, open_at, close_at, brace_open_at, brace_close_at, then_at, else_at, ending_at, name_at, decimal_at, sign_operator, operator_of, operator_at};

use crate::fault::Expected;
use crate::keyword::Keyword;
use crate::stuck::Stuck;
use crate::token::{Lexeme, Sign, Token};
use crate::tree::{Decimal, Name, Operator};
use std::alloc::Global;

/// The sign `=`.
#[tactic(auto, unfolding(crate::specs::Reading::assign_at))]
pub fn assign<'t, 'a>(tokens: &'t [Lexeme<'a>]) -> Result<&'t [Lexeme<'a>], Stuck>
    ensures { Gives (λ x. placed_all x.now) result (assign_at (placed_all tokens.now)) }
{
    match tokens {
        [
            Lexeme {
                token: Token::Sign(Sign::Assign),
                ..
            },
            rest @ ..,
        ] => Ok(rest),
        _ => Err(Stuck::before(tokens, Expected::Assign)),
    }
}

/// A semicolon.
#[tactic(auto, unfolding(crate::specs::Reading::semicolon_at))]
pub fn semicolon<'t, 'a>(tokens: &'t [Lexeme<'a>]) -> Result<&'t [Lexeme<'a>], Stuck>
    ensures { Gives (λ x. placed_all x.now) result (semicolon_at (placed_all tokens.now)) }
{
    match tokens {
        [
            Lexeme {
                token: Token::Sign(Sign::Semicolon),
                ..
            },
            rest @ ..,
        ] => Ok(rest),
        _ => Err(Stuck::before(tokens, Expected::Semicolon)),
    }
}

/// A colon.
#[tactic(auto, unfolding(crate::specs::Reading::colon_at))]
pub fn colon<'t, 'a>(tokens: &'t [Lexeme<'a>]) -> Result<&'t [Lexeme<'a>], Stuck>
    ensures { Gives (λ x. placed_all x.now) result (colon_at (placed_all tokens.now)) }
{
    match tokens {
        [
            Lexeme {
                token: Token::Sign(Sign::Colon),
                ..
            },
            rest @ ..,
        ] => Ok(rest),
        _ => Err(Stuck::before(tokens, Expected::Colon)),
    }
}

/// An opening bracket.
#[tactic(auto, unfolding(crate::specs::Reading::open_at))]
pub fn open<'t, 'a>(tokens: &'t [Lexeme<'a>]) -> Result<&'t [Lexeme<'a>], Stuck>
    ensures { Gives (λ x. placed_all x.now) result (open_at (placed_all tokens.now)) }
{
    match tokens {
        [
            Lexeme {
                token: Token::Sign(Sign::Open),
                ..
            },
            rest @ ..,
        ] => Ok(rest),
        _ => Err(Stuck::before(tokens, Expected::Open)),
    }
}

/// A closing bracket.
#[tactic(auto, unfolding(crate::specs::Reading::close_at))]
pub fn close<'t, 'a>(tokens: &'t [Lexeme<'a>]) -> Result<&'t [Lexeme<'a>], Stuck>
    ensures { Gives (λ x. placed_all x.now) result (close_at (placed_all tokens.now)) }
{
    match tokens {
        [
            Lexeme {
                token: Token::Sign(Sign::Close),
                ..
            },
            rest @ ..,
        ] => Ok(rest),
        _ => Err(Stuck::before(tokens, Expected::Close)),
    }
}

/// An opening brace.
#[tactic(auto, unfolding(crate::specs::Reading::brace_open_at))]
pub fn brace_open<'t, 'a>(tokens: &'t [Lexeme<'a>]) -> Result<&'t [Lexeme<'a>], Stuck>
    ensures { Gives (λ x. placed_all x.now) result (brace_open_at (placed_all tokens.now)) }
{
    match tokens {
        [
            Lexeme {
                token: Token::Sign(Sign::BraceOpen),
                ..
            },
            rest @ ..,
        ] => Ok(rest),
        _ => Err(Stuck::before(tokens, Expected::BraceOpen)),
    }
}

/// A closing brace.
#[tactic(auto, unfolding(crate::specs::Reading::brace_close_at))]
pub fn brace_close<'t, 'a>(tokens: &'t [Lexeme<'a>]) -> Result<&'t [Lexeme<'a>], Stuck>
    ensures { Gives (λ x. placed_all x.now) result (brace_close_at (placed_all tokens.now)) }
{
    match tokens {
        [
            Lexeme {
                token: Token::Sign(Sign::BraceClose),
                ..
            },
            rest @ ..,
        ] => Ok(rest),
        _ => Err(Stuck::before(tokens, Expected::BraceClose)),
    }
}

/// The word `then`.
#[tactic(auto, unfolding(crate::specs::Reading::then_at))]
pub fn word_then<'t, 'a>(tokens: &'t [Lexeme<'a>]) -> Result<&'t [Lexeme<'a>], Stuck>
    ensures { Gives (λ x. placed_all x.now) result (then_at (placed_all tokens.now)) }
{
    match tokens {
        [
            Lexeme {
                token: Token::Keyword(Keyword::Then),
                ..
            },
            rest @ ..,
        ] => Ok(rest),
        _ => Err(Stuck::before(tokens, Expected::Then)),
    }
}

/// The word `else`.
#[tactic(auto, unfolding(crate::specs::Reading::else_at))]
pub fn word_else<'t, 'a>(tokens: &'t [Lexeme<'a>]) -> Result<&'t [Lexeme<'a>], Stuck>
    ensures { Gives (λ x. placed_all x.now) result (else_at (placed_all tokens.now)) }
{
    match tokens {
        [
            Lexeme {
                token: Token::Keyword(Keyword::Else),
                ..
            },
            rest @ ..,
        ] => Ok(rest),
        _ => Err(Stuck::before(tokens, Expected::Else)),
    }
}

/// What stands after `else`, where it stands here.
#[tactic(auto, unfolding(crate::specs::Reading::else_at))]
pub fn behind_else<'t, 'a>(tokens: &'t [Lexeme<'a>]) -> Option<&'t [Lexeme<'a>]>
    ensures { option_map (λ x. placed_all x.now) result ≡ else_at (placed_all tokens.now) }
{
    match tokens {
        [
            Lexeme {
                token: Token::Keyword(Keyword::Else),
                ..
            },
            rest @ ..,
        ] => Some(rest),
        _ => None,
    }
}

/// What stands after a closing bracket, where it stands here.
#[tactic(auto, unfolding(crate::specs::Reading::close_at))]
pub fn behind_close<'t, 'a>(tokens: &'t [Lexeme<'a>]) -> Option<&'t [Lexeme<'a>]>
    ensures { option_map (λ x. placed_all x.now) result ≡ close_at (placed_all tokens.now) }
{
    match tokens {
        [
            Lexeme {
                token: Token::Sign(Sign::Close),
                ..
            },
            rest @ ..,
        ] => Some(rest),
        _ => None,
    }
}

/// What stands after a comma, where it stands here.
#[tactic(auto, unfolding(crate::specs::Reading::comma_at))]
pub fn behind_comma<'t, 'a>(tokens: &'t [Lexeme<'a>]) -> Option<&'t [Lexeme<'a>]>
    ensures { option_map (λ x. placed_all x.now) result ≡ comma_at (placed_all tokens.now) }
{
    match tokens {
        [
            Lexeme {
                token: Token::Sign(Sign::Comma),
                ..
            },
            rest @ ..,
        ] => Some(rest),
        _ => None,
    }
}

/// The bracket that ends a list of names.
#[derive(Clone, Copy)]
pub enum Ending {
    /// `)`
    Round,
    /// `}`
    Brace,
}

/// The bracket that ends a list of names.
#[tactic(auto, unfolding(crate::specs::Reading::ending_at))]
pub fn list_end<'t, 'a>(ending: Ending, tokens: &'t [Lexeme<'a>]) -> Result<&'t [Lexeme<'a>], Stuck>
    ensures { Gives (λ x. placed_all x.now) result (ending_at ending (placed_all tokens.now)) }
{
    match ending {
        Ending::Round => close(tokens),
        Ending::Brace => brace_close(tokens),
    }
}

/// A name.
#[tactic(auto, unfolding(crate::specs::Reading::name_at))]
pub fn name<'t, 'a>(
    alloc: Global,
    tokens: &'t [Lexeme<'a>],
) -> Result<(Name, &'t [Lexeme<'a>]), Stuck>
    ensures { Gives (λ x. (name_of x.0, placed_all x.1.now)) result (name_at (placed_all tokens.now)) }
{
    let [first, rest @ ..] = tokens else {
        return Err(Stuck::before(tokens, Expected::Name));
    };
    match first.token {
        Token::Name(name) => {
            let name = String::from_str(alloc, name)?;
            Ok((Name { name, at: first.at }, rest))
        }
        _ => Err(Stuck::before(tokens, Expected::Name)),
    }
}

/// A decimal, or a number in place of one.
#[tactic(auto, unfolding(crate::specs::Reading::decimal_at))]
pub fn decimal<'t, 'a>(tokens: &'t [Lexeme<'a>]) -> Result<(Decimal, &'t [Lexeme<'a>]), Stuck>
    ensures { Gives (λ x. (x.0, placed_all x.1.now)) result (decimal_at (placed_all tokens.now)) }
{
    let [first, rest @ ..] = tokens else {
        return Err(Stuck::before(tokens, Expected::Decimal));
    };
    match first.token {
        Token::Number(numerator) => Ok((
            Decimal {
                numerator,
                places: 0,
            },
            rest,
        )),
        Token::Decimal(decimal) => Ok((decimal, rest)),
        _ => Err(Stuck::before(tokens, Expected::Decimal)),
    }
}

/// The operator of this sign, if it is one.
#[tactic(auto, unfolding(crate::specs::Reading::sign_operator))]
fn sign_operator(sign: Sign) -> Option<Operator>
    ensures { result ≡ sign_operator sign }
{
    match sign {
        Sign::Equal => Some(Operator::Equal),
        Sign::Differ => Some(Operator::Differ),
        Sign::Less => Some(Operator::Less),
        Sign::LessEq => Some(Operator::LessEq),
        Sign::Greater => Some(Operator::Greater),
        Sign::GreaterEq => Some(Operator::GreaterEq),
        Sign::Bar => Some(Operator::BitOr),
        Sign::Caret => Some(Operator::BitXor),
        Sign::Ampersand => Some(Operator::BitAnd),
        Sign::Plus => Some(Operator::Plus),
        Sign::Minus => Some(Operator::Minus),
        Sign::Star => Some(Operator::Times),
        Sign::Slash => Some(Operator::Quot),
        Sign::Percent => Some(Operator::Rem),
        _ => None,
    }
}

/// The operator of this token, if it is one.
#[tactic(auto, unfolding(crate::specs::Reading::operator_of))]
fn operator_of(token: Token) -> Option<Operator>
    ensures { result ≡ operator_of (tok_of token.entry) }
{
    match token {
        Token::Sign(sign) => sign_operator(sign),
        Token::Keyword(Keyword::Or) => Some(Operator::Or),
        Token::Keyword(Keyword::And) => Some(Operator::And),
        _ => None,
    }
}

/// The operator that stands here, its place and the tokens after it.
#[tactic(auto, unfolding(crate::specs::Reading::operator_at))]
pub fn operator_at<'t, 'a>(tokens: &'t [Lexeme<'a>]) -> Option<(Operator, u32, &'t [Lexeme<'a>])>
    ensures { option_map (λ x. (x.0, x.1, placed_all x.2.now)) result ≡ operator_at (placed_all tokens.now) }
{
    let [first, rest @ ..] = tokens else {
        return None;
    };
    let operator = operator_of(first.token)?;
    Some((operator, first.at, rest))
}

/// The level of an operator: those of a greater level bind tighter.
pub fn operator_level(operator: Operator) -> u32
    ensures exact { result ≡ operator_level operator }
    ensures bound { result ≤ 9 }
{
    match operator {
        Operator::Or => 1,
        Operator::And => 2,
        Operator::Equal
        | Operator::Differ
        | Operator::Less
        | Operator::LessEq
        | Operator::Greater
        | Operator::GreaterEq => 4,
        Operator::BitOr => 5,
        Operator::BitXor => 6,
        Operator::BitAnd => 7,
        Operator::Plus | Operator::Minus => 8,
        Operator::Times | Operator::Quot | Operator::Rem => 9,
    }
}
