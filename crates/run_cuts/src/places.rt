//! Where the operators stand in a program's text.
ghost use Rattle.std.specs.Prelude.{◌≡◌, IfOk};
ghost use Rattle.rule_lang.specs.View.{tok_of};
ghost use Rattle.run_cuts.specs.Symbols.{is_some, places_in as places_in_lem, sign_kinds, token_kinds};

use rule_lang::{Lexeme, Sign, Token, read_tokens};
use std::alloc::{AllocError, Global};

/// Whether a sign is an operator whose value can be cut.
fn is_operator_sign(sign: Sign) -> bool
    ensures exact { result ≡ is_some (sign_kinds sign) }
{
    match sign {
        Sign::Plus | Sign::Minus | Sign::Star => true,
        _ => false,
    }
}

/// Whether a token is such an operator.
fn is_operator(token: Token<'_>) -> bool
    ensures exact { result ≡ is_some (token_kinds (tok_of token.entry)) }
{
    match token {
        Token::Sign(sign) => is_operator_sign(sign),
        Token::Word(word) => word == "total",
        Token::Near(_) | Token::Number(_) => false,
    }
}

/// The places of those among the tokens.
fn places_in(alloc: Global, lexemes: &[Lexeme<'_>]) -> Result<Vec<usize>, AllocError>
    ensures places { IfOk result (λ v. v.items ≡ places_in_lem lexemes.now) }
{
    let mut places = Vec::new(alloc);
    for lexeme in lexemes {
        if is_operator(lexeme.token) {
            places.push(lexeme.at as usize)?;
        }
    }
    Ok(places)
}

/// The places of the `+`, `-`, `*` and `total` of a program's text, in bytes from 0: the number of an operator is its
/// place among them (`operators_stand_in_order`). Of a text that has no tokens there are none.
pub fn operator_places(alloc: Global, text: &[u8]) -> Result<Vec<usize>, AllocError> {
    let found = read_tokens(alloc, text)?;
    match found {
        Some(lexemes) => places_in(alloc, &lexemes),
        None => Ok(Vec::new(alloc)),
    }
}
