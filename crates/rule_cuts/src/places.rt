//! Where the products and totals stand in a program's text.

ghost use Rattle.std.specs.Prelude.{◌≡◌, ◌≤◌, [], List, length, IfOk};
ghost use Rattle.rule_lang.specs.Tokens.{Tok, HasTokens};
ghost use Rattle.rule_lang.specs.View.{tok_of};
ghost use Rattle.rule_cuts.specs.Places.{AreOperationPlaces, StandInOrder, is_some, places_in as places_in_lem, token_kinds};

use rule_lang::{Lexeme, Sign, Token, read_tokens};
use std::alloc::{AllocError, Global};

/// Whether a token is a product or a total.
fn is_operation(token: Token<'_>) -> bool
    ensures exact { result ≡ is_some (token_kinds (tok_of token.entry)) }
{
    match token {
        Token::Sign(sign) => matches!(sign, Sign::Star),
        Token::Word(word) => word == "total",
        Token::Near(_) | Token::Number(_) => false,
    }
}

/// The places of those among the tokens.
fn places_in(alloc: Global, lexemes: &[Lexeme<'_>]) -> Result<Vec<usize>, AllocError>
    ensures places { IfOk result (λ v. v.items ≡ places_in_lem lexemes.now) }
{
    let mut places = Vec::new(alloc);
    for lexeme in lexemes {
        if is_operation(lexeme.token) {
            places.push(lexeme.at as usize)?;
        }
    }
    Ok(places)
}

/// The places of each `*` and `total` of a program's text, in bytes from 0: in the order of `operations_in`
/// (`operations_stand_in_order`). Of a text that has no tokens there are none.
pub fn operation_places(alloc: Global, text: &[u8]) -> Result<Vec<usize>, AllocError>
    ensures listed { IfOk result (λ v. (tokens : List Tok) → length text.now ≤ 65536 → HasTokens text.now tokens → AreOperationPlaces text.now v.items) }
    ensures none { IfOk result (λ v. ((tokens : List Tok) → length text.now ≤ 65536 → HasTokens text.now tokens → ⊥) → v.items ≡ []) }
{
    let found = read_tokens(alloc, text)?;
    match found {
        Some(lexemes) => places_in(alloc, &lexemes),
        None => Ok(Vec::new(alloc)),
    }
}

/// A law, which does nothing when it runs: each `*` and `total` among the tokens of a program's text is a product or a
/// total of its rules, one by one.
pub fn operations_stand_in_order()
    ensures order { StandInOrder }
{}
