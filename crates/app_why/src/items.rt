//! Where the items of a program's text, and what stands in them, begin.

use crate::found::{is_sign, keyword, token};
use rule_lang::{Keyword, Lexeme, Sign, Token};

/// The tokens of the item of this number, counted from 0, its semicolon with them.
pub(crate) fn item_tokens<'t, 'a>(lexemes: &'t [Lexeme<'a>], item: usize) -> &'t [Lexeme<'a>] {
    let mut start = 0;
    let mut passed = 0usize;
    for (index, lexeme) in lexemes.iter().enumerate() {
        if !is_sign(Some(lexeme.token), Sign::Semicolon) {
            continue;
        }
        if passed == item {
            return &lexemes[start.min(index)..index + 1];
        }
        passed = passed.saturating_add(1);
        start = index + 1;
    }
    &[]
}

/// Whether a `field` item declares this name.
pub(crate) fn declares(lexemes: &[Lexeme], name: &str) -> bool {
    let mut opens = false;
    for lexeme in lexemes {
        match lexeme.token {
            Token::Word(word) if opens && word == name => return true,
            token => opens = matches!(keyword(Some(token)), Some(Keyword::Field)),
        }
    }
    false
}

/// Where the name of an item begins: its second token.
pub(crate) fn name_place(item: &[Lexeme]) -> Option<u32> {
    Some(item.get(1)?.at)
}

/// The name of an item.
pub(crate) fn name_of<'a>(item: &[Lexeme<'a>]) -> &'a str {
    match token(item, 1) {
        Some(Token::Word(word)) => word,
        _ => "",
    }
}

/// What stands after the `=` of an item.
fn body<'t, 'a>(item: &'t [Lexeme<'a>]) -> &'t [Lexeme<'a>] {
    match item {
        [_, _, _, rest @ ..] => rest,
        _ => &[],
    }
}

/// Where a field of this name is first named in the expression of an item, of the node's own or of a neighbour.
pub(crate) fn mention_place(item: &[Lexeme], name: &str) -> Option<u32> {
    for lexeme in body(item) {
        match lexeme.token {
            Token::Word(word) | Token::Near(word) if word == name => return Some(lexeme.at),
            _ => {}
        }
    }
    None
}

/// Whether the token is the word of an aggregate.
pub(crate) fn is_aggregate(token: Token) -> bool {
    matches!(
        keyword(Some(token)),
        Some(
            Keyword::Total
                | Keyword::Least
                | Keyword::Most
                | Keyword::Count
                | Keyword::Any
                | Keyword::All
        )
    )
}

/// How many parts are still wanted after a token where so many are wanted before it: an operation wants two in place
/// of one, a choice three, a word with one part one, and a leaf none.
fn wanted_behind(wanted: usize, token: Token) -> usize {
    match token {
        Token::Number(_) | Token::Near(_) => wanted.saturating_sub(1),
        Token::Sign(Sign::Open) => wanted.saturating_add(1),
        Token::Sign(_) => wanted,
        Token::Word(_) => match keyword(Some(token)) {
            None | Some(Keyword::Id | Keyword::Degree | Keyword::Round) => wanted.saturating_sub(1),
            Some(Keyword::If) => wanted.saturating_add(2),
            Some(_) => wanted,
        },
    }
}

/// Where a form of the neighbour first stands outside the parts of aggregates, in the expression of an item.
pub(crate) fn outside_place(item: &[Lexeme]) -> Option<u32> {
    let mut inside = 0;
    for lexeme in body(item) {
        if inside > 0 {
            inside = wanted_behind(inside, lexeme.token);
        } else if is_aggregate(lexeme.token) {
            inside = 1;
        } else if let Token::Near(_) = lexeme.token {
            return Some(lexeme.at);
        }
    }
    None
}

/// Where an aggregate first stands in the part of another, in the expression of an item.
pub(crate) fn nested_place(item: &[Lexeme]) -> Option<u32> {
    let mut inside = 0;
    for lexeme in body(item) {
        if inside > 0 {
            if is_aggregate(lexeme.token) {
                return Some(lexeme.at);
            }
            inside = wanted_behind(inside, lexeme.token);
        } else if is_aggregate(lexeme.token) {
            inside = 1;
        }
    }
    None
}

/// Where the seventeenth aggregate of a program stands.
pub(crate) fn seventeenth_place(lexemes: &[Lexeme]) -> Option<u32> {
    let mut count = 0u32;
    for lexeme in lexemes {
        if is_aggregate(lexeme.token) {
            count = count.saturating_add(1);
            if count == 17 {
                return Some(lexeme.at);
            }
        }
    }
    None
}
