//! What stands at a place of a program's text.

use rule_lang::{Keyword, Lexeme, Sign, Token, reserved_word};
use std::alloc::{AllocError, Global};
use std::str;

/// The spelling of a sign.
pub(crate) fn sign_text(sign: Sign) -> &'static str {
    match sign {
        Sign::Assign => "=",
        Sign::Semicolon => ";",
        Sign::Open => "(",
        Sign::Close => ")",
        Sign::Plus => "+",
        Sign::Minus => "-",
        Sign::Star => "*",
        Sign::Slash => "/",
        Sign::Percent => "%",
        Sign::Ampersand => "&",
        Sign::Bar => "|",
        Sign::Caret => "^",
        Sign::Equal => "==",
        Sign::Differ => "!=",
        Sign::Less => "<",
        Sign::LessEq => "<=",
        Sign::Greater => ">",
        Sign::GreaterEq => ">=",
    }
}

/// A token as people read it: its spelling in backticks, and what it is where that is not seen at once.
pub(crate) fn token_text(alloc: Global, token: Token) -> Result<String, AllocError> {
    match token {
        Token::Word(word) => match reserved_word(word) {
            Some(_) => format!(in alloc; "the reserved word `{word}`"),
            None => format!(in alloc; "the name `{word}`"),
        },
        Token::Near(word) => format!(in alloc; "`n.{word}`"),
        Token::Number(value) => format!(in alloc; "the number {value}"),
        Token::Sign(sign) => {
            let text = sign_text(sign);
            format!(in alloc; "`{text}`")
        }
    }
}

/// The number of the token that begins at a byte, or how many there are where none does.
pub(crate) fn index_at(lexemes: &[Lexeme], at: u32) -> usize {
    lexemes
        .iter()
        .position(|lexeme| lexeme.at == at)
        .unwrap_or(lexemes.len())
}

/// The token of this number.
pub(crate) fn token<'a>(lexemes: &[Lexeme<'a>], index: usize) -> Option<Token<'a>> {
    match lexemes.get(index) {
        Some(lexeme) => Some(lexeme.token),
        None => None,
    }
}

/// The token before that of this number.
pub(crate) fn token_before<'a>(lexemes: &[Lexeme<'a>], index: usize) -> Option<Token<'a>> {
    token(lexemes, index.checked_sub(1)?)
}

/// Whether the token is this sign.
pub(crate) fn is_sign(token: Option<Token>, sign: Sign) -> bool {
    match token {
        Some(Token::Sign(other)) => other == sign,
        _ => false,
    }
}

/// The reserved word that the token is, where it is one.
pub(crate) fn keyword(token: Option<Token>) -> Option<Keyword> {
    match token {
        Some(Token::Word(word)) => reserved_word(word),
        _ => None,
    }
}

/// Whether the token stands between two parts: an operator's sign, `min` or `max`.
pub(crate) fn is_operator(token: Option<Token>) -> bool {
    match token {
        Some(Token::Sign(sign)) => !matches!(
            sign,
            Sign::Assign | Sign::Semicolon | Sign::Open | Sign::Close
        ),
        _ => matches!(keyword(token), Some(Keyword::Min | Keyword::Max)),
    }
}

/// The character that begins at the front of these bytes; none where no character does.
fn character(bytes: &[u8]) -> Option<&str> {
    for length in 1..bytes.len().min(4) + 1 {
        if let Ok(text) = str::from_utf8(&bytes[..length]) {
            return Some(text);
        }
    }
    None
}

/// What stands at the front of these bytes: a character, a byte, or the end of the text.
pub(crate) fn front_text(alloc: Global, bytes: &[u8]) -> Result<String, AllocError> {
    let Some(byte) = bytes.first() else {
        return String::from_str(alloc, "the end of the text");
    };
    match character(bytes) {
        Some(text) if *byte >= b' ' => format!(in alloc; "`{text}`"),
        _ => {
            let byte = *byte;
            format!(in alloc; "the byte {byte}")
        }
    }
}
