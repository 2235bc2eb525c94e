//! The tokens of a model's text.

use crate::keyword::Keyword;
use crate::tree::Decimal;

/// A sign, one byte or two.
#[derive(Clone, Copy)]
pub enum Sign {
    Assign,
    Semicolon,
    Colon,
    Comma,
    Open,
    Close,
    BraceOpen,
    BraceClose,
    Plus,
    Minus,
    Star,
    Slash,
    Percent,
    Ampersand,
    Bar,
    Caret,
    Equal,
    Differ,
    Less,
    LessEq,
    Greater,
    GreaterEq,
}

/// A token.
#[derive(Clone, Copy)]
pub enum Token<'a> {
    /// A reserved word.
    Keyword(Keyword),
    /// A name.
    Name(&'a str),
    /// A name of the neighbour, without its `n.`.
    Near(&'a str),
    /// `n.id`
    NearId,
    /// `n.weight`
    NearWeight,
    /// A number.
    Number(u32),
    /// A number with digits after a point.
    Decimal(Decimal),
    /// A sign.
    Sign(Sign),
}

/// A token and the place of its first byte, counted from 0.
#[derive(Clone, Copy)]
pub struct Lexeme<'a> {
    pub token: Token<'a>,
    pub at: u32,
}
