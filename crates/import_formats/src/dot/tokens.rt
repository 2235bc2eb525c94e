//! The tokens of a text, one after another.
ghost use Rattle.std.specs.Prelude.{◌≡◌, ◌≤◌, ◌<◌, ◌+◌, ◌-◌, ◌^◌, ◌∷◌, [], false, length, MatchOption};
ghost use Rattle.import_formats.specs.dot.Tokens.{tokens_at, tokens_of};
ghost use Rattle.import_formats.specs.dot.View.{token_of, tokens_left};

use crate::dot::fault::DotLineFault;
use crate::dot::pieces::first_piece;
use crate::dot::token_kind::TokenKind;

/// A token and the line where it begins, or what is wrong where none does.
#[derive(Clone, Copy)]
pub(crate) struct Token<'a> {
    pub(crate) line: u64,
    pub(crate) kind: Result<TokenKind, DotLineFault>,
    pub(crate) text: &'a str,
}

/// The tokens that are left of a text.
#[derive(Clone, Copy)]
pub(crate) struct Tokens<'a> {
    /// Whether the last token was given.
    pub(crate) ended: bool,
    /// Whether the next byte is the first of its line.
    pub(crate) fresh: bool,
    /// The line of the next byte.
    pub(crate) line: u64,
    /// The bytes that are left.
    pub(crate) bytes: &'a [u8],
}

impl<'a> Tokens<'a> {
    /// All tokens of a text.
    pub(crate) fn of(text: &'a [u8]) -> Tokens<'a>
        ensures tokens { tokens_left result ≡ tokens_of text.now }
        ensures room { result.line + length result.bytes.now < 2 ^ 64 }
    {
        Tokens {
            ended: false,
            fresh: true,
            line: 1,
            bytes: text,
        }
    }

    /// Passes so many bytes.
    fn pass(&mut self, size: usize)
        requires room { self.old.line + length self.old.bytes.now < 2 ^ 64 }
        requires inside { size ≤ length self.old.bytes.now }
        ensures room { self.new.line + length self.new.bytes.now < 2 ^ 64 }
        ensures tokens { tokens_at 0 self.new.fresh self.new.line self.new.bytes.now ≡ tokens_at size self.old.fresh self.old.line self.old.bytes.now }
        ensures ended { self.new.ended ≡ self.old.ended }
        ensures length { length self.new.bytes.now + size ≡ length self.old.bytes.now }
    {
        for passed in 0..size {
            if let [byte, rest @ ..] = self.bytes {
                self.fresh = *byte == b'\n';
                if *byte == b'\n' {
                    self.line += 1;
                }
                self.bytes = rest;
            }
        }
    }

    /// Passes one token, or what lies between two.
    fn step(&mut self) -> Option<Token<'a>>
        requires room { self.old.line + length self.old.bytes.now < 2 ^ 64 }
        requires begun { self.old.ended ≡ false }
        ensures room { self.new.line + length self.new.bytes.now < 2 ^ 64 }
        ensures tokens { MatchOption result (tokens_left self.new ≡ tokens_left self.old) (λ t. tokens_left self.old ≡ token_of t ∷ tokens_left self.new) }
        ensures shorter { MatchOption result (length self.new.bytes.now < length self.old.bytes.now) (λ _. Unit {0}) }
    {
        let line = self.line;
        if self.bytes.is_empty() {
            self.ended = true;
            return Some(Token {
                line,
                kind: Ok(TokenKind::End),
                text: "",
            });
        }
        match first_piece(self.fresh, self.bytes) {
            Ok(cut) => {
                self.pass(cut.size);
                match cut.kind {
                    Some(kind) => Some(Token {
                        line,
                        kind: Ok(kind),
                        text: cut.text,
                    }),
                    None => None,
                }
            }
            Err(fault) => {
                self.ended = true;
                Some(Token {
                    line,
                    kind: Err(fault),
                    text: "",
                })
            }
        }
    }

    /// The next token.
    pub(crate) fn next_token(&mut self) -> Option<Token<'a>>
        requires room { self.old.line + length self.old.bytes.now < 2 ^ 64 }
        ensures room { self.new.line + length self.new.bytes.now < 2 ^ 64 }
        ensures tokens { MatchOption result (tokens_left self.old ≡ []) (λ t. tokens_left self.old ≡ token_of t ∷ tokens_left self.new) }
    {
        while !self.ended {
            if let Some(token) = self.step() {
                return Some(token);
            }
        }
        None
    }
}
