//! What stands at the front of bytes: a token, or what lies between tokens.
ghost use Rattle.std.specs.Prelude.{◌≡◌, ◌≤◌, ◌<◌, ◌+◌, ◌∷◌, [], length, IfOk, Some, None};
ghost use Rattle.std.specs.List.{prefix_len};
ghost use Rattle.import_formats.specs.dot.Bytes.{is_blank, is_word_byte};
ghost use Rattle.import_formats.specs.dot.Bytes.{begins_numeral};
ghost use Rattle.import_formats.specs.dot.Tokens.{gap, sign, texted, comment_at, quoted_at, html_at, numeral_at, word_at, dash_at, sign_at, piece_at, first_piece};
ghost use Rattle.import_formats.specs.dot.View.{IsGiven, piece_of};

use crate::dot::fault::DotLineFault;
use crate::dot::runs::{
    bracket_place, is_numeral, is_word_byte, numeral_length, quote_place, slash_place, word_length,
};
use crate::dot::token_kind::{TokenKind, word_kind};
use import_lines::line_length;
use std::str;

/// A token of this kind, or what lies between tokens; the token's text, where it has one, and how many bytes it takes.
#[derive(Clone, Copy)]
pub(crate) struct Cut<'a> {
    pub(crate) kind: Option<TokenKind>,
    pub(crate) text: &'a str,
    pub(crate) size: usize,
}

/// So many bytes between tokens.
fn gap<'a>(size: usize) -> Cut<'a>
    ensures { piece_of result ≡ record { kind = None; text = []; size = size } }
{
    Cut {
        kind: None,
        text: "",
        size,
    }
}

/// A token without a text.
fn sign<'a>(kind: TokenKind, size: usize) -> Cut<'a>
    ensures { piece_of result ≡ record { kind = Some kind; text = []; size = size } }
{
    Cut {
        kind: Some(kind),
        text: "",
        size,
    }
}

/// Whether a byte is a blank, TAB, LF or CR.
fn is_blank(byte: u8) -> bool
    ensures { result ≡ is_blank byte }
{
    byte == b' ' || byte == b'\t' || byte == b'\n' || byte == b'\r'
}

/// Whether a numeral begins with a byte.
fn begins_numeral(byte: u8) -> bool
    ensures { result ≡ begins_numeral byte }
{
    byte.is_ascii_digit() || byte == b'.'
}

/// A token with a text.
fn texted(kind: TokenKind, bytes: &[u8], size: usize) -> Result<Cut<'_>, DotLineFault>
    ensures piece { IsGiven piece_of (texted kind bytes.now size) result }
    ensures size { IfOk result (λ c. c.size ≡ size) }
{
    match str::from_utf8(bytes) {
        Ok(text) => Ok(Cut {
            kind: Some(kind),
            text,
            size,
        }),
        Err(_) => Err(DotLineFault::NotUtf8),
    }
}

/// A comment, after its first slash.
fn comment(bytes: &[u8]) -> Result<Cut<'_>, DotLineFault>
    ensures piece { IsGiven piece_of (comment_at bytes.now) result }
    ensures size { IfOk result (λ c. (1 ≤ c.size) × (c.size ≤ 1 + length bytes.now)) }
{
    match bytes {
        [b'/', rest @ ..] => Ok(gap(2 + line_length(rest))),
        [b'*', rest @ ..] => {
            let place = slash_place(rest);
            if place < rest.len() {
                Ok(gap(3 + place))
            } else {
                Err(DotLineFault::UnclosedComment)
            }
        }
        _ => Err(DotLineFault::BadByte { byte: b'/' }),
    }
}

/// A string, after its first quote.
fn quoted(bytes: &[u8]) -> Result<Cut<'_>, DotLineFault>
    ensures piece { IsGiven piece_of (quoted_at bytes.now) result }
    ensures size { IfOk result (λ c. (1 ≤ c.size) × (c.size ≤ 1 + length bytes.now)) }
{
    let place = quote_place(bytes);
    if place < bytes.len() {
        texted(TokenKind::Quoted, &bytes[..place], 2 + place)
    } else {
        Err(DotLineFault::UnclosedString)
    }
}

/// A string in angle brackets, after the first.
fn html(bytes: &[u8]) -> Result<Cut<'_>, DotLineFault>
    ensures piece { IsGiven piece_of (html_at bytes.now) result }
    ensures size { IfOk result (λ c. (1 ≤ c.size) × (c.size ≤ 1 + length bytes.now)) }
{
    let place = bracket_place(bytes);
    if place < bytes.len() {
        texted(TokenKind::Html, &bytes[..place], 2 + place)
    } else {
        Err(DotLineFault::UnclosedHtml)
    }
}

/// A numeral after so many minus signs.
fn numeral(signs: usize, bytes: &[u8]) -> Result<Cut<'_>, DotLineFault>
    requires { signs ≤ length bytes.now }
    ensures piece { IsGiven piece_of (numeral_at signs bytes.now) result }
    ensures size { IfOk result (λ c. (1 ≤ c.size) × (c.size ≤ length bytes.now)) }
{
    let digits = &bytes[signs..];
    let size = numeral_length(digits);
    if is_numeral(&digits[..size]) {
        texted(TokenKind::Name, &bytes[..signs + size], signs + size)
    } else {
        Err(DotLineFault::BadNumeral)
    }
}

/// A word.
fn word(bytes: &[u8]) -> Result<Cut<'_>, DotLineFault>
    ensures piece { IsGiven piece_of (word_at bytes.now) result }
    ensures size { IfOk result (λ c. c.size ≡ prefix_len is_word_byte bytes.now) }
{
    let size = word_length(bytes);
    let word = &bytes[..size];
    texted(word_kind(word), word, size)
}

/// `--`, `->`, or a numeral that begins with a minus sign.
fn dash(bytes: &[u8]) -> Result<Cut<'_>, DotLineFault>
    requires { 0 < length bytes.now }
    ensures piece { IsGiven piece_of (dash_at bytes.now) result }
    ensures size { IfOk result (λ c. (1 ≤ c.size) × (c.size ≤ length bytes.now)) }
{
    match bytes.get(1) {
        Some(b'-') => Ok(sign(TokenKind::Dashes, 2)),
        Some(b'>') => Ok(sign(TokenKind::Arrow, 2)),
        _ => numeral(1, bytes),
    }
}

/// A sign of one byte.
fn short_sign<'a>(byte: u8) -> Result<Cut<'a>, DotLineFault>
    ensures piece { IsGiven piece_of (sign_at byte) result }
    ensures size { IfOk result (λ c. c.size ≡ 1) }
{
    match byte {
        b'{' => Ok(sign(TokenKind::BraceOpen, 1)),
        b'}' => Ok(sign(TokenKind::BraceClose, 1)),
        b'[' => Ok(sign(TokenKind::BracketOpen, 1)),
        b']' => Ok(sign(TokenKind::BracketClose, 1)),
        b';' => Ok(sign(TokenKind::Semicolon, 1)),
        b',' => Ok(sign(TokenKind::Comma, 1)),
        b'=' => Ok(sign(TokenKind::Assign, 1)),
        b':' => Ok(sign(TokenKind::Colon, 1)),
        _ => Err(DotLineFault::BadByte { byte }),
    }
}

/// What begins with a byte that is no blank, the first of `bytes`; `rest` are those after it.
fn piece<'a>(
    fresh: bool,
    byte: u8,
    bytes: &'a [u8],
    rest: &'a [u8],
) -> Result<Cut<'a>, DotLineFault>
    requires { bytes.now ≡ byte ∷ rest.now }
    ensures piece { IsGiven piece_of (piece_at fresh byte rest.now) result }
    ensures size { IfOk result (λ c. (1 ≤ c.size) × (c.size ≤ length bytes.now)) }
{
    if is_blank(byte) {
        Ok(gap(1))
    } else if byte == b'#' && fresh {
        Ok(gap(1 + line_length(rest)))
    } else if byte == b'/' {
        comment(rest)
    } else if byte == b'"' {
        quoted(rest)
    } else if byte == b'<' {
        html(rest)
    } else if byte == b'-' {
        dash(bytes)
    } else if begins_numeral(byte) {
        numeral(0, bytes)
    } else if is_word_byte(byte) {
        word(bytes)
    } else {
        short_sign(byte)
    }
}

/// What stands at the front of bytes.
pub(crate) fn first_piece(fresh: bool, bytes: &[u8]) -> Result<Cut<'_>, DotLineFault>
    requires { 0 < length bytes.now }
    ensures piece { IsGiven piece_of (first_piece fresh bytes.now) result }
    ensures size { IfOk result (λ c. (1 ≤ c.size) × (c.size ≤ length bytes.now)) }
{
    match bytes {
        [byte, rest @ ..] => piece(fresh, *byte, bytes, rest),
        [] => Ok(gap(1)),
    }
}
