//! From bytes to tokens.

ghost use Rattle.std.specs.Prelude.{◌≡◌, ◌≤◌, ◌<◌, ◌^◌, ◌++◌, ◌+◌, length, take, Bool, true, ℕ, IfErr, IfOk, IfSome, OnOk, map};
ghost use Rattle.std.specs.List.{AllByRecursion, prefix_len};
ghost use Rattle.std.specs.Option.{option_map};
ghost use Rattle.std.specs.Str.{IsAscii};
ghost use Rattle.rule_lang.specs.Tokens.{is_blank, is_word_byte};
ghost use Rattle.model_text.specs.Tokens.{Tok, belongs, numeral_step, numeral_from, numeral_value, word_tok, near_tok, near_at, sized, decimal_tok, fraction_behind, number_at, short_sign_of, long_sign_of, sign_at, token_at, step_at, begins_near, begins_fraction};
ghost use Rattle.model_text.specs.View.{tok_of, placed_all};
ghost use Rattle.model_text.specs.Lexing.{state_of, IsTokensOf, added};
ghost use Rattle.model_text.specs.Causes.{IsPlaced};

use crate::fault::ModelFault;
use crate::keyword::{Keyword, reserved_word};
use crate::token::{Lexeme, Sign, Token};
use crate::tree::Decimal;
use std::alloc::{AllocError, Global};
use std::str;

/// The most digits after a decimal's point.
const DECIMAL_PLACES: usize = 9;

/// A sort of bytes.
#[derive(Clone, Copy)]
pub enum Sort {
    /// Letters, digits and `_`.
    Word,
    /// Digits.
    Digit,
    /// Digits and `_`.
    Numeral,
    /// All but LF.
    Line,
}

/// Whether a byte is of this sort.
fn belongs(sort: Sort, byte: u8) -> bool
    ensures { result ≡ belongs sort byte }
{
    match sort {
        Sort::Word => byte.is_ascii_alphanumeric() || byte == b'_',
        Sort::Digit => byte.is_ascii_digit(),
        Sort::Numeral => byte.is_ascii_digit() || byte == b'_',
        Sort::Line => byte != b'\n',
    }
}

/// How many bytes of this sort stand at the front.
fn run_length(sort: Sort, bytes: &[u8]) -> usize
    ensures exact { result ≡ prefix_len (belongs sort) bytes.now }
    ensures bound { result ≤ length bytes.now }
{
    for (place, byte) in bytes.iter().enumerate() {
        if !belongs(sort, *byte) {
            return place;
        }
    }
    bytes.len()
}

/// A numeral read so far: its value, and whether its last byte is `_`.
#[derive(Clone, Copy)]
struct Numeral {
    value: u32,
    parted: bool,
}

/// One byte more of a numeral.
fn add_byte(numeral: Numeral, byte: u8) -> Option<Numeral>
    ensures { option_map state_of result ≡ numeral_step (state_of numeral) byte }
{
    if byte == b'_' {
        if numeral.parted {
            return None;
        }
        return Some(Numeral {
            parted: true,
            ..numeral
        });
    }
    if !byte.is_ascii_digit() {
        return None;
    }
    let value = u64::from(numeral.value) * 10 + u64::from(byte - b'0');
    if value > u64::from(u32::MAX) {
        return None;
    }
    Some(Numeral {
        value: value as u32,
        parted: false,
    })
}

/// The value that a numeral has with these bytes after it.
fn add_bytes(numeral: Numeral, bytes: &[u8]) -> Option<Numeral>
    ensures { option_map state_of result ≡ numeral_from (state_of numeral) bytes.now }
{
    let mut numeral = numeral;
    for byte in bytes {
        numeral = add_byte(numeral, *byte)?;
    }
    Some(numeral)
}

/// The value of a numeral: digits, and `_` between digits.
fn value(bytes: &[u8]) -> Option<u32>
    ensures { result ≡ numeral_value bytes.now }
{
    let start = Numeral {
        value: 0,
        parted: false,
    };
    let whole = add_bytes(start, bytes)?;
    if whole.parted {
        return None;
    }
    Some(whole.value)
}

/// The sign of this byte alone.
#[tactic(auto, unfolding(crate::specs::Tokens::short_sign_of))]
fn short_sign(byte: u8) -> Option<Sign>
    ensures { result ≡ short_sign_of byte }
{
    match byte {
        b'=' => Some(Sign::Assign),
        b';' => Some(Sign::Semicolon),
        b':' => Some(Sign::Colon),
        b',' => Some(Sign::Comma),
        b'(' => Some(Sign::Open),
        b')' => Some(Sign::Close),
        b'{' => Some(Sign::BraceOpen),
        b'}' => Some(Sign::BraceClose),
        b'+' => Some(Sign::Plus),
        b'-' => Some(Sign::Minus),
        b'*' => Some(Sign::Star),
        b'/' => Some(Sign::Slash),
        b'%' => Some(Sign::Percent),
        b'&' => Some(Sign::Ampersand),
        b'|' => Some(Sign::Bar),
        b'^' => Some(Sign::Caret),
        b'<' => Some(Sign::Less),
        b'>' => Some(Sign::Greater),
        _ => None,
    }
}

/// The sign of this byte and `=`.
#[tactic(auto, unfolding(crate::specs::Tokens::long_sign_of))]
fn long_sign(byte: u8) -> Option<Sign>
    ensures { result ≡ long_sign_of byte }
{
    match byte {
        b'=' => Some(Sign::Equal),
        b'!' => Some(Sign::Differ),
        b'<' => Some(Sign::LessEq),
        b'>' => Some(Sign::GreaterEq),
        _ => None,
    }
}

/// The longest sign of this byte and those after it, and how many of those it takes.
#[tactic(auto, unfolding(crate::specs::Tokens::sign_at))]
fn sign<'a>(first: u8, rest: &'a [u8]) -> Option<(Token<'a>, usize)>
    ensures sign { option_map (λ p. (tok_of p.0, p.1)) result ≡ sign_at first rest.now }
    ensures bound { IfSome result (λ p. p.1 ≤ length rest.now) }
{
    match rest {
        [b'=', ..] => match long_sign(first) {
            Some(sign) => Some((Token::Sign(sign), 1)),
            None => Some((Token::Sign(short_sign(first)?), 0)),
        },
        _ => Some((Token::Sign(short_sign(first)?), 0)),
    }
}

/// ASCII bytes as text.
fn text(bytes: &[u8]) -> &str
    requires { IsAscii bytes.now }
    ensures { result.now ≡ bytes.now }
{
    match str::from_utf8(bytes) {
        Ok(text) => text,
        Err(_) => "",
    }
}

/// The bytes of a word, at the front.
fn word(bytes: &[u8]) -> &str
    ensures word { result.now ≡ take (prefix_len is_word_byte bytes.now) bytes.now }
    ensures bound { length result.now ≤ length bytes.now }
{
    text(&bytes[..run_length(Sort::Word, bytes)])
}

/// The token of a word.
fn word_token<'a>(word: &'a str) -> Token<'a>
    ensures { tok_of result ≡ word_tok word.now }
{
    match reserved_word(word) {
        Some(keyword) => Token::Keyword(keyword),
        None => Token::Name(word),
    }
}

/// The token of a word after `n.`.
#[tactic(auto, unfolding(crate::specs::Tokens::near_tok))]
fn near_token<'a>(word: &'a str) -> Option<Token<'a>>
    ensures { option_map tok_of result ≡ near_tok word.now }
{
    match reserved_word(word) {
        None => Some(Token::Near(word)),
        Some(Keyword::Id) => Some(Token::NearId),
        Some(Keyword::Weight) => Some(Token::NearWeight),
        Some(_) => None,
    }
}

/// Whether `n.` and a letter stand here.
#[tactic(auto, unfolding(crate::specs::Tokens::begins_near))]
fn is_near(bytes: &[u8]) -> bool
    ensures near { result ≡ begins_near bytes.now }
    ensures long { result ≡ true → 2 ≤ length bytes.now }
{
    match bytes {
        [first, second, third, ..] => {
            *first == b'n' && *second == b'.' && third.is_ascii_alphabetic()
        }
        _ => false,
    }
}

/// The name, `id` or `weight` after `n.`, and how many bytes it takes after the first.
fn near(bytes: &[u8]) -> Option<(Token<'_>, usize)>
    requires { 2 ≤ length bytes.now }
    ensures token { option_map (λ x. (tok_of x.0, x.1)) result ≡ near_at bytes.now }
    ensures bound { IfSome result (λ x. x.1 < length bytes.now) }
{
    let name = word(&bytes[2..]);
    Some((near_token(name)?, 1 + name.len()))
}

/// Whether a point and a digit stand here.
#[tactic(auto, unfolding(crate::specs::Tokens::begins_fraction))]
fn is_fraction(bytes: &[u8]) -> bool
    ensures fraction { result ≡ begins_fraction bytes.now }
    ensures long { result ≡ true → 2 ≤ length bytes.now }
{
    match bytes {
        [first, second, ..] => *first == b'.' && second.is_ascii_digit(),
        _ => false,
    }
}

/// A decimal of these digits before and after the point.
fn decimal_token(digits: &[u8], fraction: &[u8]) -> Option<Token<'static>>
    ensures { option_map tok_of result ≡ decimal_tok digits.now fraction.now }
{
    if fraction.len() > DECIMAL_PLACES {
        return None;
    }
    let start = Numeral {
        value: 0,
        parted: false,
    };
    let whole = add_bytes(add_bytes(start, digits)?, fraction)?;
    if whole.parted {
        return None;
    }
    Some(Token::Decimal(Decimal {
        numerator: whole.value,
        places: fraction.len() as u32,
    }))
}

/// A decimal with so many digits before its point, and how many bytes it takes after the first.
fn decimal(bytes: &[u8], digits: usize) -> Option<(Token<'static>, usize)>
    requires { digits + 1 ≤ length bytes.now }
    ensures token { option_map (λ x. (tok_of x.0, x.1)) result ≡ sized (decimal_tok (take digits bytes.now) (fraction_behind digits bytes.now)) (digits + length (fraction_behind digits bytes.now)) }
    ensures bound { IfSome result (λ x. x.1 < length bytes.now) }
{
    let behind = &bytes[digits + 1..];
    let fraction = &behind[..run_length(Sort::Digit, behind)];
    let token = decimal_token(&bytes[..digits], fraction)?;
    Some((token, digits + fraction.len()))
}

/// A number, and how many bytes it takes after the first.
fn number(bytes: &[u8]) -> Option<(Token<'static>, usize)>
    requires { 1 ≤ length bytes.now }
    ensures token { option_map (λ x. (tok_of x.0, x.1)) result ≡ number_at bytes.now }
    ensures bound { IfSome result (λ x. x.1 < length bytes.now) }
{
    let front = &bytes[..run_length(Sort::Numeral, bytes)];
    let value = value(front)?;
    Some((Token::Number(value), front.len().saturating_sub(1)))
}

/// The token at the front, and how many bytes it takes after the first.
#[tactic(auto, unfolding(crate::specs::Tokens::token_at))]
fn token(bytes: &[u8]) -> Option<(Token<'_>, usize)>
    ensures token { option_map (λ x. (tok_of x.0, x.1)) result ≡ token_at bytes.now }
    ensures bound { IfSome result (λ x. x.1 < length bytes.now) }
{
    let [first, rest @ ..] = bytes else {
        return None;
    };
    if first.is_ascii_alphabetic() {
        if is_near(bytes) {
            return near(bytes);
        }
        let word = word(bytes);
        return Some((word_token(word), word.len().saturating_sub(1)));
    }
    if first.is_ascii_digit() {
        let digits = run_length(Sort::Digit, bytes);
        if is_fraction(&bytes[digits..]) {
            return decimal(bytes, digits);
        }
        return number(bytes);
    }
    sign(*first, rest)
}

/// Space, tab, LF and CR.
fn blank(byte: u8) -> bool
    ensures { result ≡ is_blank byte }
{
    byte == b' ' || byte == b'\t' || byte == b'\n' || byte == b'\r'
}

/// One blank, one comment or one token, and how many bytes it takes after the first.
#[tactic(auto, unfolding(crate::specs::Tokens::step_at))]
fn step(bytes: &[u8]) -> Option<(Option<Token<'_>>, usize)>
    ensures step { option_map (λ x. (option_map tok_of x.0, x.1)) result ≡ step_at bytes.now }
    ensures bound { IfSome result (λ x. x.1 < length bytes.now) }
{
    let [first, rest @ ..] = bytes else {
        return None;
    };
    if blank(*first) {
        return Some((None, 0));
    }
    if *first == b'#' {
        return Some((None, run_length(Sort::Line, rest)));
    }
    let (token, size) = token(bytes)?;
    Some((Some(token), size))
}

/// Adds the token, where there is one.
fn add<'a>(
    lexemes: &mut Vec<Lexeme<'a>>,
    token: Option<Token<'a>>,
    at: u32,
) -> Result<(), AllocError>
    ensures places { OnOk result ((end : ℕ) → at < end → AllByRecursion (λ l. l.at < end) lexemes.old.items → AllByRecursion (λ l. l.at < end) lexemes.new.items) }
    ensures tokens { OnOk result (placed_all lexemes.new.items ≡ placed_all lexemes.old.items ++ added (option_map tok_of token.entry) at) }
{
    if let Some(token) = token {
        lexemes.push(Lexeme { token, at })?;
    }
    Ok(())
}

/// The tokens of a text, each with the place of its first byte; else a `Lex` cause at the first byte
/// where none begins.
pub fn tokens<'a>(alloc: Global, text: &'a [u8]) -> Result<Vec<Lexeme<'a>>, ModelFault>
    requires { length text.now < 2 ^ 32 }
    ensures tokens { IsTokensOf text.now (λ v. placed_all v.items) result }
    ensures places { IfOk result (λ v. AllByRecursion (λ l. l.at < length text.now) v.items) }
    ensures place { IfErr result (IsPlaced (length text.now)) }
{
    let mut lexemes = Vec::new(alloc);
    let mut at = 0;
    while at < text.len() {
        let Some((token, size)) = step(&text[at..]) else {
            return Err(ModelFault::Lex { at: at as u32 });
        };
        add(&mut lexemes, token, at as u32)?;
        at = at + 1 + size;
    }
    Ok(lexemes)
}
