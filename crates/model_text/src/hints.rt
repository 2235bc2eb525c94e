//! What is told beside a fault: what could stand at its place, and what people mostly mean.

use crate::fault::{Expected, ModelFault};
use crate::keyword::reserved_word;
use std::str;

/// What could stand at a place, in words.
pub fn expected_words(expected: Expected) -> &'static str {
    match expected {
        Expected::Item => "`const`, `states`, `field`, `let` or `next`",
        Expected::Name => "a name",
        Expected::Assign => "`=`",
        Expected::Semicolon => "an operator or `;`",
        Expected::Colon => "an operator or `:`",
        Expected::Open => "`(`",
        Expected::Close => "an operator or `)`",
        Expected::BraceOpen => "`{`",
        Expected::BraceClose => "`}`",
        Expected::Comma => "`,` or the bracket that ends the list",
        Expected::Then => "an operator or `then`",
        Expected::Else => "an operator or `else`",
        Expected::Expression => "an expression",
        Expected::Decimal => "a decimal, as `0.05`",
        Expected::NoChain => "no second comparison",
        Expected::Brackets => "`(` before `not`",
        Expected::Shallower => "less nesting: an expression is 100 deep at most",
    }
}

/// What people mostly mean who write what stands at the fault's place; none where nothing is known.
pub fn hint(text: &[u8], fault: ModelFault) -> Option<&'static str> {
    match fault {
        ModelFault::TooLong | ModelFault::Memory => None,
        ModelFault::Lex { at } => byte_hint(text.get(at as usize..)?),
        ModelFault::Syntax { at, expected } => token_hint(text.get(at as usize..)?, expected),
    }
}

/// Behind what begins no token.
fn byte_hint(rest: &[u8]) -> Option<&'static str> {
    match rest {
        [b'0'..=b'9', ..] => Some(
            "a number is 4294967295 at most, `_` stands only between digits, and a decimal has nine digits behind its point at most",
        ),
        [b'!' | b'~', ..] => Some("write `not a`, or `a != b`"),
        [b'.', byte, ..] if byte.is_ascii_alphabetic() => Some(
            "a `.` stands behind `n` alone: n.NAME is a neighbour's field or let",
        ),
        [b'.', ..] => Some(
            "a decimal begins with a digit, and stands only in `chance(..)` and `chance_of(..)`",
        ),
        [b'?', ..] => Some("a choice is written: if a then b else c"),
        [b'"' | b'\'' | b'`', ..] => Some("names and numbers stand without quotes"),
        [(0x80..), ..] => Some(
            "outside comments a model is ASCII: comparisons are `<=`, `>=` and `!=`, and a minus is `-`",
        ),
        [b'n', ..] => Some("behind `n.` stands the name of a field or a let, `id` or `weight`"),
        [b'_', ..] => Some("a name begins with a letter"),
        [b'[' | b']', ..] => Some("brackets are round"),
        _ => None,
    }
}

/// At a token that can't stand at its place.
fn token_hint(rest: &[u8], expected: Expected) -> Option<&'static str> {
    match (expected, rest) {
        (Expected::NoChain, _) => Some("write `a < b and b < c`"),
        (Expected::Brackets, _) => Some("write `a == (not b)`"),
        (Expected::Expression, [b'}', ..]) => Some("the last arm of `cases` is `else: value;`"),
        (Expected::Expression, [b'-', ..]) => Some("there are no negative numbers"),
        (Expected::Expression, [b'0'..=b'9', ..]) => {
            Some("a decimal stands only in `chance(..)` and `chance_of(..)`")
        }
        (Expected::Name, [b'=', ..]) => Some(
            "a value is given by `=`, as in: field NAME = NUMBER;",
        ),
        (Expected::Name, [b')', ..]) => Some("without parameters a let stands without brackets"),
        (Expected::Name, _) => reserved_hint(rest),
        (Expected::Assign, [b':', b'=', ..]) => {
            Some("a value is given by `=`, as in: next NAME = EXPRESSION;")
        }
        (Expected::Assign, _) => Some("a value is given by `=`"),
        (Expected::Item, [b';', ..]) => {
            Some("an item ends with one `;`, and no `;` stands behind the `}` of states")
        }
        (Expected::Item, [byte, ..]) if byte.is_ascii_alphabetic() => {
            Some("an item begins with its word, as in: next NAME = EXPRESSION;")
        }
        (Expected::Open, _) => Some("functions and aggregates have brackets, as in count(n.NAME)"),
        (Expected::Then, [b':', ..]) => Some("a choice is written: if a then b else c"),
        (Expected::Else, [b';' | b')', ..]) => Some("a choice has an `else`: if a then b else c"),
        (
            Expected::Semicolon
            | Expected::Close
            | Expected::Colon
            | Expected::Then
            | Expected::Else
            | Expected::Comma,
            [b'=', ..],
        ) => Some("write `==` to compare"),
        (
            Expected::Semicolon | Expected::Close | Expected::Colon | Expected::Comma,
            [b'i', b'f', b' ', ..],
        ) => Some("a choice is written: if a then b else c"),
        (Expected::Close, [b';', ..]) => Some("a bracket is open"),
        (Expected::BraceClose, [b';', ..]) => {
            Some("between states stand commas: states NAME { A, B }")
        }
        (Expected::Semicolon, _) => Some("each item, and each arm of `cases`, ends with `;`"),
        _ => None,
    }
}

/// Where a name should stand.
fn reserved_hint(rest: &[u8]) -> Option<&'static str> {
    let length = rest
        .iter()
        .position(|b| !(b.is_ascii_alphanumeric() || *b == b'_'))
        .unwrap_or(rest.len());
    let word = str::from_utf8(rest.get(..length)?).ok()?;
    reserved_word(word)?;
    Some("this is a reserved word: choose another name")
}
