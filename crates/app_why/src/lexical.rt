//! Why no token begins at a place.

use crate::foreign::word_hint;
use crate::found::front_text;
use crate::told::{Part, Told};
use std::alloc::{AllocError, Global};
use std::str;

/// How a choice is written.
const CHOICE: &str = "a choice is written: if A then B else C";

/// What stands for `-` in other texts.
const DASH: &str = "this is a minus sign or a dash of Unicode: write `-`";

/// What names and numbers do not have.
const QUOTES: &str = "names and numbers stand without quotes";

/// The signs that compare.
const COMPARISONS: &str = "comparisons are written in ASCII: `<=`, `>=`, `!=`";

/// Characters that are not ASCII, and what to do about them.
const FOREIGN: [(&'static str, &'static str); 11] = [
    ("\u{2212}", DASH),
    ("\u{2013}", DASH),
    ("\u{2014}", DASH),
    ("\u{2018}", QUOTES),
    ("\u{2019}", QUOTES),
    ("\u{201c}", QUOTES),
    ("\u{201d}", QUOTES),
    ("\u{2264}", COMPARISONS),
    ("\u{2265}", COMPARISONS),
    ("\u{2260}", COMPARISONS),
    (
        "\u{a0}",
        "this is a blank that does not break: write a space",
    ),
];

/// What stands before a byte in a text, blanks left out.
fn before(text: &[u8], at: usize) -> &[u8] {
    text[..at.min(text.len())].trim_ascii_end()
}

/// What to do about a `.`, by what stands before it.
fn dot_hint(front: &[u8]) -> &'static str {
    match front.last() {
        Some(byte) if byte.is_ascii_digit() => "numbers are whole: scale them, 15 tenths for 1.5",
        Some(b'n') => "a neighbour's field is one word: n.NAME",
        _ => "a `.` stands in a neighbour's field alone: n.NAME",
    }
}

/// What to do about a character that is not ASCII.
fn foreign_hint(rest: &[u8]) -> &'static str {
    for (character, hint) in &FOREIGN {
        if rest.starts_with(character.as_bytes()) {
            return *hint;
        }
    }
    "outside comments a program is ASCII: names are of letters, digits and `_`"
}

/// Where the last bracket opens that is not closed, in the item in which the bytes end.
fn open_bracket(front: &[u8]) -> Option<usize> {
    let mut depth = 0usize;
    for (at, byte) in front.iter().enumerate().rev() {
        match *byte {
            b';' => return None,
            b'(' if depth == 0 => return Some(at),
            b'(' => depth = depth.saturating_sub(1),
            b')' => depth = depth.saturating_add(1),
            _ => {}
        }
    }
    None
}

/// The word with which the bytes end.
fn last_word(front: &[u8]) -> &[u8] {
    let before = front
        .iter()
        .rposition(|byte| !byte.is_ascii_alphanumeric())
        .map_or(0, |at| at.saturating_add(1));
    &front[before.min(front.len())..]
}

/// The word before the brackets in which the bytes end: that of a function or an aggregate.
pub fn called_word(front: &[u8]) -> Option<&str> {
    let at = open_bracket(front)?;
    str::from_utf8(last_word(before(front, at))).ok()
}

/// What to do about a `,`, by the word before the brackets in which it stands.
fn comma_hint(front: &[u8]) -> &'static str {
    if let Some(hint) = called_word(front).and_then(word_hint) {
        return hint;
    }
    "items end with `;`, and no list has commas"
}

/// What to do about a `:`.
fn colon_hint(rest: &[u8]) -> &'static str {
    if rest.starts_with(b":=") {
        return "a rule is written: next NAME = EXPRESSION;";
    }
    CHOICE
}

/// What to do about a byte with which no token begins.
fn byte_hint(text: &[u8], at: usize) -> &'static str {
    let rest = &text[at.min(text.len())..];
    match rest.first() {
        Some(b'!') => "`not A` is 1 where A is 0, and `!=` compares",
        Some(b'.') => dot_hint(before(text, at)),
        Some(b'"' | b'\'' | b'`') => QUOTES,
        Some(b'{' | b'}' | b'[' | b']') => "brackets are round: (A + B)",
        Some(b',') => comma_hint(before(text, at)),
        Some(b'_') => "a name begins with a letter",
        Some(b'?') => CHOICE,
        Some(b':') => colon_hint(rest),
        Some(b'~') => "`not A` is 1 where A is 0; (4294967295 - A) turns all bits of A",
        Some(0x80..) => foreign_hint(rest),
        Some(0) => "the file is no plain text: save it as UTF-8",
        _ => "",
    }
}

/// Whether the byte is a digit, with which a number begins.
fn is_digit(text: &[u8], at: usize) -> bool {
    match text.get(at) {
        Some(byte) => byte.is_ascii_digit(),
        None => false,
    }
}

/// The mark at the beginning of a file that says how it is encoded.
fn mark(text: &[u8]) -> Option<&'static str> {
    if text.starts_with(b"\xef\xbb\xbf") {
        return Some("found a byte order mark, which cannot be seen");
    }
    if text.starts_with(b"\xff\xfe") || text.starts_with(b"\xfe\xff") {
        return Some("found the byte order mark of UTF-16");
    }
    None
}

/// What is wrong at a byte, and what to do, where both are told in words of their own: a mark at the beginning, or a
/// number that is too large.
fn plain_text(text: &[u8], at: usize) -> Option<(&'static str, &'static str)> {
    if is_digit(text, at) {
        return Some((
            "the number is above 4294967295",
            "numbers go from 0 to 4294967295",
        ));
    }
    if at > 0 {
        return None;
    }
    Some((
        mark(text)?,
        "save the file as UTF-8 without a byte order mark",
    ))
}

/// What is wrong at a byte with which nothing begins.
fn what_text(alloc: Global, rest: &[u8]) -> Result<String, AllocError> {
    let found = front_text(alloc, rest)?;
    format!(in alloc; "found {found}, with which nothing begins")
}

/// What is told of a program's text in which no token begins at a byte.
pub(crate) fn tell_lexical(alloc: Global, text: &[u8], at: usize) -> Result<Told, AllocError> {
    let (what, hint) = match plain_text(text, at) {
        Some((what, hint)) => (String::from_str(alloc, what)?, hint),
        None => (
            what_text(alloc, &text[at.min(text.len())..])?,
            byte_hint(text, at),
        ),
    };
    Ok(Told {
        part: Some(Part::Program),
        at: Some(at),
        what,
        hint: String::from_str(alloc, hint)?,
    })
}
