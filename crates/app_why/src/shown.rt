//! How a fault is shown: its place, what is wrong, the line with a mark below, what to do.

use crate::told::{Named, Part, Texts, Told};
use crate::{Place, line_from, place_at};
use std::alloc::{AllocError, Global};
use std::str;

/// How many characters of a line are shown at most.
const SHOWN: usize = 100;

/// How many characters are shown before the one at fault, at most.
const SHOWN_BEFORE: usize = 70;

/// The text of a job that this is, where the job has it.
fn text_of<'a>(texts: &Texts<'a>, part: Part) -> Option<Named<'a>> {
    match part {
        Part::Program => Some(texts.program),
        Part::Network => texts.network,
        Part::Report => texts.report,
        Part::Schedule => texts.schedule,
    }
}

/// Adds a character, or a blank for one that is none to see.
fn put_character(out: &mut String, character: char) -> Result<(), AllocError> {
    if character.is_control() || character == '\u{feff}' {
        out.push(' ')
    } else {
        out.push(character)
    }
}

/// Adds some characters of a text, from one number up to another.
fn put_characters(out: &mut String, text: &str, from: usize, to: usize) -> Result<(), AllocError> {
    for (number, character) in text.chars().enumerate() {
        if number >= from && number < to {
            put_character(out, character)?;
        }
    }
    Ok(())
}

/// Adds some bytes that are no UTF-8, from one number up to another: what is ASCII as it is, and else `?`.
fn put_bytes(out: &mut String, bytes: &[u8], from: usize, to: usize) -> Result<(), AllocError> {
    for (number, byte) in bytes.iter().enumerate() {
        if number >= from && number < to {
            let character = if byte.is_ascii() { *byte as char } else { '?' };
            put_character(out, character)?;
        }
    }
    Ok(())
}

/// Adds a part of a line, from one column up to another, both counted from 0.
fn put_part(out: &mut String, bytes: &[u8], from: usize, to: usize) -> Result<(), AllocError> {
    match str::from_utf8(bytes) {
        Ok(text) => put_characters(out, text, from, to),
        Err(_) => put_bytes(out, bytes, from, to),
    }
}

/// Adds blanks.
fn put_blanks(out: &mut String, count: usize) -> Result<(), AllocError> {
    for _ in 0..count {
        out.push(' ')?;
    }
    Ok(())
}

/// Adds the line of a place with a mark below it. Of a long line the part about the place is shown.
fn put_picture(
    alloc: Global,
    out: &mut String,
    text: &[u8],
    at: usize,
    spot: Place,
) -> Result<(), AllocError> {
    let line = line_from(text, spot.start);
    let (front, back) = line.split_at(at.saturating_sub(spot.start).min(line.len()));
    let column = spot.column.saturating_sub(1);
    let from = column.saturating_sub(SHOWN_BEFORE);
    let number = spot.line.to_string(alloc)?;
    write!(out, "  {number} | ")?;
    put_part(out, front, from, column)?;
    put_part(
        out,
        back,
        0,
        SHOWN.saturating_sub(column.saturating_sub(from)),
    )?;
    out.push_str("\n  ")?;
    put_blanks(out, number.len())?;
    out.push_str(" | ")?;
    put_blanks(out, column.saturating_sub(from))?;
    out.push_str("^\n")
}

/// Adds the name of a text, with the line and column where the byte at fault is known.
fn put_place(out: &mut String, named: Named, at: Option<usize>) -> Result<(), AllocError> {
    let name = named.name;
    match at {
        Some(at) => {
            let spot = place_at(named.text, at);
            let line = spot.line;
            let column = spot.column;
            write!(out, "{name}:{line}:{column}: ")
        }
        None => write!(out, "{name}: "),
    }
}

/// Adds what to do, each line after two blanks.
fn put_hint(out: &mut String, hint: &str) -> Result<(), AllocError> {
    for line in hint.lines() {
        write!(out, "  {line}\n")?;
    }
    Ok(())
}

/// What is shown of a fault: the place, `part` and `name` of the fault line, what is wrong, the line, what to do.
pub(crate) fn shown(
    alloc: Global,
    texts: &Texts,
    told: &Told,
    part: &str,
    name: &str,
) -> Result<String, AllocError> {
    let named = match told.part {
        Some(part) => text_of(texts, part),
        None => None,
    };
    let what = told.what.as_str();
    let what = format!(in alloc; "{part} {name}: {what}")?;
    match named {
        Some(named) => shown_in(alloc, named, told.at, what.as_str(), told.hint.as_str()),
        None => {
            let mut out = format!(in alloc; "{what}\n")?;
            put_hint(&mut out, told.hint.as_str())?;
            Ok(out)
        }
    }
}

/// What is told of the byte `at` of a text, counted from 0, or of the text where no byte is known: the name of the text
/// with the line and the column, what is wrong, the line with a mark below the byte, and what to do. Each line ends with LF.
pub fn shown_in(
    alloc: Global,
    named: Named,
    at: Option<usize>,
    what: &str,
    hint: &str,
) -> Result<String, AllocError> {
    let mut out = String::new(alloc);
    put_place(&mut out, named, at)?;
    write!(out, "{what}\n")?;
    if let Some(at) = at {
        put_picture(alloc, &mut out, named.text, at, place_at(named.text, at))?;
    }
    put_hint(&mut out, hint)?;
    Ok(out)
}
