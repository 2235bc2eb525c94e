//! What is wrong with a line of a report or a schedule.

use crate::line_from;
use crate::told::{Part, Told};
use report_text::{behind, read_number};
use rule_check::Program;
use std::alloc::{AllocError, Global};

/// Where the line of this number, counted from 1, begins: the end of the text where there is none.
pub(crate) fn line_begin(text: &[u8], line: u64) -> usize {
    let mut number = 1u64;
    if line <= 1 {
        return 0;
    }
    for (at, byte) in text.iter().enumerate() {
        if *byte == b'\n' {
            number = number.saturating_add(1);
            if number == line {
                return at.saturating_add(1);
            }
        }
    }
    text.len()
}

/// A departure from the form of a line: at which of its bytes, and why where that is told in words of its own.
#[derive(Clone, Copy)]
pub(crate) struct Departure {
    pub(crate) offset: usize,
    pub(crate) why: Option<&'static str>,
}

/// A departure that is the same in every kind of line: a missing line, blanks, CR, a comment, a missing LF.
fn plain_departure(line: &[u8], ended: bool) -> Option<Departure> {
    let last = line.len().saturating_sub(1);
    if line.is_empty() && !ended {
        return Some(Departure {
            offset: 0,
            why: Some("a line is missing: the text ends here"),
        });
    }
    match (line.first(), line.last()) {
        (None, _) => Some(Departure {
            offset: 0,
            why: Some("the line is empty"),
        }),
        (Some(b'#'), _) => Some(Departure {
            offset: 0,
            why: Some("there are no comments here"),
        }),
        (Some(b' ' | b'\t'), _) => Some(Departure {
            offset: 0,
            why: Some("a blank begins the line"),
        }),
        (_, Some(b'\r')) => Some(Departure {
            offset: last,
            why: Some("the line ends in CR and LF: lines end in LF alone"),
        }),
        (_, Some(b' ' | b'\t')) => Some(Departure {
            offset: last,
            why: Some("a blank ends the line"),
        }),
        _ => None,
    }
}

/// How many digits stand at the front.
fn digits(bytes: &[u8]) -> usize {
    bytes
        .iter()
        .position(|byte| !byte.is_ascii_digit())
        .unwrap_or(bytes.len())
}

/// A departure in the middle of a line: with words of its own where a number has a leading zero, a sign, or is too
/// large.
fn inner_departure(line: &[u8], rest: &[u8]) -> Departure {
    let why = match (rest.first(), digits(rest)) {
        (Some(b'0'), 2..) => Some("a number has a leading zero"),
        (_, 10..) => Some("the number is above 4294967295"),
        (Some(b'+' | b'-'), _) => Some("a number has no sign"),
        _ => None,
    };
    Departure {
        offset: line.len().saturating_sub(rest.len()),
        why,
    }
}

/// The rest of a line at which it departs from `word NUMBER`; nothing where it does not.
fn word_and_number<'a>(word: &[u8], line: &'a [u8]) -> Result<&'a [u8], &'a [u8]> {
    let Some(number) = behind(word, line) else {
        return Err(line);
    };
    match read_number(number) {
        Some((_, rest)) => Ok(rest),
        None => Err(number),
    }
}

/// The rest of a line at which it departs from `read NODE SLOT` and `write NODE`.
fn step_rest(line: &[u8]) -> &[u8] {
    if behind(b"read ", line).is_none() {
        return match word_and_number(b"write ", line) {
            Ok(rest) | Err(rest) => rest,
        };
    }
    match word_and_number(b"read ", line) {
        Ok(rest) => match word_and_number(b" ", rest) {
            Ok(rest) | Err(rest) => rest,
        },
        Err(rest) => rest,
    }
}

/// The rest of a line after the fields in order, or that at which it departs from them.
fn fields_rest<'a>(program: &Program, line: &'a [u8]) -> &'a [u8] {
    let mut rest = line;
    for field in 0..program.field_count() {
        let name = program.field_name(field).unwrap_or("");
        let Some(named) = behind(b" ", rest) else {
            return rest;
        };
        let Some(equal) = behind(name.as_bytes(), named) else {
            return named;
        };
        rest = match word_and_number(b"=", equal) {
            Ok(rest) => rest,
            Err(rest) => return rest,
        };
    }
    rest
}

/// The rest of a line at which it departs from that of a node.
fn node_rest<'a>(program: &Program, node: u32, line: &'a [u8]) -> &'a [u8] {
    match read_number(line) {
        Some((number, rest)) if number == node => fields_rest(program, rest),
        _ => line,
    }
}

/// The line that would fit at a node's place: its fields 0.
fn fitting_line(alloc: Global, program: &Program, node: u32) -> Result<String, AllocError> {
    let mut out = String::new(alloc);
    write!(out, "{node}")?;
    for field in 0..program.field_count() {
        let name = program.field_name(field).unwrap_or("");
        write!(out, " {name}=0")?;
    }
    Ok(out)
}

/// The departure of a line: one that every kind has, one by its form, or its missing LF.
fn departure_of<'a>(line: &'a [u8], ended: bool, rest: &'a [u8]) -> Departure {
    if let Some(plain) = plain_departure(line, ended) {
        return plain;
    }
    if rest.is_empty() && !ended {
        return Departure {
            offset: line.len(),
            why: Some("the last line has no LF at its end"),
        };
    }
    inner_departure(line, rest)
}

/// What is told of a line that does not fit.
fn told(
    alloc: Global,
    part: Part,
    start: usize,
    departure: Departure,
    form: &str,
) -> Result<Told, AllocError> {
    let what = match departure.why {
        Some(why) => String::from_str(alloc, why)?,
        None => String::from_str(alloc, "from here on the line does not fit")?,
    };
    Ok(Told {
        part: Some(part),
        at: Some(start.saturating_add(departure.offset)),
        what,
        hint: String::from_str(alloc, form)?,
    })
}

/// What is told of the line of a schedule that is no step's.
pub(crate) fn tell_step(alloc: Global, text: &[u8], line: u64) -> Result<Told, AllocError> {
    let start = line_begin(text, line);
    let bytes = line_from(text, start);
    let ended = start.saturating_add(bytes.len()) < text.len();
    let departure = departure_of(bytes, ended, step_rest(bytes));
    told(
        alloc,
        Part::Schedule,
        start,
        departure,
        "a line is `read NODE SLOT` or `write NODE`, with one space between",
    )
}

/// The form of the line of this number in a report, and the rest of the line at which it departs from it.
fn report_form<'a>(
    alloc: Global,
    program: &Program,
    nodes: u32,
    line: u64,
    bytes: &'a [u8],
) -> Result<(String, &'a [u8]), AllocError> {
    if line <= 1 {
        let rest = match word_and_number(b"round ", bytes) {
            Ok(rest) | Err(rest) => rest,
        };
        return Ok((
            String::from_str(alloc, "the first line is `round T`, with one space between")?,
            rest,
        ));
    }
    let node = line.saturating_sub(2);
    if node >= nodes as u64 {
        return Ok((
            format!(in alloc; "the report ends here: the network has {nodes} nodes")?,
            bytes,
        ));
    }
    let fitting = fitting_line(alloc, program, node as u32)?;
    let form = format!(in alloc; "a line that fits here: `{fitting}`")?;
    Ok((form, node_rest(program, node as u32, bytes)))
}

/// What is told of the line of a report that does not fit at its place.
pub(crate) fn tell_report_line(
    alloc: Global,
    program: &Program,
    nodes: u32,
    text: &[u8],
    line: u64,
) -> Result<Told, AllocError> {
    let start = line_begin(text, line);
    let bytes = line_from(text, start);
    let ended = start.saturating_add(bytes.len()) < text.len();
    let (form, rest) = report_form(alloc, program, nodes, line, bytes)?;
    let departure = departure_of(bytes, ended, rest);
    told(alloc, Part::Report, start, departure, form.as_str())
}
