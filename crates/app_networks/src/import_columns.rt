//! The columns of a text to import, which words name by their numbers or by headings.

use crate::import_request::{ColumnWord, ColumnWords, Delimiter, ImportRequest};
use app_files::{Ending, name_at, put_place};
use app_table::Draft;
use csv::ByteRecord;
use import_formats::edges::{Columns, Separator, TableReading, edge_lines, read_rows};
use std::alloc::{AllocError, Global};
use std::str;

/// The headings of a text, and the number of their line, where there is a line.
#[derive(Drop)]
struct Headings {
    line: Option<u64>,
    names: Vec<String>,
}

/// Whether a column is named by its heading.
fn is_name(column: &ColumnWord) -> bool {
    matches!(column, ColumnWord::Name(_))
}

/// Whether a column that may be left out is named by its heading.
fn is_named(column: &Option<ColumnWord>) -> bool {
    match column {
        Some(column) => is_name(column),
        None => false,
    }
}

/// Whether columns are named by headings, so that the first line has headings.
pub(crate) fn names_headings(asked: &ImportRequest) -> bool {
    match &asked.columns {
        None => false,
        Some(columns) => {
            is_name(&columns.first) || is_name(&columns.second) || is_named(&columns.weight)
        }
    }
}

/// Puts a heading after the others; one that is no text is empty.
fn put_heading(names: &mut Vec<String>, alloc: Global, heading: &[u8]) -> Result<(), AllocError> {
    let text = str::from_utf8(heading).unwrap_or("");
    names.push(String::from_str(alloc, text)?)?;
    Ok(())
}

/// The words of a line.
fn words_in(alloc: Global, line: &[u8]) -> Result<Vec<String>, AllocError> {
    let mut names = Vec::new(alloc);
    for word in line.split(|byte| matches!(*byte, b' ' | b'\t' | b'\r' | b',')) {
        if !word.is_empty() {
            put_heading(&mut names, alloc, word)?;
        }
    }
    Ok(names)
}

/// The texts of the fields of a row.
fn texts_of(alloc: Global, fields: &ByteRecord) -> Result<Vec<String>, AllocError> {
    let mut names = Vec::new(alloc);
    for place in 0..fields.len() {
        put_heading(&mut names, alloc, fields.get(place).unwrap_or(&[]))?;
    }
    Ok(names)
}

/// The fields of a line.
fn fields_in(alloc: Global, line: &[u8], separator: Separator) -> Result<Vec<String>, AllocError> {
    let reading = TableReading {
        separator,
        header: false,
        columns: None,
        factor: None,
    };
    let rows = read_rows(alloc, line, &reading)?;
    match rows.first() {
        Some(row) => texts_of(alloc, &row.fields),
        None => Ok(Vec::new(alloc)),
    }
}

/// The words or fields of a line.
fn parts_in(alloc: Global, line: &[u8], delimiter: Delimiter) -> Result<Vec<String>, AllocError> {
    match delimiter {
        Delimiter::Sign(separator) => fields_in(alloc, line, separator),
        Delimiter::Any | Delimiter::Unsaid => words_in(alloc, line),
    }
}

/// The words or fields of the first line of a text that says something.
fn headings_of(alloc: Global, text: &[u8], delimiter: Delimiter) -> Result<Headings, AllocError> {
    let mut lines = edge_lines(text, false);
    match lines.next_told() {
        Some((number, line)) => {
            let names = parts_in(alloc, line, delimiter)?;
            Ok(Headings {
                line: Some(number),
                names,
            })
        }
        None => Ok(Headings {
            line: None,
            names: Vec::new(alloc),
        }),
    }
}

/// What the columns of two ends are called most.
const USUAL_HEADINGS: [(&str, &str); 6] = [
    ("source", "target"),
    ("from", "to"),
    ("src", "dst"),
    ("fromnodeid", "tonodeid"),
    ("node1", "node2"),
    ("id1", "id2"),
];

/// Whether two words are what the columns of two ends are called most, in letters of either case.
fn are_usual(first: &str, second: &str) -> bool {
    for (from, to) in USUAL_HEADINGS {
        if first.eq_ignore_ascii_case(from) && second.eq_ignore_ascii_case(to) {
            return true;
        }
    }
    false
}

/// Whether the first line of a text that says something looks like headings, and no word says that it is one.
pub(crate) fn looks_headed(
    alloc: Global,
    asked: &ImportRequest,
    text: &[u8],
) -> Result<bool, AllocError> {
    if asked.header || asked.columns.is_some() {
        return Ok(false);
    }
    let headings = headings_of(alloc, text, asked.delimiter)?;
    match headings.names.as_slice() {
        [first, second, ..] => Ok(are_usual(first.as_str(), second.as_str())),
        _ => Ok(false),
    }
}

/// The place of a heading.
fn place_of(headings: &Headings, name: &str) -> Option<usize> {
    for (place, heading) in headings.names.iter().enumerate() {
        if heading.as_str() == name {
            return Some(place);
        }
    }
    None
}

/// Adds the headings that there are: `: there are a, b`.
fn put_headings(draft: &mut Draft, headings: &Headings) {
    for (place, heading) in headings.names.iter().enumerate() {
        draft.put(if place == 0 { ": there are `" } else { "`, `" });
        draft.put(heading.as_str());
    }
    if !headings.names.is_empty() {
        draft.put("`");
    }
}

/// What is told where no column has this heading.
fn no_heading(
    alloc: Global,
    asked: &ImportRequest,
    headings: &Headings,
    name: &str,
) -> Result<String, AllocError> {
    let mut draft = Draft::new(alloc);
    draft.put("edges NoHeading\n");
    put_place(&mut draft, name_at(asked.path.as_str()), headings.line);
    draft.put(": no column has the heading `");
    draft.put(name);
    draft.put("`");
    put_headings(&mut draft, headings);
    draft.end()
}

/// The place of a column, counted from 0.
fn column_place(
    alloc: Global,
    asked: &ImportRequest,
    headings: &Headings,
    column: &ColumnWord,
) -> Result<usize, Ending> {
    match column {
        ColumnWord::Number(number) => Ok((*number as usize).saturating_sub(1)),
        ColumnWord::Name(name) => match place_of(headings, name.as_str()) {
            Some(place) => Ok(place),
            None => Err(Ending::refused(no_heading(alloc, asked, headings, name.as_str()))),
        },
    }
}

/// The place of a column that may be left out.
fn place_where(
    alloc: Global,
    asked: &ImportRequest,
    headings: &Headings,
    column: &Option<ColumnWord>,
) -> Result<Option<usize>, Ending> {
    match column {
        None => Ok(None),
        Some(column) => {
            let place = column_place(alloc, asked, headings, column)?;
            Ok(Some(place))
        }
    }
}

/// The places of the columns that words name.
fn places_of(
    alloc: Global,
    asked: &ImportRequest,
    text: &[u8],
    columns: &ColumnWords,
) -> Result<Columns, Ending> {
    let headings = headings_of(alloc, text, asked.delimiter)?;
    let first = column_place(alloc, asked, &headings, &columns.first)?;
    let second = column_place(alloc, asked, &headings, &columns.second)?;
    let weight = place_where(alloc, asked, &headings, &columns.weight)?;
    Ok(Columns {
        first,
        second,
        weight,
    })
}

/// The places of the columns that are meant, where that is said.
pub(crate) fn columns_for(
    alloc: Global,
    asked: &ImportRequest,
    text: &[u8],
) -> Result<Option<Columns>, Ending> {
    match &asked.columns {
        None => Ok(None),
        Some(columns) => {
            let places = places_of(alloc, asked, text, columns)?;
            Ok(Some(places))
        }
    }
}
