//! Where the entries of a list in a TOML document begin. The reader of TOML keeps no places, so they are found by the
//! brackets of a document that it has read, strings and comments left aside, and what stands there is read by it alone.

use std::alloc::{AllocError, Global};
use std::str;
use toml::Value;

/// Whether the byte is a blank of TOML.
fn is_blank(byte: u8) -> bool {
    matches!(byte, b' ' | b'\t' | b'\r' | b'\n')
}

/// How many bytes there are up to the first of these, or to the end.
fn up_to(bytes: &[u8], mark: &[u8]) -> usize {
    for (at, _) in bytes.iter().enumerate() {
        if bytes[at..].starts_with(mark) {
            return at;
        }
    }
    bytes.len()
}

/// How long the string at the front is, whose quotes are these three bytes or this one.
fn string_length(bytes: &[u8], quote: &[u8]) -> usize {
    let inner = bytes.len().min(quote.len());
    let length = up_to(&bytes[inner..], quote);
    inner.saturating_add(length).saturating_add(quote.len())
}

/// How many bytes belong together at the front: a comment up to its LF, a string, or one byte.
fn unit_length(bytes: &[u8]) -> usize {
    if bytes.starts_with(b"#") {
        return up_to(bytes, b"\n").max(1);
    }
    if bytes.starts_with(b"\"\"\"") {
        return string_length(bytes, b"\"\"\"");
    }
    if bytes.starts_with(b"'''") {
        return string_length(bytes, b"'''");
    }
    if bytes.starts_with(b"\"") {
        return string_length(bytes, b"\"");
    }
    if bytes.starts_with(b"'") {
        return string_length(bytes, b"'");
    }
    1
}

/// The depth after a byte, in brackets and braces.
fn depth_behind(depth: usize, byte: u8) -> usize {
    match byte {
        b'[' | b'{' => depth.saturating_add(1),
        b']' | b'}' => depth.saturating_sub(1),
        _ => depth,
    }
}

/// How many bytes the statement at the front has: up to the first LF outside brackets, or to the end.
fn statement_length(bytes: &[u8]) -> usize {
    let mut depth = 0;
    let mut next = 0;
    for (at, byte) in bytes.iter().enumerate() {
        if at < next {
            continue;
        }
        if *byte == b'\n' && depth == 0 {
            return at;
        }
        depth = depth_behind(depth, *byte);
        next = at.saturating_add(unit_length(&bytes[at..]));
    }
    bytes.len()
}

/// The name in a header `[name]`, where the statement is one.
fn header(statement: &[u8]) -> Option<&[u8]> {
    let rest = statement.trim_ascii_start().strip_prefix(b"[")?;
    let length = up_to(rest, b"]").min(rest.len());
    Some(rest[..length].trim_ascii())
}

/// How many bytes stand before the value, where the statement gives one to this key.
fn value_offset(statement: &[u8], key: &[u8]) -> Option<usize> {
    let equal = up_to(statement, b"=");
    if equal >= statement.len() || statement[..equal].trim_ascii() != key {
        return None;
    }
    let value = &statement[equal + 1..];
    let blanks = value.len().saturating_sub(value.trim_ascii_start().len());
    Some(equal.saturating_add(1).saturating_add(blanks))
}

/// Where the statement begins that gives a key of a table its value, and where the value does; the table at the top has
/// the empty name.
fn statement_place(text: &[u8], table: &[u8], key: &[u8]) -> Option<(usize, usize)> {
    let mut inside = table.is_empty();
    let mut next = 0;
    for (at, _) in text.iter().enumerate() {
        if at < next {
            continue;
        }
        let rest = &text[at..];
        let statement = &rest[..statement_length(rest).min(rest.len())];
        next = at.saturating_add(statement.len()).saturating_add(1);
        match (header(statement), value_offset(statement, key)) {
            (Some(name), _) => inside = name == table,
            (None, Some(offset)) if inside => return Some((at, at.saturating_add(offset))),
            _ => {}
        }
    }
    None
}

/// Where the value of a key in a table begins, where that is seen.
pub(crate) fn value_place(text: &[u8], table: &str, key: &str) -> Option<usize> {
    let (_, value) = statement_place(text, table.as_bytes(), key.as_bytes())?;
    Some(value)
}

/// Where a key in a table stands, where that is seen.
pub(crate) fn key_place(text: &[u8], table: &str, key: &str) -> Option<usize> {
    let (start, _) = statement_place(text, table.as_bytes(), key.as_bytes())?;
    let rest = text.get(start..)?;
    Some(start.saturating_add(rest.len().saturating_sub(rest.trim_ascii_start().len())))
}

/// How many bytes stand before the entry of this number in the list at the front, counted from 0.
fn entry_offset(list: &[u8], entry: usize) -> Option<usize> {
    let mut depth = 0;
    let mut count = 0usize;
    let mut awaits = true;
    let mut next = 1;
    for (at, byte) in list.iter().enumerate() {
        if at < next {
            continue;
        }
        let opens = awaits && !is_blank(*byte) && *byte != b'#';
        if opens && count == entry {
            return Some(at);
        }
        if opens {
            count = count.saturating_add(1);
        }
        awaits = awaits && !opens || *byte == b',' && depth == 0;
        depth = depth_behind(depth, *byte);
        next = at.saturating_add(unit_length(&list[at..]));
    }
    None
}

/// How many bytes the value at the front has: up to a comma, a closing bracket or an LF outside its own brackets.
fn value_length(bytes: &[u8]) -> usize {
    let mut depth = 0;
    let mut next = 0;
    for (at, byte) in bytes.iter().enumerate() {
        if at < next {
            continue;
        }
        let ends = matches!(*byte, b',' | b']' | b'}' | b'\n' | b'#');
        if ends && depth == 0 {
            return at;
        }
        depth = depth_behind(depth, *byte);
        next = at.saturating_add(unit_length(&bytes[at..]));
    }
    bytes.len()
}

/// How TOML writes the value that these bytes are, where they are one.
fn rewritten(alloc: Global, bytes: &[u8]) -> Result<Option<String>, AllocError> {
    let Ok(text) = str::from_utf8(bytes) else {
        return Ok(None);
    };
    match Value::from_str(alloc, text) {
        Ok(value) => Ok(Some(value.to_string(alloc)?)),
        Err(error) if error.span().is_some() => Ok(None),
        Err(_) => Err(AllocError),
    }
}

/// The bytes of the entry of this number in the list at a key of a table, and where they begin. None where the list is
/// written in another way, as in a table on one line.
fn entry_bytes<'t>(
    text: &'t [u8],
    table: &str,
    key: &str,
    entry: usize,
) -> Option<(usize, &'t [u8])> {
    let start = value_place(text, table, key)?;
    let list = text.get(start..)?;
    if !list.starts_with(b"[") {
        return None;
    }
    let offset = entry_offset(list, entry)?;
    let rest = list.get(offset..)?;
    let value = rest[..value_length(rest).min(rest.len())].trim_ascii_end();
    Some((start.saturating_add(offset), value))
}

/// Where the entry of this number begins in the list at a key of a table, and how TOML writes it, where that is seen.
pub(crate) fn entry_seen(
    alloc: Global,
    text: &[u8],
    table: &str,
    key: &str,
    entry: usize,
) -> Result<Option<(usize, String)>, AllocError> {
    let Some((at, bytes)) = entry_bytes(text, table, key, entry) else {
        return Ok(None);
    };
    match rewritten(alloc, bytes)? {
        Some(written) => Ok(Some((at, written))),
        None => Ok(None),
    }
}

/// Where the entry of this number begins in the list at a key of a table, where what stands there reads to a value that
/// TOML writes so.
pub(crate) fn entry_place(
    alloc: Global,
    text: &[u8],
    table: &str,
    key: &str,
    entry: usize,
    written: &str,
) -> Result<Option<usize>, AllocError> {
    match entry_seen(alloc, text, table, key, entry)? {
        Some((at, other)) if other.as_str() == written => Ok(Some(at)),
        _ => Ok(None),
    }
}
