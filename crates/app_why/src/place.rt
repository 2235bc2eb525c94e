//! Lines and columns of bytes.
ghost use Rattle.std.specs.Prelude.{◌≡◌, ◌≤◌, length, drop};
ghost use Rattle.app_why.specs.Places.{IsLineStart, IsPlace, line_of, lines_ended, width};

use memchr::memrchr;
use std::str;

/// The place of a byte in a text.
#[derive(Clone, Copy)]
pub struct Place {
    /// The number of its line, counted from 1; a line more begins after each LF.
    pub line: usize,
    /// The number of its column, counted from 1: in characters where what stands before it in its line is UTF-8, and
    /// else in bytes.
    pub column: usize,
    /// The place at which its line begins, in bytes from 0.
    pub start: usize,
}

/// How many lines end in these bytes.
fn lines_ended(bytes: &[u8]) -> usize
    ensures exact { result ≡ lines_ended bytes.now }
    ensures bound { result ≤ length bytes.now }
{
    let mut count = 0;
    for byte in bytes {
        if *byte == b'\n' {
            count += 1;
        }
    }
    count
}

/// Where the last line of these bytes begins.
fn line_start(bytes: &[u8]) -> usize
    ensures start { IsLineStart bytes.now result }
{
    match memrchr(b'\n', bytes) {
        Some(last) => last + 1,
        None => 0,
    }
}

/// How many characters these bytes are, or how many bytes where they are no UTF-8.
fn width(bytes: &[u8]) -> usize
    ensures exact { result ≡ width bytes.now }
    ensures bound { result ≤ length bytes.now }
{
    match str::from_utf8(bytes) {
        Ok(text) => text.chars().count(),
        Err(_) => bytes.len(),
    }
}

/// The place of the byte `at` of a text, counted from 0; for the length of the text, or more, that of its end.
pub fn place_at(text: &[u8], at: usize) -> Place
    ensures exact { IsPlace text.now at result }
{
    let before = &text[..at.min(text.len())];
    let start = line_start(before);
    Place {
        line: lines_ended(before) + 1,
        column: width(&before[start..]) + 1,
        start,
    }
}

/// The line of a text that begins at a byte, up to the next LF or to the end, without the LF. Past the end there is
/// nothing.
pub fn line_from(text: &[u8], start: usize) -> &[u8]
    ensures exact { result.now ≡ line_of (drop start text.now) }
{
    first_line(&text[start.min(text.len())..])
}

/// The bytes up to the first LF, or all of them.
fn first_line(bytes: &[u8]) -> &[u8]
    ensures exact { result.now ≡ line_of bytes.now }
{
    for (end, byte) in bytes.iter().enumerate() {
        if *byte == b'\n' {
            return &bytes[..end];
        }
    }
    bytes
}
