//! The line that says of which kind a text is.
ghost use Rattle.std.specs.Prelude.{◌≡◌, ◌+◌, ◌<◌, ◌≤◌, ◌^◌, ◌∷◌, ◌==◌, [], length, Option, MatchOption, not, slice_index};
ghost use Rattle.std.specs.List.{list_any, after_first};
ghost use Rattle.net_patterns.specs.Rle.{is_blank};
ghost use Rattle.net_patterns.specs.Texts.{is_line_feed, says_nothing, told_from};

use crate::runs::is_blank;
use import_lines::split_line;

/// A line that says something.
#[derive(Clone, Copy)]
pub(crate) struct Opening<'a> {
    /// Its number, counted from 1.
    pub(crate) line: u64,
    /// The text from its first byte to the end.
    pub(crate) text: &'a [u8],
    /// The text after it.
    pub(crate) rest: &'a [u8],
}

/// Whether a byte other than blanks, TAB, CR and LF stands in a line.
fn has_sign(line: &[u8]) -> bool
    ensures { result ≡ list_any (λ b. not (is_blank b)) line.now }
{
    for byte in line {
        if !is_blank(*byte) {
            return true;
        }
    }
    false
}

/// Whether a line is a comment of runs, or blank.
fn says_nothing(line: &[u8]) -> bool
    ensures { result ≡ says_nothing line.now }
{
    match line.first() {
        Some(b'#') => true,
        _ => !has_sign(line),
    }
}

/// The first line that says something.
pub(crate) fn first_told(bytes: &[u8]) -> Option<Opening<'_>>
    ensures told { MatchOption result (told_from 1 bytes.now ≡ []) (λ o. told_from 1 bytes.now ≡ (o.line, o.text.now) ∷ told_from (o.line + 1) o.rest.now) }
    ensures rest { MatchOption result (Unit {0}) (λ o. o.rest.now ≡ after_first is_line_feed o.text.now) }
    ensures room { MatchOption result (Unit {0}) (λ o. o.line + length o.rest.now < 2 ^ 63) }
{
    let mut line = 1;
    let mut text = bytes;
    while !text.is_empty() {
        let (head, rest) = split_line(text);
        if !says_nothing(head) {
            return Some(Opening { line, text, rest });
        }
        text = rest;
        line += 1;
    }
    None
}
