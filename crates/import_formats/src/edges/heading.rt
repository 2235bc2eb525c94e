//! A line of headings.
ghost use Rattle.std.specs.Prelude.{◌≡◌, ◌&&◌, ◌+◌, ◌<◌, ◌^◌, length, map};
ghost use Rattle.import_lines.specs.Texts.{told_from, words_of};
ghost use Rattle.import_lines.specs.Weights.{is_whole};
ghost use Rattle.import_formats.specs.edges.Headings.{are_names, are_numbers, said_words, words_in, heading_in};

use import_lines::{Lines, all_digits, line_text, next_word};

/// Whether the bytes are a whole number: digits alone, one or more.
pub fn is_whole(bytes: &[u8]) -> bool
    ensures whole { result ≡ is_whole bytes.now }
{
    !bytes.is_empty() && all_digits(bytes)
}

/// Whether there are two words, neither of which is a whole number, in front.
fn are_names(text: &str) -> bool
    ensures { result ≡ are_names (words_of text.now) }
{
    let Some((first, rest)) = next_word(text) else {
        return false;
    };
    let Some((second, _)) = next_word(rest) else {
        return false;
    };
    !is_whole(first.as_bytes()) && !is_whole(second.as_bytes())
}

/// Whether there are two words, both of which are whole numbers, in front.
fn are_numbers(text: &str) -> bool
    ensures { result ≡ are_numbers (words_of text.now) }
{
    let Some((first, rest)) = next_word(text) else {
        return false;
    };
    let Some((second, _)) = next_word(rest) else {
        return false;
    };
    is_whole(first.as_bytes()) && is_whole(second.as_bytes())
}

/// Whether the first of two lines has names at its front, and the second numbers.
fn is_heading(first: &[u8], second: &[u8]) -> bool
    ensures { result ≡ (are_names (said_words first.now) && are_numbers (said_words second.now)) }
{
    let Ok(first) = line_text(first) else {
        return false;
    };
    let Ok(second) = line_text(second) else {
        return false;
    };
    are_names(first) && are_numbers(second)
}

/// The number of the first line, where it looks like headings: neither of its first two words is a whole number, and both
/// of the line after it are.
pub(crate) fn heading_line(from: Lines<'_>) -> Option<u64>
    requires room { from.passed + length from.bytes.now < 2 ^ 64 }
    ensures { result ≡ heading_in (map words_in (told_from (from.entry.passed + 1) from.entry.bytes.now)) }
{
    let mut lines = from;
    let Some((number, first)) = lines.next_told() else {
        return None;
    };
    let Some((_, second)) = lines.next_told() else {
        return None;
    };
    if is_heading(first, second) {
        return Some(number);
    }
    None
}
