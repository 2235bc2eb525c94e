//! The text of a line, and its parts.
ghost use Rattle.std.specs.Prelude.{◌≡◌, MatchResult, Ok, Err};
ghost use Rattle.std.specs.List.{list_any};
ghost use Rattle.std.specs.Option.{option_copied};
ghost use Rattle.std.specs.Str.{is_utf8};
ghost use Rattle.import_lines.specs.Texts.{words_of};
ghost use Rattle.import_lines.specs.Parts.{IsGiven, is_control, shown, parts_of};

use crate::words::next_word;
use crate::words_fault::WordsFault;
use std::str;

/// The most bytes of a line that says an edge.
const MOST_BYTES: usize = 65536;

/// Whether a byte is a control character other than TAB and CR.
fn is_control(byte: u8) -> bool
    ensures { result ≡ is_control byte }
{
    byte < 32 && byte != b'\t' && byte != b'\r' || byte == 127
}

/// Whether a control character stands in the bytes.
fn has_control(bytes: &[u8]) -> bool
    ensures { result ≡ list_any is_control bytes.now }
{
    for byte in bytes {
        if is_control(*byte) {
            return true;
        }
    }
    false
}

/// The words of a line that has two or three.
#[derive(Clone, Copy)]
pub struct Parts<'a> {
    /// The first word.
    pub first: &'a str,
    /// The second word.
    pub second: &'a str,
    /// The third word, where there is one.
    pub third: Option<&'a str>,
}

/// A line as a text that may be shown: `NotUtf8`, `ControlCharacter` or `LongLine`, in this order, where it may not.
pub fn line_text(line: &[u8]) -> Result<&str, WordsFault>
    ensures { IsGiven (λ s. s.now) (shown line.now) result }
{
    let Ok(text) = str::from_utf8(line) else {
        return Err(WordsFault::NotUtf8);
    };
    if has_control(line) {
        return Err(WordsFault::ControlCharacter);
    }
    if line.len() > MOST_BYTES {
        return Err(WordsFault::LongLine);
    }
    Ok(text)
}

/// The two or three words of a line that says something: `OneWord` or `TooManyWords` where it has another number.
pub fn line_parts(text: &str) -> Result<Parts<'_>, WordsFault>
    ensures { IsGiven (λ p. (p.first.now, p.second.now, option_copied p.third)) (parts_of (words_of text.now)) result }
{
    let Some((first, rest)) = next_word(text) else {
        return Err(WordsFault::OneWord);
    };
    let Some((second, rest)) = next_word(rest) else {
        return Err(WordsFault::OneWord);
    };
    let Some((third, rest)) = next_word(rest) else {
        return Ok(Parts {
            first,
            second,
            third: None,
        });
    };
    if next_word(rest).is_some() {
        return Err(WordsFault::TooManyWords);
    }
    Ok(Parts {
        first,
        second,
        third: Some(third),
    })
}
