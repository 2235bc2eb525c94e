//! The lines of a text that say something.
ghost use Rattle.std.specs.Prelude.{◌≡◌, ◌+◌, ◌<◌, ◌≤◌, ◌^◌, ◌++◌, ◌∷◌, [], length, MatchOption};
ghost use Rattle.std.specs.List.{position_or_len, before_first, after_first};
ghost use Rattle.import_lines.specs.Texts.{edge_lines, is_line_feed, told_from};

use crate::cuts::cut_at;
use crate::words::says_nothing;

/// What is left of a text after some of its lines.
#[derive(Clone, Copy)]
pub struct Lines<'a> {
    /// How many lines stand before.
    pub passed: u64,
    /// The bytes after them.
    pub bytes: &'a [u8],
}

/// How many bytes stand before the first LF.
pub fn line_length(bytes: &[u8]) -> usize
    ensures exact { result ≡ position_or_len is_line_feed bytes.now }
    ensures bound { result ≤ length bytes.now }
{
    for (place, byte) in bytes.iter().enumerate() {
        if *byte == b'\n' {
            return place;
        }
    }
    bytes.len()
}

/// The first line without its LF, and what stands after it.
pub fn split_line(bytes: &[u8]) -> (&[u8], &[u8])
    ensures line { result.0.now ≡ before_first is_line_feed bytes.now }
    ensures rest { result.1.now ≡ after_first is_line_feed bytes.now }
{
    cut_at(bytes, line_length(bytes))
}

impl<'a> Lines<'a> {
    /// All lines of a text.
    pub fn of(text: &'a [u8]) -> Lines<'a>
        ensures passed { result.passed ≡ 0 }
        ensures bytes { result.bytes.now ≡ text.now }
    {
        Lines {
            passed: 0,
            bytes: text,
        }
    }

    /// The next line that says something, with its number, counted from 1.
    pub fn next_told(&mut self) -> Option<(u64, &'a [u8])>
        requires room { self.old.passed + length self.old.bytes.now < 2 ^ 64 }
        ensures room { self.new.passed + length self.new.bytes.now < 2 ^ 64 }
        ensures told { MatchOption result (told_from (self.old.passed + 1) self.old.bytes.now ≡ []) (λ x. told_from (self.old.passed + 1) self.old.bytes.now ≡ (x.0, x.1.now) ∷ told_from (self.new.passed + 1) self.new.bytes.now) }
        ensures none { MatchOption result (told_from (self.new.passed + 1) self.new.bytes.now ≡ []) (λ _. Unit {0}) }
    {
        while !self.bytes.is_empty() {
            let (line, rest) = split_line(self.bytes);
            self.bytes = rest;
            self.passed += 1;
            if !says_nothing(line) {
                return Some((self.passed, line));
            }
        }
        None
    }
}

/// The lines of a text that say edges: those that say something, but for the first of them where it is a header.
pub fn edge_lines(text: &[u8], header: bool) -> Lines<'_>
    ensures room { result.passed + length result.bytes.now < 2 ^ 64 }
    ensures lines { told_from (result.passed + 1) result.bytes.now ≡ edge_lines header text.now }
{
    let mut lines = Lines::of(text);
    if header {
        lines.next_told();
    }
    lines
}
