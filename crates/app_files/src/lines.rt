//! What is told of a line of a text in another format.

use app_table::Draft;
use import_lines::{WeightFault, WordsFault};

/// What is wrong with a line that is no text of words.
pub fn words_told(fault: WordsFault) -> (&'static str, &'static str) {
    match fault {
        WordsFault::NotUtf8 => ("NotUtf8", "the line is not UTF-8"),
        WordsFault::ControlCharacter => (
            "ControlCharacter",
            "a control character stands in the line",
        ),
        WordsFault::LongLine => ("LongLine", "the line has more than 65536 bytes"),
        WordsFault::OneWord => (
            "OneWord",
            "expected two names and, where it has one, a weight; found one word",
        ),
        WordsFault::TooManyWords => (
            "TooManyWords",
            "expected two names and, where it has one, a weight; found more than three words",
        ),
    }
}

/// What is wrong with a weight.
pub fn weight_told(fault: WeightFault) -> (&'static str, &'static str) {
    match fault {
        WeightFault::Negative => ("Negative", "a weight is 0 or more"),
        WeightFault::Decimal => (
            "Decimal",
            "a weight is a whole number, and this is a decimal one (--scale FACTOR multiplies and rounds)",
        ),
        WeightFault::BadWeight => (
            "BadWeight",
            "the weight is no number (of a list of edges, --header passes over a line of headings)",
        ),
        WeightFault::TooManyDigits => (
            "TooManyDigits",
            "the digits of a weight say less than 2 to the power of 64, whatever its point and its exponent",
        ),
        WeightFault::WeightTooLarge => ("WeightTooLarge", "a weight is 4294967295 at most"),
    }
}

/// Adds the name of a text, and the line where there is one.
pub fn put_place(draft: &mut Draft, name: &str, line: Option<u64>) {
    draft.put(name);
    if let Some(line) = line {
        draft.put(":");
        draft.put_count(line);
    }
}

/// Adds what was done to so many edges or weights, after what was done to others: `merged 2 edges into an earlier one`.
pub fn put_note(draft: &mut Draft, done: &str, count: u64, thing: &str, after: &str) {
    if count > 0 {
        draft.put(if draft.is_empty() { "" } else { ", " });
        draft.put(done);
        draft.put(" ");
        draft.put_count(count);
        draft.put(" ");
        draft.put(thing);
        draft.put(if count == 1 { "" } else { "s" });
        draft.put(after);
    }
}
