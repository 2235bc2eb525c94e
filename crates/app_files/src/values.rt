//! Values of fields as people write them: whole numbers, `none`, and names of states.

use crate::ending::Ending;
use crate::fields::value_named;
use app_table::number;
use std::alloc::{AllocError, Global};

/// What a word of a value may be, as messages say it.
pub const VALUE_WORDS: &str = "a whole number from 0 to 4294967295, none, or the name of a state";

/// A value of a field, as it is written.
#[derive(Drop)]
pub enum ValueWord {
    Number(u32),
    /// What may be the name of a state: it begins with a letter, and is not `none`.
    Name(String),
}

/// The number that a word writes: a whole number from 0 to 4294967295, or `none`, which is the greatest of them.
pub fn number_or_none(word: &str) -> Option<u32> {
    match word {
        "none" => Some(u32::MAX),
        word => number(word, 0, u32::MAX),
    }
}

/// Whether a word begins with a letter, as names of states do.
pub fn begins_with_letter(word: &str) -> bool {
    match word.as_bytes() {
        [first, ..] => first.is_ascii_alphabetic(),
        [] => false,
    }
}

impl ValueWord {
    /// The value that a word writes, where it is one.
    pub fn of(alloc: Global, word: &str) -> Result<Option<ValueWord>, AllocError> {
        if let Some(value) = number_or_none(word) {
            return Ok(Some(ValueWord::Number(value)));
        }
        if !begins_with_letter(word) {
            return Ok(None);
        }
        let name = String::from_str(alloc, word)?;
        Ok(Some(ValueWord::Name(name)))
    }

    /// The value, after an option, of a field of this name, whose values have these names.
    pub fn value(
        &self,
        alloc: Global,
        option: &str,
        field: &str,
        names: &[String],
    ) -> Result<u32, Ending> {
        match self {
            ValueWord::Number(value) => Ok(*value),
            ValueWord::Name(name) => value_named(alloc, option, field, names, name.as_str()),
        }
    }
}
