//! A text that grows bit by bit.

use std::alloc::{AllocError, Global};

/// A text that grows. Where memory is wanting nothing more is added, and `end` gives no text.
#[derive(Drop)]
pub struct Draft {
    text: String,
    /// Whether all that was put is in the text.
    is_whole: bool,
}

impl Draft {
    /// The empty text.
    pub fn new(alloc: Global) -> Draft {
        Draft {
            text: String::new(alloc),
            is_whole: true,
        }
    }

    /// Adds a text.
    pub fn put(&mut self, text: &str) {
        self.is_whole = self.is_whole && self.text.push_str(text).is_ok();
    }

    /// Adds a character.
    pub(crate) fn put_char(&mut self, c: char) {
        self.is_whole = self.is_whole && self.text.push(c).is_ok();
    }

    /// Whether nothing was put.
    pub fn is_empty(&self) -> bool {
        self.text.is_empty()
    }

    /// Adds a number in decimal digits.
    pub fn put_count(&mut self, count: u64) {
        self.is_whole = self.is_whole && write!(&mut self.text, "{count}").is_ok();
    }

    /// Adds a text in a column of twelve characters.
    pub fn put_column(&mut self, text: &str) {
        self.is_whole = self.is_whole && write!(&mut self.text, "{text:<12}").is_ok();
    }

    /// Whether this character stands last.
    pub(crate) fn ends_with(&self, c: char) -> bool {
        self.text.as_str().ends_with(c)
    }

    /// The text; none where memory was wanting for a part of it.
    pub fn end(self) -> Result<String, AllocError> {
        if self.is_whole {
            Ok(self.text)
        } else {
            Err(AllocError)
        }
    }
}
