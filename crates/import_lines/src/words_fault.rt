//! What is wrong with a line, but for what its words say.
use thiserror::Error;

/// What is wrong with a line of two or three words. Where several things are, the first in this order.
#[derive(Clone, Copy, Debug, PartialEq, Eq, Error)]
pub enum WordsFault {
    /// The line is not UTF-8.
    #[error("NotUtf8")]
    NotUtf8,
    /// A control character stands in the line: a byte below 32 other than TAB and CR, or the byte 127.
    #[error("ControlCharacter")]
    ControlCharacter,
    /// The line has more than 65,536 bytes, its LF not counted.
    #[error("LongLine")]
    LongLine,
    /// The line has one word alone.
    #[error("OneWord")]
    OneWord,
    /// The line has more than three words.
    #[error("TooManyWords")]
    TooManyWords,
}
