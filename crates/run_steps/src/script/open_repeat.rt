//! Repeats that are open.

/// A repeat whose end has not come yet.
#[derive(Clone, Copy)]
pub(crate) struct OpenRepeat {
    /// The number of its line, counted from 1.
    pub line: u64,
    /// How many steps stand before it.
    pub start: usize,
    /// How many times its steps come again, when they have come once.
    pub again: u32,
}
