//! What lines of a trace say.

use unison_world::Step;

/// Values of fields, where they are given.
#[derive(Clone, Copy)]
pub(crate) struct Given {
    /// For each field of the program, by its place, its value.
    pub values: [Option<u32>; 8],
}

/// Values that words have given so far.
#[derive(Clone, Copy)]
pub(crate) struct Gathered {
    /// The first value of each field that has one.
    pub given: Given,
    /// Whether a field has been given a value again.
    pub twice: bool,
}

/// A step, and what is given of the state that it shows.
#[derive(Clone, Copy)]
pub(crate) struct Entry {
    pub step: Step,
    pub given: Given,
}
