//! Frames that are shown one after the other, over and over.

use crate::key::Key;

/// How many frames there are, and for how many milliseconds each is seen.
#[derive(Clone, Copy)]
pub(crate) struct Pace {
    pub(crate) frames: u32,
    pub(crate) time: u32,
}

/// The values of so many nodes frame by frame, in the colours of a key.
#[derive(Clone, Copy)]
pub(crate) struct Film<'a> {
    pub(crate) key: &'a Key<'a>,
    pub(crate) pace: Pace,
    pub(crate) nodes: u32,
    pub(crate) values: &'a [u32],
}
