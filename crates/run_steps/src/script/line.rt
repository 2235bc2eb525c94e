//! Lines that say something.

use crate::script::action::Action;

/// What a line says.
#[derive(Clone, Copy)]
pub(crate) enum Line {
    /// Nodes make steps.
    Act { action: Action },
    /// The lines up to the end that belongs to it are repeated, so many times in all.
    Repeat { count: u32 },
    /// The end of the last repeat that has none yet.
    End,
}
