//! What is drawn of a run.

use crate::styles::ValueStyles;
use run_watch::Span;

/// By which field nodes are coloured, and how its values are shown.
#[derive(Clone, Copy)]
pub struct Colouring<'a> {
    /// The place of the field.
    pub field: u32,
    /// How its values are shown.
    pub styles: &'a ValueStyles<'a>,
}

/// What is drawn of a run: some of its rounds, in the colours of a field.
#[derive(Clone, Copy)]
pub struct Drawing<'a> {
    /// The rounds.
    pub span: &'a Span,
    /// How nodes are coloured in them.
    pub colouring: Colouring<'a>,
}

/// How a grid moves that shows one round after the other.
#[derive(Clone, Copy)]
pub struct MovingGrid {
    /// How many nodes stand in a row.
    pub width: u32,
    /// For how many milliseconds each round is seen.
    pub time: u32,
}
