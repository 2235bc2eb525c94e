//! How steps are told.

/// How steps are told.
#[derive(Clone, Copy)]
pub struct Show {
    /// Whether steps stand as a schedule spells them, by slots, and answers by counts, in place of sentences with values.
    pub slots: bool,
    /// Whether all counts are shown after each step.
    pub counts: bool,
}
