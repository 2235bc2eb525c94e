//! The threads among which rounds are shared.

/// Threads among which each round is shared that has enough to compute for them.
#[derive(Drop)]
pub struct Workers<'a, R> {
    /// What starts them.
    pub rt: &'a R,
    /// How many there are.
    pub count: usize,
}
