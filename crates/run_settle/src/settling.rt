//! What becomes of the rounds of a plan.

/// What becomes of the rounds of a plan up to a limit. Rounds are counted from round 0.
#[derive(Clone, Copy)]
pub enum Settling {
    /// From this round on no state changes, and before it each round changed one.
    Settles { round: u32 },
    /// From this round on the states come again after `period` rounds, two or more, and no earlier. None of those before this
    /// round ever comes again.
    Repeats { round: u32, period: u32 },
    /// Up to the limit all states of a round are other than those of any round before.
    Open { limit: u32 },
}
