//! Daemons: who chooses the nodes that move.

/// The daemons of the field. Again and again one chooses some of the nodes that are enabled: those below the stop none of
/// whose neighbours has moved less often. Each of these reads all its neighbours, and then each of them moves, until every
/// node stands at the stop. The same seed draws the same nodes. (A daemon that goes round all nodes in the order of their
/// numbers makes the list of `Manner::Sweeps`.)
#[derive(Clone, Copy)]
pub enum Daemon {
    /// One enabled node at a time, drawn at random.
    Central { seed: u64 },
    /// All enabled nodes at a time.
    Synchronous,
    /// Each enabled node with so many chances of a hundred, and one that is drawn at random where none came. A share above
    /// 100 is as 100.
    Distributed { seed: u64, share: u32 },
    /// One node at a time: `ahead` wherever it is enabled, and its neighbour `behind` only where no other is. The rest are
    /// drawn at random.
    Adversary { seed: u64, ahead: u32, behind: u32 },
}
