//! Manners in which steps follow each other.

use crate::daemon::Daemon;

/// Which steps a list has. Nodes, slots and the stop are as in a schedule.
#[derive(Clone, Copy)]
pub enum Manner {
    /// Whole sweeps: each node by rising number reads all its slots and then moves, until every node stands at the stop.
    Sweeps,
    /// At each step one of those that would change something, drawn at random, until every node stands at the stop. The
    /// same seed gives the same list.
    Random { seed: u64 },
    /// This node makes no step, and the others make theirs as long as they can. They come to rest at counts that are their
    /// distance from it after the start, or at the stop.
    Starve { node: u32 },
    /// This node gets as far ahead as it can: others move only where it waits for them, until it stands at the stop.
    Ahead { node: u32 },
    /// As `Random`, but some links, about a quarter of them, drawn by the seed, are read only where nothing else is left to
    /// do.
    SlowLinks { seed: u64 },
    /// Nodes that a daemon chooses move whole: they read all their neighbours and then move, until every node stands at the
    /// stop.
    Under { daemon: Daemon },
}
