//! How a matrix is packed.
ghost use Rattle.std.specs.Prelude.{◌≡◌};
ghost use Rattle.import_network.specs.Entries.{reading_of, packing_options};

use import_formats::matrix_market::{Direction, EntryReading};
use large_pack::{PackOptions, Parallel, SelfLoops};

/// How a matrix is read and packed.
#[derive(Clone, Copy, Debug)]
pub struct MatrixOptions {
    /// Whether the direction of the edges of a general matrix is left aside. Otherwise an entry of such a matrix makes
    /// its column a neighbour of its row alone.
    pub undirected: bool,
    /// What each value is multiplied by, and whether decimal ones are taken. None: a value is a whole number. Some: it
    /// is any number, times this, rounded to the nearest whole number.
    pub factor: Option<u32>,
    /// What is done with self-loops, which are the entries of the diagonal.
    pub self_loops: SelfLoops,
    /// What is done with entries that join the same two nodes.
    pub parallel: Parallel,
}

impl MatrixOptions {
    /// How the entries are read.
    pub(crate) fn reading(&self) -> EntryReading
        ensures { result ≡ reading_of self.now }
    {
        EntryReading {
            most_nodes: u32::MAX,
            direction: if self.undirected {
                Direction::LeftAside
            } else {
                Direction::Kept
            },
            factor: self.factor,
        }
    }

    /// How the edges between so many nodes are packed.
    pub(crate) fn packing(&self, nodes: u32, is_directed: bool) -> PackOptions
        ensures { result ≡ packing_options self.now nodes is_directed }
    {
        PackOptions {
            nodes: Some(nodes),
            is_directed,
            reverse: false,
            factor: self.factor,
            header: false,
            self_loops: self.self_loops,
            parallel: self.parallel,
        }
    }
}
