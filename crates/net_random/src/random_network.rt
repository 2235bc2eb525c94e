//! Ways to draw a network at random.

/// A way to draw a network at random, with its size.
#[derive(Clone, Copy)]
pub enum RandomNetwork {
    /// So many different links among all pairs of nodes. All sets of so many links are alike.
    Random {
        nodes: u32,
        links: u32,
    },
    /// A random recursive tree: each node but node 0 is linked with one of the nodes before it, all of which are alike.
    Tree {
        nodes: u32,
    },
    /// Preferential attachment, as Barabási and Albert described it in 1999: nodes come one after another, and each is
    /// linked with so many different ones before it, or with all of them while they are fewer, each drawn in proportion to
    /// the links that it has.
    Preferential {
        nodes: u32,
        each: u32,
    },
    /// A regular network, each node with so many neighbours: links round a ring, whose ends are exchanged five times for each
    /// link, where that makes no self-loop and no parallel edge.
    Regular {
        nodes: u32,
        degree: u32,
    },
    /// A small world, as Watts and Strogatz described it in 1998: nodes round a ring, each linked with so many that follow it;
    /// then each link's second end is led, `rewire` times in `of`, to a node that is drawn, where one is found that makes no
    /// self-loop and no parallel edge; an `of` of 0 is taken as 1.
    SmallWorld {
        nodes: u32,
        near: u32,
        rewire: u32,
        of: u32,
    },
}
