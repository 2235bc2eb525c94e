//! Shapes of networks.

/// A shape of a network, with its size.
#[derive(Clone, Copy)]
pub enum Shape {
    /// Each node is linked with the next one.
    Path {
        nodes: u32,
    },
    /// Each node is linked with the next one, and the last with the first.
    Ring {
        nodes: u32,
    },
    /// Node 0 is linked with each other node.
    Star {
        nodes: u32,
    },
    /// Each node is linked with the one at its right and the one below it. Nodes are numbered row by row.
    Grid {
        width: u32,
        height: u32,
    },
    /// A grid each of whose nodes is linked with those beside its corners, too. Of hexagons it is linked with two of the four
    /// alone: in odd rows with those at the right, in even ones with those at the left, as the cells of rows of hexagons of
    /// which each second one is shifted to the right.
    DiagonalGrid {
        width: u32,
        height: u32,
        hexagons: bool,
    },
    /// A grid whose rows and columns are rings of three nodes or more. With diagonals each node has eight neighbours.
    Torus {
        width: u32,
        height: u32,
        diagonals: bool,
    },
    /// Each node is linked with each other one.
    Complete {
        nodes: u32,
    },
    /// Each node of the left side, which comes first, is linked with each node of the right side.
    Bipartite {
        left: u32,
        right: u32,
    },
    /// Each node has so many children, as far as there are nodes. Nodes are numbered level by level from the root.
    Tree {
        nodes: u32,
        arity: u32,
    },
    /// Nodes are linked whose numbers, of so many binary digits, differ in one digit.
    Hypercube {
        dimension: u32,
    },
}
