//! Which nodes beside a node's corners are its neighbours.
ghost use Rattle.std.specs.Prelude.{◌≡◌};
ghost use Rattle.net_shapes.specs.Frames.{slant_of, slants};

/// Which of the nodes in the rows beside a node's own, at the columns beside its own, are its neighbours.
#[derive(Clone, Copy)]
pub(crate) enum Slant {
    /// None of them.
    Straight,
    /// All of them.
    Diagonal,
    /// Of a node in an odd row, counted from 0, those at the right, and of one in an even row those at the left, as the cells
    /// of rows of hexagons of which each second one is shifted to the right.
    Hexagonal,
}

impl Slant {
    /// All of them, or none.
    pub(crate) fn of(diagonals: bool) -> Slant
        ensures { result ≡ slant_of diagonals }
    {
        if diagonals {
            Slant::Diagonal
        } else {
            Slant::Straight
        }
    }

    /// Whether the node at a column beside that of another one, in a row beside it, is its neighbour.
    pub(crate) fn keeps(self, row: u32, column: u32, beside: u32) -> bool
        ensures { result ≡ slants self row column beside }
    {
        match self {
            Slant::Straight => false,
            Slant::Diagonal => true,
            Slant::Hexagonal => {
                if row % 2 == 1 {
                    column < beside
                } else {
                    beside < column
                }
            }
        }
    }
}
