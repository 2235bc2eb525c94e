//! Why no round of a part is made.
use thiserror::Error;

/// Why no round of a part is made: the first of these that holds.
#[derive(Clone, Copy, Debug, PartialEq, Eq, Error)]
pub enum PartFault {
    /// There are more or fewer numbers than nodes in the rows.
    #[error("there are more or fewer numbers than nodes in the rows")]
    NumberCount,
    /// There is not one word for each field of each node.
    #[error("there are more or fewer words than fields of all nodes")]
    WordCount,
    /// There is not room for one word for each field of the first nodes, or of more nodes than the rows have.
    #[error("the room is not that of one word for each field of some of the nodes")]
    RoomCount,
}
