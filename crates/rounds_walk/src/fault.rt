//! Why no value is set.

use thiserror::Error;

/// Why a value is not set: the first of these that holds.
#[derive(Clone, Copy, Debug, PartialEq, Eq, Error)]
pub enum SetFault {
    /// The program has no such field.
    #[error("the program has no such field")]
    NoField,
    /// There is no such node.
    #[error("there is no such node")]
    NoNode,
}
