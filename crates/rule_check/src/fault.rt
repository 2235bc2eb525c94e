//! Why a program is refused.

ghost use Rattle.std.specs.Prelude.{◌≡◌};
ghost use Rattle.rule_check.specs.declared.fault.CheckFault.TheVariants.{Memory};

use std::alloc::{AllocError, AllocFailed};
use thiserror::Error;

/// Why a program is refused: the first cause that holds, in this order. Running out of memory can come in place of each
/// but `TooManyFields`.
#[derive(Clone, Copy, Debug, PartialEq, Eq, Error)]
pub enum CheckFault {
    /// More than 8 `field` items.
    #[error("TooManyFields")]
    TooManyFields,
    /// Two `field` items of one name.
    #[error("FieldTwice")]
    FieldTwice,
    /// Two `next` items of one name.
    #[error("NextTwice")]
    NextTwice,
    /// A name that no `field` item declares.
    #[error("UnknownName")]
    UnknownName,
    /// A form of the neighbour outside an aggregate.
    #[error("NeighbourOutside")]
    NeighbourOutside,
    /// An aggregate in an aggregate.
    #[error("NestedAggregate")]
    NestedAggregate,
    /// More than 16 aggregates in all expressions together.
    #[error("TooManyAggregates")]
    TooManyAggregates,
    /// Out of memory.
    #[error("Memory")]
    Memory,
}

impl From<AllocError> for CheckFault {
    ghost from_gives = { λ _ e. e ≡ Memory };

    fn from(_error: AllocError) -> CheckFault {
        CheckFault::Memory
    }
}

impl<T: Drop> From<AllocFailed<T>> for CheckFault {
    ghost from_gives = { λ _ e. e ≡ Memory };

    fn from(_error: AllocFailed<T>) -> CheckFault {
        CheckFault::Memory
    }
}
