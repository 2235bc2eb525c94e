//! Why a model is not expanded.

ghost use Rattle.std.specs.Prelude.{◌≡◌};
ghost use Rattle.model_rules.specs.declared.fault.ExpandFault.TheVariants.{At, Memory};

use std::alloc::{AllocError, AllocFailed};

/// What is wrong at a place of a model. Down to `UnknownStates` it is told of the whole model before anything is expanded:
/// where several hold, the first in this order, and of that the first place. Then constants, states and lets are expanded,
/// each once all that it uses is known, and then fields and next values in the text's order; of these the first fault is
/// told.
#[derive(Clone, Copy)]
pub enum Cause {
    /// The ninth field.
    TooManyFields,
    /// The 257th state.
    TooManyStates,
    /// An item or a state with the name of an earlier one, a parameter with the name of any of them or of a parameter
    /// before it, or a state or a let called `seed`, as the constant that each model has.
    NameTwice,
    /// A `next` item for a field that has one already.
    NextTwice,
    /// A `next` item for the name of no field.
    NoField,
    /// The name of no states after a field.
    UnknownStates,
    /// A name that no constant, state, field, let or parameter has.
    UnknownName,
    /// Behind `n.` the name of no field and no let, as that of a constant or a state.
    UnknownNear,
    /// A let that takes another number of arguments, or a field or a parameter with brackets.
    WrongCount,
    /// A function of the notation that takes another number of arguments.
    WrongArguments,
    /// A form of the neighbour outside of an aggregate.
    NeighbourOutside,
    /// An aggregate in an aggregate, also by a let.
    NestedAggregate,
    /// A let after `n.` that uses an aggregate, `degree` or a form of the neighbour.
    NotSeen,
    /// A constant or a let that uses itself, also by others.
    Ring,
    /// What is no constant, where a constant has to stand.
    NotConstant,
    /// A constant above 4,294,967,295 or below 0, or divided by 0; a constant below which a draw is to be and that is not
    /// from 1 to 65,536; a chance above 1.
    OutOfRange,
    /// A field whose initial value is none of its states.
    NoState,
    /// A let or a next value that would be deeper than 64.
    TooDeep,
    /// The item with which the expansion would have more than 16 aggregates.
    TooManyAggregates,
    /// The item with which the expansion would have more than 65,536 bytes, or one of whose expression more than 65,536
    /// parts are made up to its first other fault.
    TooLong,
}

/// Why a model is not expanded.
#[derive(Clone, Copy)]
pub enum ExpandFault {
    /// What is wrong, and its place in the text in bytes from 0: that of the name, the call or the form of the neighbour,
    /// or of the name of the item.
    At { cause: Cause, at: u32 },
    /// A constant that the caller sets and the model does not have: its place among those that are set, counted from 0.
    /// Looked for after `UnknownStates`, before anything is expanded.
    UnknownGiven { place: usize },
    /// Out of memory.
    Memory,
}

/// What is wrong at a place.
pub fn wrong(cause: Cause, at: u32) -> ExpandFault
    ensures exact { result ≡ At cause at }
{
    ExpandFault::At { cause, at }
}

impl From<AllocError> for ExpandFault {
    ghost from_gives = { λ _ e. e ≡ Memory };

    fn from(_e: AllocError) -> ExpandFault {
        ExpandFault::Memory
    }
}

impl<T: Drop> From<AllocFailed<T>> for ExpandFault {
    ghost from_gives = { λ _ e. e ≡ Memory };

    fn from(_e: AllocFailed<T>) -> ExpandFault {
        ExpandFault::Memory
    }
}
