//! Why the text of a model has no program.

ghost use Rattle.std.specs.Prelude.{◌≡◌};
ghost use Rattle.model_rules.specs.ProgramFaults.{text_fault, expansion_fault};
ghost use Rattle.model_rules.specs.declared.program_fault.ModelProgramFault.TheVariants.{Memory};

use crate::fault::{Cause, ExpandFault};
use model_text::ModelFault;
use std::alloc::AllocError;

/// Why the text of a model has no program: the first cause that holds, in this order, but that running out of memory can
/// come in place of all but a text that is too long. Places are counted in bytes from 0.
#[derive(Clone, Copy)]
pub enum ModelProgramFault {
    /// The text is no model; the fault is never `Memory`.
    Text(ModelFault),
    /// The model is not expanded: what is wrong, and where. That its program would have more than 65,536 bytes is the cause
    /// `TooLong`, at the item with which it has.
    Expansion { cause: Cause, at: u32 },
    /// A constant that the caller sets and the model does not have: its place among those that are set, counted from 0.
    UnknownGiven { place: usize },
    /// Out of memory.
    Memory,
}

impl From<ModelFault> for ModelProgramFault {
    ghost from_gives = { λ fault e. e ≡ text_fault fault };

    fn from(fault: ModelFault) -> ModelProgramFault {
        match fault {
            ModelFault::Memory => ModelProgramFault::Memory,
            ModelFault::TooLong => ModelProgramFault::Text(ModelFault::TooLong),
            ModelFault::Lex { at } => ModelProgramFault::Text(ModelFault::Lex { at }),
            ModelFault::Syntax { at, expected } => {
                ModelProgramFault::Text(ModelFault::Syntax { at, expected })
            }
        }
    }
}

impl From<ExpandFault> for ModelProgramFault {
    ghost from_gives = { λ fault e. e ≡ expansion_fault fault };

    fn from(fault: ExpandFault) -> ModelProgramFault {
        match fault {
            ExpandFault::At { cause, at } => ModelProgramFault::Expansion { cause, at },
            ExpandFault::UnknownGiven { place } => ModelProgramFault::UnknownGiven { place },
            ExpandFault::Memory => ModelProgramFault::Memory,
        }
    }
}

impl From<AllocError> for ModelProgramFault {
    ghost from_gives = { λ _ e. e ≡ Memory };

    fn from(_error: AllocError) -> ModelProgramFault {
        ModelProgramFault::Memory
    }
}
