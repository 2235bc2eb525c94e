//! Why the call on models was not done, and the numbers of the faults.
ghost use Rattle.std.specs.Prelude.{◌≡◌, ◌<◌};
ghost use Rattle.model_rules.specs.declared.program_fault.ModelProgramFault.TheVariants.{Memory};
ghost use Rattle.app_calls.specs.declared.models.fault.ModelCallFault.TheVariants.{Model, Constants};
ghost use Rattle.app_calls.specs.ModelNumbers.{cause_number, constants_number, model_number_of, refusal_number, text_number};

use model_rules::{Cause, ModelProgramFault};
use model_text::ModelFault;
use std::alloc::AllocError;

/// Why names and values set no constants: the first that holds, in this order.
#[derive(Clone, Copy, Debug, PartialEq, Eq)]
pub enum ConstantsFault {
    /// The text of the names is no UTF-8.
    NotUtf8,
    /// The last name has no LF after it.
    Unended,
    /// There are not as many values as names.
    ValueCount,
}

/// The first fault on the way from the text of a model to that of its program.
#[derive(Clone, Copy)]
pub enum ModelCallFault {
    /// The model has no program, or memory ran out. That its text is too long is told before names and values are looked
    /// at, all else after them.
    Model(ModelProgramFault),
    /// Names and values set no constants.
    Constants(ConstantsFault),
    /// There is too little room.
    Room,
}

impl From<ModelProgramFault> for ModelCallFault {
    ghost from_gives = { λ fault e. e ≡ Model fault };

    fn from(fault: ModelProgramFault) -> ModelCallFault {
        ModelCallFault::Model(fault)
    }
}

impl From<ConstantsFault> for ModelCallFault {
    ghost from_gives = { λ fault e. e ≡ Constants fault };

    fn from(fault: ConstantsFault) -> ModelCallFault {
        ModelCallFault::Constants(fault)
    }
}

impl From<AllocError> for ModelCallFault {
    ghost from_gives = { λ _ e. e ≡ Model Memory };

    fn from(_error: AllocError) -> ModelCallFault {
        ModelCallFault::Model(ModelProgramFault::Memory)
    }
}

impl ModelCallFault {
    /// The number of the fault, from 1 on.
    pub fn number(&self) -> u32
        ensures number { result ≡ model_number_of self.now }
        ensures some { 0 < result }
    {
        match self {
            ModelCallFault::Model(fault) => refusal_number(*fault),
            ModelCallFault::Constants(fault) => constants_number(*fault),
            ModelCallFault::Room => 2,
        }
    }
}

/// The number of why names and values set no constants.
fn constants_number(fault: ConstantsFault) -> u32
    ensures number { result ≡ constants_number fault }
    ensures some { 0 < result }
{
    match fault {
        ConstantsFault::NotUtf8 => 192,
        ConstantsFault::Unended => 193,
        ConstantsFault::ValueCount => 194,
    }
}

/// The number of why a model has no program.
fn refusal_number(fault: ModelProgramFault) -> u32
    ensures number { result ≡ refusal_number fault }
    ensures some { 0 < result }
{
    match fault {
        ModelProgramFault::Text(fault) => text_number(fault),
        ModelProgramFault::Expansion { cause, .. } => cause_number(cause),
        ModelProgramFault::UnknownGiven { .. } => 169,
        ModelProgramFault::Memory => 1,
    }
}

/// The number of why a text is no model.
fn text_number(fault: ModelFault) -> u32
    ensures number { result ≡ text_number fault }
    ensures some { 0 < result }
{
    match fault {
        ModelFault::Memory => 1,
        ModelFault::TooLong => 160,
        ModelFault::Lex { .. } => 161,
        ModelFault::Syntax { .. } => 162,
    }
}

/// The number of what is wrong with a model; where its program is too long, that of a text that is.
fn cause_number(cause: Cause) -> u32
    ensures number { result ≡ cause_number cause }
    ensures some { 0 < result }
{
    match cause {
        Cause::TooManyFields => 163,
        Cause::TooManyStates => 164,
        Cause::NameTwice => 165,
        Cause::NextTwice => 166,
        Cause::NoField => 167,
        Cause::UnknownStates => 168,
        Cause::UnknownName => 170,
        Cause::UnknownNear => 171,
        Cause::WrongCount => 172,
        Cause::WrongArguments => 173,
        Cause::NeighbourOutside => 174,
        Cause::NestedAggregate => 175,
        Cause::NotSeen => 176,
        Cause::Ring => 177,
        Cause::NotConstant => 178,
        Cause::OutOfRange => 179,
        Cause::NoState => 180,
        Cause::TooDeep => 181,
        Cause::TooManyAggregates => 182,
        Cause::TooLong => 160,
    }
}
