//! Why a text is no program, and where.

ghost use Rattle.std.specs.Prelude.{◌≡◌};
ghost use Rattle.rule_lang.specs.declared.cause.Refusal.TheVariants.{Memory};
ghost use Rattle.rule_lang.specs.Program.{fault_of, place_of};
ghost use Rattle.rule_lang.specs.Causes.{refusal_fault};

use crate::fault::LangFault;
use std::alloc::{AllocError, AllocFailed};

/// What could stand at the place at which a text cannot be read on.
#[derive(Clone, Copy, PartialEq, Eq)]
pub enum Expected {
    /// `field` or `next`, with which an item begins.
    Item,
    /// A name, which is no reserved word.
    Name,
    /// `=`
    Assign,
    /// A number.
    Number,
    /// `;`
    Semicolon,
    /// An operator.
    Operator,
    /// `)`
    Close,
    /// `then`
    Then,
    /// `else`
    Else,
    /// An expression.
    Expression,
    /// Nothing: an expression at this place would be deeper than 64.
    Shallower,
    /// Behind `n.`: the name of a field, `id` or `weight`.
    NearForm,
}

/// Why a text is no program, and where: the first cause that holds, in this order. Places are counted in bytes from 0.
#[derive(Clone, Copy, PartialEq, Eq)]
pub enum LangCause {
    /// The text has more than 65,536 bytes.
    TooLong,
    /// No token begins at the byte `at`; of a number above 4,294,967,295 it is the first digit.
    Lex { at: u32 },
    /// The token that begins at the byte `at` is the first that cannot stand at its place, at which `expected`
    /// could; where the text breaks off inside an item, `at` is the length of the text.
    Syntax { at: u32, expected: Expected },
}

impl LangCause {
    /// The fault that `read_program` answers.
    pub fn fault(self) -> LangFault
        ensures exact { result ≡ fault_of self }
    {
        match self {
            LangCause::TooLong => LangFault::TooLong,
            LangCause::Lex { at } => LangFault::Lex { at },
            LangCause::Syntax { at, .. } => LangFault::Syntax { at },
        }
    }

    /// The place in the text, in bytes from 0; of a text that is too long that of the first byte too many.
    pub fn place(self) -> u32
        ensures exact { result ≡ place_of self }
    {
        match self {
            LangCause::TooLong => 65536,
            LangCause::Lex { at } | LangCause::Syntax { at, .. } => at,
        }
    }
}

/// Why there is no program: a cause in the text, or running out of memory.
#[derive(Clone, Copy)]
pub enum Refusal {
    Cause(LangCause),
    Memory,
}

impl Refusal {
    /// The fault that `read_program` answers.
    pub fn fault(self) -> LangFault
        ensures exact { result ≡ refusal_fault self }
    {
        match self {
            Refusal::Cause(cause) => cause.fault(),
            Refusal::Memory => LangFault::Memory,
        }
    }
}

impl From<AllocError> for Refusal {
    ghost from_gives = { λ _ e. e ≡ Memory };

    fn from(_e: AllocError) -> Refusal {
        Refusal::Memory
    }
}

impl<T: Drop> From<AllocFailed<T>> for Refusal {
    ghost from_gives = { λ _ e. e ≡ Memory };

    fn from(_e: AllocFailed<T>) -> Refusal {
        Refusal::Memory
    }
}
