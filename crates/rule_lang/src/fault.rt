//! Why a program text was refused.

ghost use Rattle.std.specs.Prelude.{◌≡◌};
ghost use Rattle.rule_lang.specs.declared.fault.LangFault.TheVariants.{Memory};

use std::alloc::{AllocError, AllocFailed};
use thiserror::Error;

/// Why a program text was refused: the first cause that holds, in this order, but that running out of memory can come
/// in place of `Lex`, of `Syntax` and of an answer. No contract speaks of `at`.
#[derive(Clone, Copy, Debug, PartialEq, Eq, Error)]
pub enum LangFault {
    /// The text has more than 65,536 bytes.
    #[error("TooLong")]
    TooLong,
    /// The text has no token list. No token begins at the byte `at`, counted from 0; of a number
    /// above 4,294,967,295 it is the first digit.
    #[error("Lex")]
    Lex { at: u32 },
    /// The tokens have no tree in which each expression has depth 64 at most. The token that begins
    /// at the byte `at`, counted from 0, is the first that cannot stand at its place; where the
    /// text breaks off inside an item, `at` is the length of the text.
    #[error("Syntax")]
    Syntax { at: u32 },
    /// Out of memory.
    #[error("Memory")]
    Memory,
}

impl From<AllocError> for LangFault {
    ghost from_gives = { λ _ e. e ≡ Memory };

    fn from(_e: AllocError) -> LangFault {
        LangFault::Memory
    }
}

impl<T: Drop> From<AllocFailed<T>> for LangFault {
    ghost from_gives = { λ _ e. e ≡ Memory };

    fn from(_e: AllocFailed<T>) -> LangFault {
        LangFault::Memory
    }
}
