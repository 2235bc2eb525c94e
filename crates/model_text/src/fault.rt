//! Why a text is no model, and where.

ghost use Rattle.std.specs.Prelude.{◌≡◌};
ghost use Rattle.model_text.specs.declared.fault.ModelFault.TheVariants.{Memory};

use std::alloc::{AllocError, AllocFailed};

/// What could stand at the place at which a text cannot be read on.
#[derive(Clone, Copy, PartialEq, Eq)]
pub enum Expected {
    /// `const`, `states`, `field`, `let` or `next`, with which an item begins.
    Item,
    /// A name, which is no reserved word.
    Name,
    /// `=`
    Assign,
    /// `;`
    Semicolon,
    /// `:`
    Colon,
    /// `(`
    Open,
    /// `)`
    Close,
    /// `{`
    BraceOpen,
    /// `}`
    BraceClose,
    /// `,`, or the bracket that ends a list.
    Comma,
    /// `then`
    Then,
    /// `else`
    Else,
    /// An expression.
    Expression,
    /// A decimal, as `0.05`.
    Decimal,
    /// No second comparison: `a < b < c` has no meaning.
    NoChain,
    /// Brackets around `not`, which binds looser than what stands before it.
    Brackets,
    /// Nothing: the expression would be nested deeper than 100.
    Shallower,
}

/// Why a text is no model, and where: the first cause that holds, in this order, but that running out of memory can come
/// in place of `Lex`, of `Syntax` and of an answer. Places are counted in bytes from 0.
#[derive(Clone, Copy)]
pub enum ModelFault {
    /// The text has more than 65,536 bytes.
    TooLong,
    /// No token begins at the byte `at`; of a number above 4,294,967,295, of one with `_` that does not stand between
    /// digits and of a decimal with more than nine digits after its point it is the first digit.
    Lex { at: u32 },
    /// The token that begins at the byte `at` is the first that cannot stand at its place, at which `expected`
    /// could; where the text breaks off inside an item, `at` is the length of the text.
    Syntax { at: u32, expected: Expected },
    /// Out of memory.
    Memory,
}

impl From<AllocError> for ModelFault {
    ghost from_gives = { λ _ e. e ≡ Memory };

    fn from(_e: AllocError) -> ModelFault {
        ModelFault::Memory
    }
}

impl<T: Drop> From<AllocFailed<T>> for ModelFault {
    ghost from_gives = { λ _ e. e ≡ Memory };

    fn from(_e: AllocFailed<T>) -> ModelFault {
        ModelFault::Memory
    }
}
