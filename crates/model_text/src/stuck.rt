//! Why a token list has no tree.

ghost use Rattle.std.specs.Prelude.{◌≡◌, ◌≤◌, ◌<◌};
ghost use Rattle.std.specs.List.{AllByRecursion};
ghost use Rattle.model_text.specs.declared.stuck.Stuck.TheVariants.{Memory};
ghost use Rattle.model_text.specs.Causes.{IsPlaced, IsStuckAs, stuck_before};

use crate::fault::{Expected, ModelFault};
use crate::token::Lexeme;
use std::alloc::{AllocError, AllocFailed};

/// Why a token list has no tree.
#[derive(Clone, Copy)]
pub enum Stuck {
    /// The first of the last `left` tokens cannot stand at its place, or their end where `left` is 0; this could.
    Token { left: usize, expected: Expected },
    /// Out of memory.
    Memory,
}

impl Stuck {
    /// What is wrong with the first of these tokens, or with their end where there is none.
    pub fn before(tokens: &[Lexeme], expected: Expected) -> Stuck
        ensures place { result ≡ stuck_before tokens.now expected }
    {
        Stuck::Token {
            left: tokens.len(),
            expected,
        }
    }

    /// The fault of a text of this length with these tokens.
    pub fn fault(self, lexemes: &[Lexeme], end: u32) -> ModelFault
        requires places { AllByRecursion (λ l. l.at < end) lexemes.now }
        ensures same { IsStuckAs self result }
        ensures place { IsPlaced end result }
    {
        match self {
            Stuck::Token { left, expected } => ModelFault::Syntax {
                at: place_of_last(lexemes, left, end),
                expected,
            },
            Stuck::Memory => ModelFault::Memory,
        }
    }
}

/// Where the first of the last `left` tokens begins, or the end of the text where there is none.
fn place_of_last(lexemes: &[Lexeme], left: usize, end: u32) -> u32
    requires places { AllByRecursion (λ l. l.at < end) lexemes.now }
    ensures place { result ≤ end }
{
    match lexemes.get(lexemes.len().saturating_sub(left)) {
        Some(lexeme) => lexeme.at,
        None => end,
    }
}

impl From<AllocError> for Stuck {
    ghost from_gives = { λ _ e. e ≡ Memory };

    fn from(_e: AllocError) -> Stuck {
        Stuck::Memory
    }
}

impl<T: Drop> From<AllocFailed<T>> for Stuck {
    ghost from_gives = { λ _ e. e ≡ Memory };

    fn from(_e: AllocFailed<T>) -> Stuck {
        Stuck::Memory
    }
}
