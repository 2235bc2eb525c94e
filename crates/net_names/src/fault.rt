//! Why a name has no number, and why bytes are no file of names.
ghost use Rattle.std.specs.Prelude.{◌≡◌};
ghost use Rattle.net_names.specs.declared.fault.NamesFault.TheVariants.{Memory as NamesMemory};
ghost use Rattle.net_names.specs.declared.fault.NamesFileFault.TheVariants.{Memory as FileMemory};
ghost use Rattle.net_names.specs.declared.fault.NameListFault.TheVariants.{Memory as ListMemory};

use std::alloc::{AllocError, AllocFailed};
use thiserror::Error;

/// Why a name has no number. Where several hold, the first in this order.
#[derive(Clone, Copy, Debug, PartialEq, Eq, Error)]
pub enum NamesFault {
    /// It is empty, has more than 65,536 bytes, or has a control character (a byte below 32, or 127).
    #[error("not a name")]
    BadName,
    /// It is new, and there are as many names as there may be.
    #[error("there are as many names as there may be")]
    TooManyNames,
    /// Memory ran out.
    #[error("not enough memory")]
    Memory,
}

impl From<AllocError> for NamesFault {
    ghost from_gives = { λ _ e. e ≡ NamesMemory };

    fn from(_error: AllocError) -> NamesFault {
        NamesFault::Memory
    }
}

impl<T: Drop> From<AllocFailed<T>> for NamesFault {
    ghost from_gives = { λ _ e. e ≡ NamesMemory };

    fn from(_error: AllocFailed<T>) -> NamesFault {
        NamesFault::Memory
    }
}

/// Why bytes are no file of names: the fault of the first line that is no new name. Lines are counted from 1. Where
/// several hold of that line, the first in this order.
#[derive(Clone, Copy, Debug, PartialEq, Eq, Error)]
pub enum NamesFileFault {
    /// The line is no name: it is empty, has more than 65,536 bytes, has a control character, or is not UTF-8.
    #[error("line {line}: not a name")]
    BadName { line: u64 },
    /// The line is the name of an earlier line.
    #[error("line {line}: the name stands on line {first} already")]
    NameTwice { line: u64, first: u64 },
    /// 4,294,967,295 names stand on the lines before it.
    #[error("line {line}: there are 4294967295 names, and no more may be")]
    TooManyNames { line: u64 },
    /// Memory ran out.
    #[error("not enough memory")]
    Memory,
}

impl From<AllocError> for NamesFileFault {
    ghost from_gives = { λ _ e. e ≡ FileMemory };

    fn from(_error: AllocError) -> NamesFileFault {
        NamesFileFault::Memory
    }
}

/// Why a name has no number in a list of names.
#[derive(Clone, Copy, Debug, PartialEq, Eq, Error)]
pub enum NameListFault {
    /// It is new, and there are 4,294,967,295 names.
    #[error("there are 4294967295 names, and no more may be")]
    TooManyNames,
    /// Memory ran out.
    #[error("not enough memory")]
    Memory,
}

impl From<AllocError> for NameListFault {
    ghost from_gives = { λ _ e. e ≡ ListMemory };

    fn from(_error: AllocError) -> NameListFault {
        NameListFault::Memory
    }
}
