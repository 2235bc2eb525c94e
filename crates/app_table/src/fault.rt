//! Why words are not taken.
ghost use Rattle.std.specs.Prelude.{◌≡◌};
ghost use Rattle.app_table.specs.declared.fault.WordsFault.TheVariants.{Memory};

use std::alloc::AllocError;

/// Why a command line gives nothing.
#[derive(Drop)]
pub enum WordsFault {
    /// Help was asked for; this is its text.
    Help { text: String },
    /// The words are wrong, as the text says.
    Usage { text: String },
    /// Out of memory.
    Memory,
}

impl WordsFault {
    /// Invalid arguments, as this text says; running out of memory where it could not be made.
    pub fn told(text: Result<String, AllocError>) -> WordsFault {
        match text {
            Ok(text) => WordsFault::Usage { text },
            Err(_) => WordsFault::Memory,
        }
    }
}

impl From<AllocError> for WordsFault {
    ghost from_gives = { λ _ e. e ≡ Memory };

    fn from(_error: AllocError) -> WordsFault {
        WordsFault::Memory
    }
}
