//! What a command line asks for.
ghost use Rattle.std.specs.Prelude.{◌≡◌};
ghost use Rattle.app_words.specs.declared.request.UsageFault.TheVariants.{Memory};

use app_jobs::Job;
use app_table::WordsFault;
use std::alloc::AllocError;

/// A job and the paths of its files.
#[derive(Drop)]
pub struct Request {
    pub job: Job,
    pub program: String,
    pub network: Option<String>,
    pub from: Option<String>,
    pub schedule: Option<String>,
    pub trace: Option<String>,
}

/// Why there is no request.
#[derive(Drop)]
pub enum UsageFault {
    /// Help was asked for; this is its text.
    Help { text: String },
    /// The words are wrong, as the text says.
    Usage { text: String },
    /// Out of memory.
    Memory,
}

impl From<AllocError> for UsageFault {
    ghost from_gives = { λ _ e. e ≡ Memory };

    fn from(_error: AllocError) -> UsageFault {
        UsageFault::Memory
    }
}

impl From<WordsFault> for UsageFault {
    fn from(fault: WordsFault) -> UsageFault {
        match fault {
            WordsFault::Help { text } => UsageFault::Help { text },
            WordsFault::Usage { text } => UsageFault::Usage { text },
            WordsFault::Memory => UsageFault::Memory,
        }
    }
}
