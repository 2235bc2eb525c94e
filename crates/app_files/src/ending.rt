//! How the program ends where it does not do what it was asked for.

use app_jobs::ServeFault;
use app_table::WordsFault;
use app_words::UsageFault;
use link_net::NetFault;
use std::alloc::{AllocError, AllocFailed};
use std::io;
use std::io::ErrorKind;

/// Why the program ends with a status other than that of a job, or after help.
#[derive(Drop)]
pub enum Ending {
    Help(String),
    Usage(String),
    /// A file could not be read, as the text says.
    File(String),
    /// A text is refused: the part, and what is told of it in lines of its own.
    Refused(String),
    /// A network file is refused.
    Network(NetFault),
    /// What one of the five commands refuses, too.
    Served(ServeFault),
    /// Standard output refused.
    Output,
    /// Nobody reads standard output any more.
    Unread,
    Memory,
}

impl Ending {
    /// Invalid arguments, as this text says; running out of memory where it could not be made.
    pub fn usage(text: Result<String, AllocError>) -> Ending {
        match text {
            Ok(text) => Ending::Usage(text),
            Err(_) => Ending::Memory,
        }
    }

    /// A refused text, as this one says; running out of memory where it could not be made.
    pub fn refused(text: Result<String, AllocError>) -> Ending {
        match text {
            Ok(text) => Ending::Refused(text),
            Err(_) => Ending::Memory,
        }
    }

    /// The status with which the program ends.
    pub fn status(&self) -> u8 {
        match self {
            Ending::Help(_) => 0,
            Ending::Usage(_) => 2,
            Ending::Refused(_) => 3,
            Ending::Network(fault) => ServeFault::Net(*fault).status(),
            Ending::Served(fault) => fault.status(),
            Ending::File(_) | Ending::Output | Ending::Unread | Ending::Memory => 1,
        }
    }
}

impl From<AllocError> for Ending {
    fn from(_error: AllocError) -> Ending {
        Ending::Memory
    }
}

impl<T: Drop> From<AllocFailed<T>> for Ending {
    fn from(_error: AllocFailed<T>) -> Ending {
        Ending::Memory
    }
}

impl From<UsageFault> for Ending {
    fn from(fault: UsageFault) -> Ending {
        match fault {
            UsageFault::Help { text } => Ending::Help(text),
            UsageFault::Usage { text } => Ending::Usage(text),
            UsageFault::Memory => Ending::Memory,
        }
    }
}

impl From<WordsFault> for Ending {
    fn from(fault: WordsFault) -> Ending {
        match fault {
            WordsFault::Help { text } => Ending::Help(text),
            WordsFault::Usage { text } => Ending::Usage(text),
            WordsFault::Memory => Ending::Memory,
        }
    }
}

/// Running out of memory where that is the error, else this ending.
pub fn refused(error: &io::Error, ending: Ending) -> Ending {
    if error.kind() == ErrorKind::OutOfMemory {
        Ending::Memory
    } else {
        ending
    }
}
