//! How commands end whose words or texts are refused.

use app_files::{Ending, Told, put_place};
use app_jobs::ServeFault;
use app_table::{Draft, WordsFault};
use rounds_plan::RoundFault;
use run_watch::WatchFault;
use std::alloc::{AllocError, Global};

/// What words ask for, or the ending where they ask for nothing.
pub fn asked_by<T: Drop>(parsed: Result<T, WordsFault>) -> Result<T, Ending> {
    match parsed {
        Ok(asked) => Ok(asked),
        Err(fault) => Err(Ending::from(fault)),
    }
}

/// Adds the part that refuses a text, the fault, and its line where it has one, as a line.
fn put_fault(draft: &mut Draft, part: &str, kind: &str, line: Option<u64>) {
    draft.put(part);
    draft.put(" ");
    draft.put(kind);
    if let Some(line) = line {
        draft.put(" ");
        draft.put_count(line);
    }
    draft.put("\n");
}

/// What is told of a text of this name that a part refuses.
pub fn told_text(alloc: Global, part: &str, name: &str, told: Told) -> Result<String, AllocError> {
    let (line, kind, why) = told;
    if kind == "Memory" {
        return Err(AllocError);
    }
    let mut draft = Draft::new(alloc);
    put_fault(&mut draft, part, kind, line);
    put_place(&mut draft, name, line);
    draft.put(": ");
    draft.put(why);
    draft.end()
}

/// The ending where rounds are not watched.
pub fn no_rounds(fault: WatchFault) -> Ending {
    match fault {
        WatchFault::TooManyRounds => Ending::Served(ServeFault::Round(RoundFault::TooManyRounds)),
        WatchFault::RoundsBelowStart => {
            Ending::Served(ServeFault::Round(RoundFault::RoundsBelowStart))
        }
        WatchFault::NoField { .. } | WatchFault::Memory => Ending::Memory,
    }
}
