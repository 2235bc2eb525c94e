//! How it is told from which round on nothing changes, or all states come again.
ghost use Rattle.std.specs.Prelude.{◌≡◌, string_bytes, IfOk};
ghost use Rattle.app_files.specs.Settled.{line_of, round_of};

use crate::ending::Ending;
use crate::programs::is_model;
use app_jobs::ServeFault;
use rounds_plan::RoundFault;
use run_settle::{SettleFault, Settling};
use std::alloc::{AllocError, Global};

/// What is told of a program, or of a model, whose rules hang on the round.
fn reads_round(path: &str) -> &'static str {
    if is_model(path) {
        "program ReadsRound\nthe model draws random numbers or reads `round`, so equal states need not be followed by equal ones, and no round tells that it settles; unison count and watch show its rounds, and count --until none:FIELD=STATE ends where no node has a state any more"
    } else {
        "program ReadsRound\nthe program reads `round`, so equal states need not be followed by equal ones, and no round tells that it settles; run it with lockstep or watch"
    }
}

/// The ending where it is not told of the program at a path.
pub fn not_settled(alloc: Global, path: &str, fault: SettleFault) -> Ending {
    match fault {
        SettleFault::ReadsRound => Ending::refused(String::from_str(alloc, reads_round(path))),
        SettleFault::LimitBelowStart => {
            Ending::Served(ServeFault::Round(RoundFault::RoundsBelowStart))
        }
        SettleFault::LimitTooLarge => Ending::Served(ServeFault::Round(RoundFault::TooManyRounds)),
        SettleFault::Memory => Ending::Memory,
    }
}

/// What was found, as a line: `settles ROUND`, `repeats ROUND PERIOD` or `open LIMIT`.
pub fn settling_line(alloc: Global, found: Settling) -> Result<String, AllocError>
    ensures line { IfOk result (λ line. string_bytes line ≡ line_of found) }
{
    match found {
        Settling::Settles { round } => format!(in alloc; "settles {round}\n"),
        Settling::Repeats { round, period } => format!(in alloc; "repeats {round} {period}\n"),
        Settling::Open { limit } => format!(in alloc; "open {limit}\n"),
    }
}

/// The round from which on nothing changes, or all states come again, where there is one.
pub fn settled_round(found: Settling) -> Option<u32>
    ensures round { result ≡ round_of found }
{
    match found {
        Settling::Settles { round } => Some(round),
        Settling::Repeats { round, .. } => Some(round),
        Settling::Open { .. } => None,
    }
}
