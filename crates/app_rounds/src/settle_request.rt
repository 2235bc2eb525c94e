//! `settle`: from which round on nothing changes, or all states come again.
ghost use Rattle.std.specs.Prelude.{◌≤◌, IfOk};
ghost use Rattle.app_commands.specs.Requests.{AreThreadsWithin};
ghost use Rattle.rounds_plan.specs.Configs.{most_rounds};

use app_commands::{
    CONSTANT, FLAG, FROM, NETWORK, OVERLAP, PROGRAM, QUIET, QUIET_ARGUMENT, ROUND, RunTexts, SEED,
    SEQUENTIAL, SET, SET_FILE, SET_NAMES, SET_RANDOM, THREADS,
};
use app_table::{Argument, Command, OPTION, Reading, WordsFault};
use std::alloc::Global;

/// The limit where none is given.
pub(crate) const DEFAULT_LIMIT: u32 = 1_000_000;

pub(crate) const LIMIT: Argument = Argument {
    name: "limit",
    value: ROUND,
    value_name: "T",
    help: "Look at the rounds up to T: 0 to 1000000000, and 1000000 where it is left out; up to twice as many are computed",
    ..OPTION
};

/// `LIMIT`, as it is read.
pub(crate) static LIMIT_ARGUMENT: Argument = LIMIT;

pub(crate) const REPORT: Argument = Argument {
    name: "report",
    help: "Print the report of round R, too",
    ..FLAG
};

/// `REPORT`, as it is read.
pub(crate) static REPORT_ARGUMENT: Argument = REPORT;

/// `settle` and what it takes.
static SETTLE: Command = Command {
    name: "settle",
    aliases: &[],
    called: "unison settle",
    about: "Tell from which round on nothing changes, or all states come again",
    notes: "Prints `settles R` where nothing changes after round R, the first such one; `repeats R P` where from round R on all states come again every P rounds, both the least; `open T` where neither is so up to round T.\nAn example: unison settle examples/distance.rules examples/path.toml --report\n",
    arguments: &[
        PROGRAM, NETWORK, LIMIT, REPORT, FROM, SET, SET_FILE, SET_NAMES, SET_RANDOM, OVERLAP, SEED,
        THREADS, SEQUENTIAL, CONSTANT, QUIET,
    ],
    subcommands: &[],
};

/// The table of `settle`.
pub fn settle_command() -> &'static Command {
    &SETTLE
}

/// What `settle` is asked for.
#[derive(Drop)]
pub struct SettleRequest {
    pub texts: RunTexts,
    /// The round up to which it is looked, counted from round 0.
    pub limit: u32,
    /// Whether the report of the round that is found is printed too.
    pub report: bool,
    /// Whether notes are left out.
    pub quiet: bool,
}

/// What plain words ask for.
fn request_in(reading: &mut Reading) -> SettleRequest
    ensures within { result.limit ≤ most_rounds }
    ensures threads { AreThreadsWithin result.texts }
{
    let limit = reading.number_or(&LIMIT_ARGUMENT, DEFAULT_LIMIT);
    let texts = RunTexts::of(reading);
    SettleRequest {
        texts,
        limit,
        report: reading.has(&REPORT_ARGUMENT),
        quiet: reading.has(&QUIET_ARGUMENT),
    }
}

impl SettleRequest {
    /// What the words ask for, the command's name first.
    pub fn parse(alloc: Global, line: &[String]) -> Result<SettleRequest, WordsFault>
        ensures within { IfOk result (λ r. r.limit ≤ most_rounds) }
        ensures threads { IfOk result (λ r. AreThreadsWithin r.texts) }
    {
        let mut reading = Reading::of(alloc, settle_command(), line)?;
        let asked = request_in(&mut reading);
        reading.end(asked)
    }
}
