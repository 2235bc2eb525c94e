//! `verify`: a trace of an asynchronous run, checked.

use app_commands::{
    CONSTANT, FILE, FROM, NAMES, NAMES_ARGUMENT, NETWORK, PROGRAM, PlanPaths, QUIET,
    QUIET_ARGUMENT, ROUND, RunTexts,
};
use app_table::{Argument, Command, OPTION, Reading, WordsFault};
use std::alloc::Global;

const TRACE: Argument = Argument {
    name: "trace",
    value_name: "TRACE",
    help: "The file of the trace: lines `NODE reads NODE: FIELD=VALUE ..` and `NODE moves: FIELD=VALUE ..`, or JSON objects, or - for standard input",
    ..FILE
};

/// `TRACE`, as it is read.
static TRACE_ARGUMENT: Argument = TRACE;

const UNTIL_ROUND: Argument = Argument {
    name: "until-round",
    value: ROUND,
    value_name: "T",
    help: "Every node is to have come to round T, at least, or the trace does not hold",
    ..OPTION
};

/// `UNTIL_ROUND`, as it is read.
static UNTIL_ROUND_ARGUMENT: Argument = UNTIL_ROUND;

/// `verify` and what it takes.
static VERIFY: Command = Command {
    name: "verify",
    aliases: &[],
    called: "unison verify",
    about: "Check a trace of an asynchronous run that was made elsewhere",
    notes: "Prints that all lines of the trace hold, how many reads and moves they are and how many of them give values, and how often each node has moved, or the first line that does not hold, and why. The status is 0 where all hold, else 1. A trace that says nothing holds: --until-round T wants each node to have come to round T.\nAn example: printf '0 reads 1: s=7\\n0 moves: s=7\\n' | unison verify examples/swap.rules examples/pair.toml -\n",
    arguments: &[
        PROGRAM,
        NETWORK,
        TRACE,
        UNTIL_ROUND,
        NAMES,
        FROM,
        CONSTANT,
        QUIET,
    ],
    subcommands: &[],
};

/// The table of `verify`.
pub fn verify_command() -> &'static Command {
    &VERIFY
}

/// What `verify` is asked for.
#[derive(Drop)]
pub struct VerifyRequest {
    pub texts: RunTexts,
    /// The path of the trace.
    pub trace: String,
    /// The path of the names of the nodes, where they are called by names.
    pub names: Option<String>,
    /// The round to which every node is to have come.
    pub until_round: u32,
    /// Whether notes are left out.
    pub quiet: bool,
}

/// What plain words ask for.
fn request_in(reading: &mut Reading) -> VerifyRequest {
    let trace = reading.needed_text(&TRACE_ARGUMENT);
    let names = reading.text(&NAMES_ARGUMENT);
    let plan = PlanPaths::of(reading);
    let until_round = reading.number_or(&UNTIL_ROUND_ARGUMENT, 0);
    VerifyRequest {
        texts: RunTexts::of_plan(reading.alloc(), plan),
        trace,
        names,
        until_round,
        quiet: reading.has(&QUIET_ARGUMENT),
    }
}

impl VerifyRequest {
    /// What the words ask for, the command's name first.
    pub fn parse(alloc: Global, line: &[String]) -> Result<VerifyRequest, WordsFault> {
        let mut reading = Reading::of(alloc, verify_command(), line)?;
        let asked = request_in(&mut reading);
        reading.end(asked)
    }
}
