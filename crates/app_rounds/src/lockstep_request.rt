//! `lockstep`: the states after a round.
ghost use Rattle.std.specs.Prelude.{◌≤◌, IfOk};
ghost use Rattle.app_commands.specs.Requests.{AreThreadsWithin};
ghost use Rattle.rounds_plan.specs.Configs.{most_rounds};

use app_commands::{
    CONSTANT, FROM, NETWORK, OVERLAP, PROGRAM, QUIET, QUIET_ARGUMENT, ROUND, RunTexts, SEED,
    SEQUENTIAL, SET, SET_FILE, SET_NAMES, SET_RANDOM, THREADS,
};
use app_table::{Argument, Choice, Command, Kind, OPTION, Reading, Value, WordsFault};
use std::alloc::Global;

pub(crate) const LAST: Argument = Argument {
    name: "rounds",
    kind: Kind::Required,
    value: ROUND,
    value_name: "T",
    help: "The round that is reported, counted from round 0: 0 to 1000000000",
    ..OPTION
};

/// `LAST`, as it is read.
static LAST_ARGUMENT: Argument = LAST;

pub(crate) const FORMAT: Argument = Argument {
    name: "format",
    value: Value::Choice(&[
        Choice {
            name: "report",
            aliases: &[],
        },
        Choice {
            name: "csv",
            aliases: &[],
        },
        Choice {
            name: "npy",
            aliases: &[],
        },
    ]),
    value_name: "FORMAT",
    help: "report (the default), csv, or npy: an array of NumPy with a row for each node and a column for each field",
    ..OPTION
};

/// `FORMAT`, as it is read.
pub(crate) static FORMAT_ARGUMENT: Argument = FORMAT;

pub(crate) const ONE_FIELD: Argument = Argument {
    name: "field",
    value_name: "FIELD",
    help: "With --format npy write this field alone, as an array with one axis, which --set-file reads",
    needs: Some("format"),
    ..OPTION
};

/// `ONE_FIELD`, as it is read.
static ONE_FIELD_ARGUMENT: Argument = ONE_FIELD;

/// `lockstep` and what it takes.
static LOCKSTEP: Command = Command {
    name: "lockstep",
    aliases: &[],
    called: "unison lockstep",
    about: "Run a program in lockstep on a network and print the report of a round",
    notes: "An example: unison lockstep examples/distance.rules examples/path.toml --rounds 2\n",
    arguments: &[
        PROGRAM, NETWORK, LAST, FROM, SET, SET_FILE, SET_NAMES, SET_RANDOM, OVERLAP, SEED, FORMAT,
        ONE_FIELD, THREADS, SEQUENTIAL, CONSTANT, QUIET,
    ],
    subcommands: &[],
};

/// The table of `lockstep`.
pub fn lockstep_command() -> &'static Command {
    &LOCKSTEP
}

/// How the states after a round are shown.
#[derive(Clone, Copy, PartialEq, Eq)]
pub enum StatesFormat {
    /// As a report.
    Report,
    /// As CSV, a line for each node.
    Csv,
    /// As an array of NumPy, a row for each node.
    Npy,
}

/// What is shown of the states after a round.
#[derive(Drop)]
pub enum StatesView {
    /// All states.
    All(StatesFormat),
    /// The field of this name, as an array of NumPy with one axis.
    Column(String),
    /// How many nodes have each value of the field of this name, which `large` alone shows.
    Counts(String),
}

/// What `lockstep` is asked for.
#[derive(Drop)]
pub struct LockstepRequest {
    pub texts: RunTexts,
    /// The round that is reported, counted from round 0.
    pub rounds: u32,
    /// What is shown of its states: no counts.
    pub view: StatesView,
    /// Whether notes are left out.
    pub quiet: bool,
}

/// The round that is named.
pub(crate) fn round_in(reading: &mut Reading) -> u32
    ensures within { result ≤ most_rounds }
{
    reading.number_or(&LAST_ARGUMENT, 0)
}

/// How the states after a round are to be shown.
pub(crate) fn format_in(reading: &mut Reading) -> StatesFormat {
    match reading.choice(&FORMAT_ARGUMENT).unwrap_or("report") {
        "csv" => StatesFormat::Csv,
        "npy" => StatesFormat::Npy,
        _ => StatesFormat::Report,
    }
}

/// A field that stands alone in an array.
fn one_field_in(reading: &mut Reading, format: StatesFormat, field: String) -> StatesView {
    if format != StatesFormat::Npy {
        reading.refuse_words("--field: other forms have all fields; take --format npy");
    }
    StatesView::Column(field)
}

/// What is to be shown of the states after a round, which are not counted.
pub(crate) fn states_view_in(reading: &mut Reading) -> StatesView {
    let format = format_in(reading);
    match reading.text(&ONE_FIELD_ARGUMENT) {
        Some(field) => one_field_in(reading, format, field),
        None => StatesView::All(format),
    }
}

/// What plain words ask for.
fn request_in(reading: &mut Reading) -> LockstepRequest
    ensures within { result.rounds ≤ most_rounds }
    ensures threads { AreThreadsWithin result.texts }
{
    let rounds = round_in(reading);
    let view = states_view_in(reading);
    let texts = RunTexts::of(reading);
    LockstepRequest {
        texts,
        rounds,
        view,
        quiet: reading.has(&QUIET_ARGUMENT),
    }
}

impl LockstepRequest {
    /// What the words ask for, the command's name first.
    pub fn parse(alloc: Global, line: &[String]) -> Result<LockstepRequest, WordsFault>
        ensures within { IfOk result (λ r. r.rounds ≤ most_rounds) }
        ensures threads { IfOk result (λ r. AreThreadsWithin r.texts) }
    {
        let mut reading = Reading::of(alloc, lockstep_command(), line)?;
        let asked = request_in(&mut reading);
        reading.end(asked)
    }
}
