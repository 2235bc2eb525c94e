//! `cuts`: where values were cut.
ghost use Rattle.std.specs.Prelude.{◌≤◌, IfOk};
ghost use Rattle.app_commands.specs.Requests.{AreThreadsWithin};
ghost use Rattle.rounds_plan.specs.Configs.{most_rounds};

use app_commands::{
    CONSTANT, FLAG, FROM, NAMES, NAMES_ARGUMENT, NETWORK, OVERLAP, PROGRAM, ROUND, RunTexts, SEED,
    SET, SET_FILE, SET_NAMES, SET_RANDOM,
};
use app_table::{Argument, Choice, Command, Kind, OPTION, Reading, Value, WordsFault};
use std::alloc::Global;

const LAST: Argument = Argument {
    name: "rounds",
    kind: Kind::Required,
    value: ROUND,
    value_name: "T",
    help: "The last round that is looked at, counted from round 0: 0 to 1000000000",
    ..OPTION
};

/// `LAST`, as it is read.
static LAST_ARGUMENT: Argument = LAST;

const BELOW: Argument = Argument {
    name: "below",
    help: "Tell differences that were cut at 0, too",
    ..FLAG
};

/// `BELOW`, as it is read.
static BELOW_ARGUMENT: Argument = BELOW;

const FORMAT: Argument = Argument {
    name: "format",
    value: Value::Choice(&[
        Choice {
            name: "text",
            aliases: &[],
        },
        Choice {
            name: "json",
            aliases: &[],
        },
    ]),
    value_name: "FORMAT",
    help: "text (the default) or json",
    ..OPTION
};

/// `FORMAT`, as it is read.
static FORMAT_ARGUMENT: Argument = FORMAT;

/// `cuts` and what it takes.
static CUTS: Command = Command {
    name: "cuts",
    aliases: &[],
    called: "unison cuts",
    about: "Tell where values were cut at 4294967295",
    notes: "Prints a line for each `+`, `*` and `total` of the program whose value was cut in a round up to T: its place, the first round and node, and how often. An occasion is a node in a round.\nAn example: unison cuts examples/distance.rules examples/path.toml --rounds 2\n",
    arguments: &[
        PROGRAM, NETWORK, LAST, BELOW, FORMAT, NAMES, FROM, SET, SET_FILE, SET_NAMES, SET_RANDOM,
        OVERLAP, SEED, CONSTANT,
    ],
    subcommands: &[],
};

/// The table of `cuts`.
pub fn cuts_command() -> &'static Command {
    &CUTS
}

/// How cuts are told.
#[derive(Clone, Copy, PartialEq, Eq)]
pub enum CutsFormat {
    /// A line for each operator, for people.
    Text,
    /// An object with a member for each operator.
    Json,
}

/// What `cuts` is asked for.
#[derive(Drop)]
pub struct CutsRequest {
    pub texts: RunTexts,
    /// The last round that is looked at, counted from round 0.
    pub rounds: u32,
    /// Whether differences that were cut at 0 are told too.
    pub below: bool,
    pub format: CutsFormat,
    /// The path of the names of the nodes, where they are called by names.
    pub names: Option<String>,
}

/// The form in which they are told.
fn format_in(reading: &mut Reading) -> CutsFormat {
    match reading.choice(&FORMAT_ARGUMENT).unwrap_or("text") {
        "json" => CutsFormat::Json,
        _ => CutsFormat::Text,
    }
}

/// What plain words ask for.
fn request_in(reading: &mut Reading) -> CutsRequest
    ensures within { result.rounds ≤ most_rounds }
    ensures threads { AreThreadsWithin result.texts }
{
    let rounds = reading.number_or(&LAST_ARGUMENT, 0);
    let format = format_in(reading);
    let names = reading.text(&NAMES_ARGUMENT);
    let texts = RunTexts::of(reading);
    CutsRequest {
        texts,
        rounds,
        below: reading.has(&BELOW_ARGUMENT),
        format,
        names,
    }
}

impl CutsRequest {
    /// What the words ask for, the command's name first.
    pub fn parse(alloc: Global, line: &[String]) -> Result<CutsRequest, WordsFault>
        ensures within { IfOk result (λ r. r.rounds ≤ most_rounds) }
        ensures threads { IfOk result (λ r. AreThreadsWithin r.texts) }
    {
        let mut reading = Reading::of(alloc, cuts_command(), line)?;
        let asked = request_in(&mut reading);
        reading.end(asked)
    }
}
