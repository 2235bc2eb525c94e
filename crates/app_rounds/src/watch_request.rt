//! `watch`: all rounds from one to another.
ghost use Rattle.std.specs.Prelude.{IfOk, IfSome};
ghost use Rattle.app_commands.specs.Requests.{AreThreadsWithin};

use app_commands::{
    CONSTANT, EVERY, FLAG, FROM, NAMES, NAMES_ARGUMENT, NETWORK, ONLY, OVERLAP, PROGRAM, QUIET,
    QUIET_ARGUMENT, ROUNDS, RunTexts, SEED, SEQUENTIAL, SET, SET_FILE, SET_NAMES, SET_RANDOM,
    THREADS, only_in, span_in,
};
use app_table::{Argument, Choice, Command, OPTION, Reading, Value, WordsFault};
use run_watch::{Format, Span};
use std::alloc::Global;

const FORMAT: Argument = Argument {
    name: "format",
    value: Value::Choice(&[
        Choice {
            name: "report",
            aliases: &[],
        },
        Choice {
            name: "csv",
            aliases: &[],
        },
        Choice {
            name: "json",
            aliases: &[],
        },
    ]),
    value_name: "FORMAT",
    help: "report (the default), csv or json",
    ..OPTION
};

/// `FORMAT`, as it is read.
static FORMAT_ARGUMENT: Argument = FORMAT;

const CHANGES: Argument = Argument {
    name: "changes",
    help: "Show, from the second shown round on, only nodes that have another value in a shown field than in the round shown before, and in reports how many",
    ..FLAG
};

/// `CHANGES`, as it is read.
static CHANGES_ARGUMENT: Argument = CHANGES;

const TABLE_NAMES: Argument = Argument {
    help: "In CSV and JSON call nodes by the names in FILE, a line each, node 0 first",
    ..NAMES
};

/// `watch` and what it takes.
static WATCH: Command = Command {
    name: "watch",
    aliases: &[],
    called: "unison watch",
    about: "Show all rounds from one to another, in one pass, as reports, CSV or JSON",
    notes: "Prints the rounds FIRST, FIRST + K, FIRST + 2 K and so on, up to LAST, in one pass. Reports stand one after the other; CSV and JSON lines have a record for each node in each round.\nAn example: unison watch examples/distance.rules examples/path.toml --rounds 0..2\nAnother one: unison watch examples/distance.rules examples/path.toml --rounds 0..2 --changes --format csv\n",
    arguments: &[
        PROGRAM,
        NETWORK,
        ROUNDS,
        EVERY,
        FORMAT,
        ONLY,
        CHANGES,
        TABLE_NAMES,
        FROM,
        SET,
        SET_FILE,
        SET_NAMES,
        SET_RANDOM,
        OVERLAP,
        SEED,
        THREADS,
        SEQUENTIAL,
        CONSTANT,
        QUIET,
    ],
    subcommands: &[],
};

/// The table of `watch`.
pub fn watch_command() -> &'static Command {
    &WATCH
}

/// How rounds are shown.
#[derive(Drop)]
pub struct View {
    pub format: Format,
    /// The fields that are shown, where not all are.
    pub only: Option<Vec<String>>,
    /// Whether only nodes that changed are shown.
    pub changes: bool,
    /// The path of the names of the nodes, where they are shown.
    pub names: Option<String>,
}

/// What `watch` is asked for.
#[derive(Drop)]
pub struct WatchRequest {
    pub texts: RunTexts,
    /// The rounds that are watched.
    pub span: Span,
    pub view: View,
    /// Whether notes are left out.
    pub quiet: bool,
}

/// The form of the text.
fn format_in(reading: &mut Reading) -> Format {
    match reading.choice(&FORMAT_ARGUMENT).unwrap_or("report") {
        "csv" => Format::Csv,
        "json" => Format::Json,
        _ => Format::Report,
    }
}

/// Refuses names that are given for reports, which have numbers.
fn check_names(reading: &mut Reading, format: Format) {
    if format == Format::Report && reading.has(&NAMES_ARGUMENT) {
        reading.refuse_words(
            "--names: reports have numbers for nodes; add --format csv or --format json",
        );
    }
}

/// How rounds are to be shown. `Usage` where names are given for reports, which have numbers.
fn view_in(reading: &mut Reading) -> View {
    let format = format_in(reading);
    check_names(reading, format);
    let only = only_in(reading);
    let names = reading.text(&NAMES_ARGUMENT);
    View {
        format,
        only,
        changes: reading.has(&CHANGES_ARGUMENT),
        names,
    }
}

/// What plain words ask for, where they name rounds.
fn request_in(reading: &mut Reading) -> Option<WatchRequest>
    ensures threads { IfSome result (λ r. AreThreadsWithin r.texts) }
{
    let view = view_in(reading);
    let span = span_in(reading)?;
    let texts = RunTexts::of(reading);
    Some(WatchRequest {
        texts,
        span,
        view,
        quiet: reading.has(&QUIET_ARGUMENT),
    })
}

impl WatchRequest {
    /// What the words ask for, the command's name first.
    pub fn parse(alloc: Global, line: &[String]) -> Result<WatchRequest, WordsFault>
        ensures threads { IfOk result (λ r. AreThreadsWithin r.texts) }
    {
        let mut reading = Reading::of(alloc, watch_command(), line)?;
        let asked = request_in(&mut reading);
        reading.end_some(asked)
    }
}
