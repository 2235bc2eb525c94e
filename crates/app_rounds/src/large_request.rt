//! `large`: rounds on networks of any size.
ghost use Rattle.std.specs.Prelude.{IfOk, IfSome};
ghost use Rattle.app_rounds.specs.Requests.{IsLargeWithin};

use crate::lockstep_request::{
    FORMAT, FORMAT_ARGUMENT, LAST, LockstepRequest, ONE_FIELD, StatesFormat, StatesView, format_in,
    round_in, states_view_in,
};
use crate::settle_request::{
    DEFAULT_LIMIT, LIMIT, LIMIT_ARGUMENT, REPORT, REPORT_ARGUMENT, SettleRequest,
};
use app_commands::{
    CONSTANT, EVERY, FILE, FROM, NETWORK_ARGUMENT, OVERLAP, PROGRAM, ROUNDS, RunTexts, SEED,
    SEQUENTIAL, SET, SET_FILE, SET_NAMES, SET_RANDOM, THREADS, span_in,
};
use app_table::{Argument, Choice, Command, OPTION, Reading, Subcommand, Value, WordsFault};
use run_watch::Span;
use std::alloc::Global;

const PACKED: Argument = Argument {
    name: "network",
    value_name: "NETWORK",
    help: "The binary file of the network, as unison pack makes it, or - for standard input",
    ..FILE
};

const COUNT: Argument = Argument {
    name: "count",
    value_name: "FIELD",
    help: "Show how many nodes have each value of this field, as CSV, in place of the states",
    ..OPTION
};

/// `COUNT`, as it is read.
static COUNT_ARGUMENT: Argument = COUNT;

const COLUMN: Argument = Argument {
    name: "field",
    value_name: "FIELD",
    help: "Show this field of all nodes in each shown round, in place of how many nodes changed",
    ..OPTION
};

/// `COLUMN`, as it is read.
static COLUMN_ARGUMENT: Argument = COLUMN;

const COLUMN_FORMAT: Argument = Argument {
    name: "format",
    value: Value::Choice(&[
        Choice {
            name: "csv",
            aliases: &[],
        },
        Choice {
            name: "npy",
            aliases: &[],
        },
    ]),
    value_name: "FORMAT",
    help: "Of --field: csv (the default), or npy: an array of NumPy with a row for each shown round and a column for each node",
    needs: Some("field"),
    ..OPTION
};

/// `COLUMN_FORMAT`, as it is read.
static COLUMN_FORMAT_ARGUMENT: Argument = COLUMN_FORMAT;

const WAYS: [Subcommand; 5] = [
    Subcommand {
        name: "info",
        about: "How many nodes and neighbours there are, and the least and the greatest number of neighbours and weight",
        notes: "",
        arguments: &[PACKED],
    },
    Subcommand {
        name: "show",
        about: "Another name of info",
        notes: "",
        arguments: &[PACKED],
    },
    Subcommand {
        name: "lockstep",
        about: "Report the states after a round, as unison lockstep does",
        notes: "",
        arguments: &[
            PROGRAM, PACKED, LAST, FROM, SET, SET_FILE, SET_NAMES, SET_RANDOM, OVERLAP, SEED,
            COUNT, FORMAT, ONE_FIELD, THREADS, SEQUENTIAL, CONSTANT,
        ],
    },
    Subcommand {
        name: "watch",
        about: "Tell for each round from one to another how many nodes changed since the round shown before, or a field's values, counted or of all nodes",
        notes: "",
        arguments: &[
            PROGRAM,
            PACKED,
            ROUNDS,
            EVERY,
            FROM,
            SET,
            SET_FILE,
            SET_NAMES,
            SET_RANDOM,
            OVERLAP,
            SEED,
            COUNT,
            COLUMN,
            COLUMN_FORMAT,
            THREADS,
            SEQUENTIAL,
            CONSTANT,
        ],
    },
    Subcommand {
        name: "settle",
        about: "Tell from which round on nothing changes, or all states come again, as unison settle does",
        notes: "Prints `settles R`, `repeats R P` or `open T`, as unison settle --help says.\n",
        arguments: &[
            PROGRAM, PACKED, LIMIT, REPORT, FROM, SET, SET_FILE, SET_NAMES, SET_RANDOM, OVERLAP,
            SEED, THREADS, SEQUENTIAL, CONSTANT,
        ],
    },
];

/// `large` and what it takes.
static LARGE: Command = Command {
    name: "large",
    aliases: &[],
    called: "unison large",
    about: "Rounds on a network of any size that memory holds, from a binary file",
    notes: "The rounds are those of unison lockstep. Rounds with much to compute are shared among the processors.\nAn example, on a file that unison pack network examples/path.toml > path.net makes: unison large lockstep examples/distance.rules path.net --rounds 2 --set dist=0:0\n",
    arguments: &[],
    subcommands: &WAYS,
};

/// The table of `large`.
pub fn large_command() -> &'static Command {
    &LARGE
}

/// How a field of all nodes is shown, round by round.
#[derive(Clone, Copy, PartialEq, Eq)]
pub enum ColumnFormat {
    /// As CSV, a line for each node.
    Csv,
    /// As an array of NumPy, a row for each round.
    Npy,
}

/// What is shown of each round.
#[derive(Drop)]
pub enum RoundsView {
    /// How many nodes changed since the round that was shown before.
    Changes,
    /// How many nodes have each value of the field of this name.
    Counts(String),
    /// The field of this name, of all nodes.
    Column { field: String, format: ColumnFormat },
}

/// What `large` is asked for.
#[derive(Drop)]
pub enum LargeRequest {
    /// What one wants to know of a network.
    Info {
        network: String,
    },
    /// The states after a round; notes are left out.
    Lockstep(LockstepRequest),
    /// What rounds are like, one by one.
    Watch {
        texts: RunTexts,
        span: Span,
        view: RoundsView,
    },
    /// From which round on nothing changes, or all states come again; notes are left out.
    Settle(SettleRequest),
}

/// Counts of a field's values, of which CSV is the one form.
fn counts_in(reading: &mut Reading, field: String) -> StatesView {
    let format = format_in(reading);
    if reading.has(&FORMAT_ARGUMENT) && format != StatesFormat::Csv {
        reading.refuse_words("--count: counted values are printed as CSV; leave out --format");
    }
    StatesView::Counts(field)
}

/// What is to be shown of the states after a round.
fn view_in(reading: &mut Reading) -> StatesView {
    match reading.text(&COUNT_ARGUMENT) {
        Some(field) => counts_in(reading, field),
        None => states_view_in(reading),
    }
}

/// How a field of all nodes is to be shown.
fn column_format_in(reading: &mut Reading) -> ColumnFormat {
    match reading.choice(&COLUMN_FORMAT_ARGUMENT).unwrap_or("csv") {
        "npy" => ColumnFormat::Npy,
        _ => ColumnFormat::Csv,
    }
}

/// What is to be shown of each round.
fn rounds_view_in(reading: &mut Reading) -> RoundsView {
    let format = column_format_in(reading);
    let column = reading.text(&COLUMN_ARGUMENT);
    if let Some(field) = reading.text(&COUNT_ARGUMENT) {
        if column.is_some() {
            reading.refuse_words("--count: it stands in place of --field; leave out one of them");
        }
        return RoundsView::Counts(field);
    }
    match column {
        Some(field) => RoundsView::Column { field, format },
        None => RoundsView::Changes,
    }
}

/// What the words of `settle` ask for.
fn settle_in(reading: &mut Reading) -> LargeRequest
    ensures within { IsLargeWithin result }
{
    let limit = reading.number_or(&LIMIT_ARGUMENT, DEFAULT_LIMIT);
    let report = reading.has(&REPORT_ARGUMENT);
    let texts = RunTexts::of(reading);
    LargeRequest::Settle(SettleRequest {
        texts,
        limit,
        report,
        quiet: true,
    })
}

/// What the words of `lockstep` ask for.
fn lockstep_in(reading: &mut Reading) -> LargeRequest
    ensures within { IsLargeWithin result }
{
    let rounds = round_in(reading);
    let view = view_in(reading);
    let texts = RunTexts::of(reading);
    LargeRequest::Lockstep(LockstepRequest {
        texts,
        rounds,
        view,
        quiet: true,
    })
}

/// What the words of `watch` ask for, where they name rounds.
fn watch_in(reading: &mut Reading) -> Option<LargeRequest>
    ensures within { IfSome result IsLargeWithin }
{
    let span = span_in(reading)?;
    let view = rounds_view_in(reading);
    let texts = RunTexts::of(reading);
    Some(LargeRequest::Watch { texts, span, view })
}

/// What plain words ask for, where they name rounds.
fn request_in(reading: &mut Reading) -> Option<LargeRequest>
    ensures within { IfSome result IsLargeWithin }
{
    match reading.subcommand() {
        "info" | "show" => Some(LargeRequest::Info {
            network: reading.needed_text(&NETWORK_ARGUMENT),
        }),
        "lockstep" => Some(lockstep_in(reading)),
        "watch" => watch_in(reading),
        _ => Some(settle_in(reading)),
    }
}

impl LargeRequest {
    /// What the words ask for, the command's name first.
    pub fn parse(alloc: Global, line: &[String]) -> Result<LargeRequest, WordsFault>
        ensures within { IfOk result IsLargeWithin }
    {
        let mut reading = Reading::of(alloc, large_command(), line)?;
        let asked = request_in(&mut reading);
        reading.end_some(asked)
    }
}
