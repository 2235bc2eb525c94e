//! `count`: how many nodes have each value, round by round.
ghost use Rattle.std.specs.Prelude.{IfOk, IfSome};
ghost use Rattle.app_commands.specs.Requests.{AreThreadsWithin};
ghost use Rattle.app_rounds.specs.Requests.{HasRuns};

use crate::quantiles::{QUANTILES, quantiles_in};
use crate::sweep::{MEAN, OVER, Sweep, sweep_in};
use crate::varied::{RunConstants, VARIED, is_varied, run_constants_in};
use app_commands::{
    EVERY, FIELD, FIELD_ARGUMENT, FROM, NETWORK, OVERLAP, PROGRAM, PlanPaths, QUIET,
    QUIET_ARGUMENT, ROUNDS, RunTexts, SEED, SEQUENTIAL, SET, SET_FILE, SET_NAMES, SET_RANDOM,
    THREADS, given_seed, span_in, value_word,
};
use app_files::{VALUE_WORDS, ValueWord};
use app_table::{Argument, Choice, Command, Kind, OPTION, Reading, Value, WordsFault};
use run_counts::{CountFormat, FigureKind, Holders};
use run_watch::Span;
use std::alloc::Global;

const COUNTED: Argument = Argument {
    help: "The field whose values are counted; may be left out where the program has one alone",
    ..FIELD
};

const UNTIL: Argument = Argument {
    name: "until",
    value_name: "none:FIELD=VALUE",
    help: "End after the first shown round in which no node has this value in this field, or with all:FIELD=VALUE every node: a number, none, or the name of a state; FIELD=VALUE alone is none:FIELD=VALUE",
    ..OPTION
};

/// `UNTIL`, as it is read.
static UNTIL_ARGUMENT: Argument = UNTIL;

/// What an option for a further column is made from.
const COLUMN: Argument = Argument {
    kind: Kind::Repeated,
    value_name: "FIELD",
    ..OPTION
};

const SUM: Argument = Argument {
    name: "sum",
    help: "A further column with the sum of the values of a field; as often as wanted",
    ..COLUMN
};

/// `SUM`, as it is read.
static SUM_ARGUMENT: Argument = SUM;

const LEAST: Argument = Argument {
    name: "least",
    help: "A further column with the least value of a field; as often as wanted",
    ..COLUMN
};

/// `LEAST`, as it is read.
static LEAST_ARGUMENT: Argument = LEAST;

const MOST: Argument = Argument {
    name: "most",
    help: "A further column with the greatest value of a field; as often as wanted",
    ..COLUMN
};

/// `MOST`, as it is read.
static MOST_ARGUMENT: Argument = MOST;

const FORMAT: Argument = Argument {
    name: "format",
    value: Value::Choice(&[
        Choice {
            name: "csv",
            aliases: &[],
        },
        Choice {
            name: "json",
            aliases: &[],
        },
    ]),
    value_name: "FORMAT",
    help: "csv (the default) or json, an object on each line",
    ..OPTION
};

/// `FORMAT`, as it is read.
static FORMAT_ARGUMENT: Argument = FORMAT;

/// `SET_RANDOM` where runs of several seeds draw nodes by them.
const DRAWN: Argument = Argument {
    help: "Give a field of so many nodes, or of a share of all as 5%, an initial value, a number, none, or the name of a state; they are drawn by --seed, and without it by the constant seed of each run; as often as wanted",
    needs: None,
    ..SET_RANDOM
};

/// `count` and what it takes.
static COUNT: Command = Command {
    name: "count",
    aliases: &[],
    called: "unison count",
    about: "Count how many nodes have each value, round by round, with sums and extremes",
    notes: "Prints, for the rounds FIRST, FIRST + K, FIRST + 2 K and so on, up to LAST, how many nodes have each value of a field: a column for each state of the field, and for each value that occurs, or lines of round, value and nodes where there are more than 64.\nAn example: unison count examples/life.rules examples/glider.toml --rounds 0..4\nAnother one: unison count examples/distance.rules examples/path.toml --rounds 0..9 --until none:dist=4294967295\nThree runs of a model, with one of its constants at three values: unison count examples/models/pagerank.model examples/cookbook/pagerank.toml --rounds 100..100 --field rank --most rank --const passed_on=80,85,90\n",
    arguments: &[
        PROGRAM, NETWORK, ROUNDS, EVERY, COUNTED, UNTIL, SUM, LEAST, MOST, FORMAT, MEAN, OVER,
        QUANTILES, FROM, SET, SET_FILE, SET_NAMES, DRAWN, OVERLAP, SEED, THREADS, SEQUENTIAL,
        VARIED, QUIET,
    ],
    subcommands: &[],
};

/// The table of `count`.
pub fn count_command() -> &'static Command {
    &COUNT
}

/// A further column: what it is of a field.
#[derive(Drop)]
pub struct FigureWord {
    pub kind: FigureKind,
    pub field: String,
}

/// A word of `--until`: `none:FIELD=VALUE`, `all:FIELD=VALUE`, or `FIELD=VALUE`, which is the first of them.
#[derive(Drop)]
pub struct UntilWord {
    /// At which nodes the value is to stand, where the word says it.
    pub holders: Option<Holders>,
    pub field: String,
    pub value: ValueWord,
}

/// Which runs are counted.
#[derive(Drop)]
pub struct RunsWords {
    /// What each run begins with, with the constants that have one value.
    pub texts: RunTexts,
    /// The runs by the constants that have several values; where there are none, one run is counted.
    pub sweep: Option<Sweep>,
}

/// What `count` is asked for.
#[derive(Drop)]
pub struct CountRequest {
    /// The runs that are counted.
    pub runs: RunsWords,
    /// The rounds that are counted.
    pub span: Span,
    /// The field whose values are counted, where it is named.
    pub field: Option<String>,
    /// The further columns: sums, then least, then greatest values.
    pub figures: Vec<FigureWord>,
    /// When the rounds end early, where they may.
    pub until: Option<UntilWord>,
    /// The quantiles that are told beside means, in percents from 0 to 100.
    pub quantiles: Vec<u8>,
    /// The form of the text.
    pub format: CountFormat,
    /// Whether notes are left out.
    pub quiet: bool,
}

/// At which nodes a value is to stand by a word of `--until`, where the word says it, and what stands after that.
fn holders_in(word: &str) -> (Option<Holders>, &str) {
    if let Some(rest) = word.strip_prefix("none:") {
        return (Some(Holders::NoNode), rest);
    }
    match word.strip_prefix("all:") {
        Some(rest) => (Some(Holders::EveryNode), rest),
        None => (None, word),
    }
}

/// The parts of a word of `--until`: what stands before the first `=`, and the value after it.
fn until_parts(reading: &mut Reading, word: &str) -> Option<UntilWord> {
    let (holders, rest) = holders_in(word);
    let (field, value) = rest.split_once('=')?;
    let value = value_word(reading, value)?;
    let field = reading.copied(field);
    Some(UntilWord {
        holders,
        field,
        value,
    })
}

/// The word of `--until`, which has its parts where it is read.
fn until_word(reading: &mut Reading, word: &str) -> Option<UntilWord> {
    let until = until_parts(reading, word);
    if until.is_none() {
        reading.refuse_as(format!(in reading.alloc();
            "--until: expected none:FIELD=VALUE or all:FIELD=VALUE, with {VALUE_WORDS} after the first =, found `{word}`"
        ));
    }
    until
}

/// The word of `--until`, where it is given.
fn until_in(reading: &mut Reading) -> Option<UntilWord> {
    let word = reading.text(&UNTIL_ARGUMENT)?;
    until_word(reading, word.as_str())
}

/// Whether one of the words is this one.
fn has_word(words: &[String], word: &str) -> bool {
    for other in words {
        if other.as_str() == word {
            return true;
        }
    }
    false
}

/// Notes that a word stands twice after an option of columns.
fn refuse_twice(reading: &mut Reading, option: &str, word: &str) {
    reading.refuse_as(format!(in reading.alloc();
        "--{option}: `{word}` stands there twice; a column is shown once"
    ));
}

/// Puts a column after the others.
fn put_figure(figures: &mut Vec<FigureWord>, reading: &mut Reading, kind: FigureKind, word: &str) {
    let field = reading.copied(word);
    if figures.push(FigureWord { kind, field }).is_err() {
        reading.refuse(WordsFault::Memory);
    }
}

/// Puts the columns that an option asks for after the others.
fn put_figures(
    figures: &mut Vec<FigureWord>,
    reading: &mut Reading,
    kind: FigureKind,
    argument: &Argument,
) {
    let words = reading.texts(argument);
    for (place, word) in words.iter().enumerate() {
        if has_word(&words[..place], word.as_str()) {
            refuse_twice(reading, kind.name(), word.as_str());
        }
        put_figure(figures, reading, kind, word.as_str());
    }
}

/// The further columns.
fn figures_in(reading: &mut Reading) -> Vec<FigureWord> {
    let mut figures = Vec::new(reading.alloc());
    put_figures(&mut figures, reading, FigureKind::Sum, &SUM_ARGUMENT);
    put_figures(&mut figures, reading, FigureKind::Least, &LEAST_ARGUMENT);
    put_figures(&mut figures, reading, FigureKind::Most, &MOST_ARGUMENT);
    figures
}

/// The form of the text.
fn format_in(reading: &mut Reading) -> CountFormat {
    match reading.choice(&FORMAT_ARGUMENT).unwrap_or("csv") {
        "json" => CountFormat::Json,
        _ => CountFormat::Csv,
    }
}

/// Refuses nodes that are drawn where nothing says by what.
fn check_seed(reading: &mut Reading, texts: &RunTexts, has_seed: bool) {
    if !texts.start.random.is_empty() && texts.start.seed.is_none() && !has_seed {
        reading.refuse_words(
            "--set-random: nodes are drawn by a seed, which --seed S says, or --const seed=FIRST..LAST for each run",
        );
    }
}

/// Whether the constant `seed` is given a value, or several.
fn has_seed(constants: &RunConstants) -> bool {
    given_seed(&constants.given).is_some() || is_varied(&constants.varied, "seed")
}

/// The runs that are asked for.
fn runs_in(reading: &mut Reading) -> RunsWords
    ensures runs { IfSome result.sweep HasRuns }
    ensures threads { AreThreadsWithin result.texts }
{
    let constants = run_constants_in(reading);
    let has_seed = has_seed(&constants);
    let RunConstants { given, varied } = constants;
    let sweep = sweep_in(reading, varied);
    let plan = PlanPaths::with(reading, given);
    let texts = RunTexts::with(reading, plan);
    check_seed(reading, &texts, has_seed);
    RunsWords { texts, sweep }
}

/// What plain words ask for, where they name rounds.
fn request_in(reading: &mut Reading) -> Option<CountRequest>
    ensures runs { IfSome result (λ r. IfSome r.runs.sweep HasRuns) }
    ensures threads { IfSome result (λ r. AreThreadsWithin r.runs.texts) }
{
    let figures = figures_in(reading);
    let until = until_in(reading);
    let quantiles = quantiles_in(reading);
    let format = format_in(reading);
    let span = span_in(reading)?;
    let field = reading.text(&FIELD_ARGUMENT);
    let runs = runs_in(reading);
    Some(CountRequest {
        runs,
        span,
        field,
        figures,
        until,
        quantiles,
        format,
        quiet: reading.has(&QUIET_ARGUMENT),
    })
}

impl CountRequest {
    /// What the words ask for, the command's name first.
    pub fn parse(alloc: Global, line: &[String]) -> Result<CountRequest, WordsFault>
        ensures runs { IfOk result (λ r. IfSome r.runs.sweep HasRuns) }
        ensures threads { IfOk result (λ r. AreThreadsWithin r.runs.texts) }
    {
        let mut reading = Reading::of(alloc, count_command(), line)?;
        let asked = request_in(&mut reading);
        reading.end_some(asked)
    }
}
