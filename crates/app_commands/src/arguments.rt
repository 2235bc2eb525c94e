//! Arguments that several commands have, and what they give.
ghost use Rattle.std.specs.Prelude.{IfSome};
ghost use Rattle.app_commands.specs.Requests.{IsWidthWithin};

use crate::constants::constants_in;
use app_files::ConstantWord;
use app_table::{Argument, Kind, OPTION, Reading, Value, WordsFault, number};
use link_net::MOST_NODES;
use rounds_plan::MOST_ROUNDS;
use run_watch::Span;
use std::alloc::{AllocError, Global};

/// A round, counted from round 0.
pub const ROUND: Value = Value::Number {
    least: 0,
    most: MOST_ROUNDS,
};

/// Any number that a field may have.
pub const NUMBER: Value = Value::Number {
    least: 0,
    most: 4_294_967_295,
};

/// How many cells a line of a grid has.
pub const WIDTH: Value = Value::Number {
    least: 1,
    most: MOST_NODES,
};

/// What a positional argument for a file is made from.
pub const FILE: Argument = Argument {
    kind: Kind::Positional,
    value: Value::File,
    value_name: "FILE",
    ..OPTION
};

/// What an option for a file is made from.
pub const FILE_OPTION: Argument = Argument {
    kind: Kind::Optional,
    ..FILE
};

/// What a flag is made from.
pub const FLAG: Argument = Argument {
    kind: Kind::Flag,
    ..OPTION
};

pub const PROGRAM: Argument = Argument {
    name: "program",
    value_name: "PROGRAM",
    help: "The file of the program text, or of a model where its name ends in .model, or - for standard input",
    ..FILE
};

/// `PROGRAM`, as it is read.
pub(crate) static PROGRAM_ARGUMENT: Argument = PROGRAM;

pub const NETWORK: Argument = Argument {
    name: "network",
    value_name: "NETWORK",
    help: "The network, a network file or a packed one, or - for standard input",
    ..FILE
};

/// `NETWORK`, as it is read.
pub static NETWORK_ARGUMENT: Argument = NETWORK;

pub const FROM: Argument = Argument {
    name: "from",
    help: "A report to go on from: its states and its round are the start",
    ..FILE_OPTION
};

/// `FROM`, as it is read.
pub(crate) static FROM_ARGUMENT: Argument = FROM;

pub const NAMES: Argument = Argument {
    name: "names",
    help: "Call nodes by the names in FILE, a line each, node 0 first",
    ..FILE_OPTION
};

/// `NAMES`, as it is read.
pub static NAMES_ARGUMENT: Argument = NAMES;

pub const ROUNDS: Argument = Argument {
    name: "rounds",
    kind: Kind::Required,
    value_name: "FIRST..LAST",
    help: "The first and the last round, both counted from round 0: 0 to 1000000000",
    ..OPTION
};

/// `ROUNDS`, as it is read.
static ROUNDS_ARGUMENT: Argument = ROUNDS;

pub const EVERY: Argument = Argument {
    name: "every",
    value: Value::Number {
        least: 1,
        most: MOST_ROUNDS,
    },
    value_name: "K",
    help: "Show every K-th round alone, from the first on: 1 to 1000000000",
    ..OPTION
};

/// `EVERY`, as it is read.
pub static EVERY_ARGUMENT: Argument = EVERY;

pub const ONLY: Argument = Argument {
    name: "only",
    value_name: "FIELD,..",
    help: "Show these fields alone, in this order, with a comma between two",
    ..OPTION
};

/// `ONLY`, as it is read.
static ONLY_ARGUMENT: Argument = ONLY;

pub const FIELD: Argument = Argument {
    name: "field",
    value_name: "FIELD",
    help: "The field whose values give the colours; may be left out where the program has one alone",
    ..OPTION
};

/// `FIELD`, as it is read.
pub static FIELD_ARGUMENT: Argument = FIELD;

/// Asks for a packed network in the place of a network file.
pub const AS_PACKED: Argument = Argument {
    name: "packed",
    help: "Write a packed network, a binary file, which every command reads and which may have any size",
    ..FLAG
};

/// `AS_PACKED`, as it is read.
pub static AS_PACKED_ARGUMENT: Argument = AS_PACKED;

pub const QUIET: Argument = Argument {
    name: "quiet",
    help: "Leave out notes on what is accepted and may not be meant",
    ..FLAG
};

/// `QUIET`, as it is read.
pub static QUIET_ARGUMENT: Argument = QUIET;

/// How many nodes stand in a row of a grid.
#[derive(Clone, Copy)]
pub enum GridWidth {
    /// So many.
    Given(u32),
    /// As many as the links of the network show.
    Shown,
}

impl GridWidth {
    /// The number of a grid for which one is given, and else 0.
    pub fn number(grid: Option<GridWidth>) -> u32 {
        match grid {
            Some(GridWidth::Given(width)) => width,
            _ => 0,
        }
    }
}

/// The width that a word gives; an empty one stands where `--grid` has no value.
fn width_in(reading: &mut Reading, word: &str) -> GridWidth
    ensures within { IsWidthWithin result }
{
    if word.is_empty() {
        return GridWidth::Shown;
    }
    match number(word, 1, MOST_NODES) {
        Some(width) => GridWidth::Given(width),
        None => {
            reading.refuse_as(format!(in reading.alloc();
                "--grid: expected a whole number from 1 to {MOST_NODES}, or no value where the links show it, found `{word}`"
            ));
            GridWidth::Shown
        }
    }
}

/// How many nodes stand in a row of the grid, where an option asks for one.
pub fn grid_in(reading: &mut Reading, argument: &Argument) -> Option<GridWidth>
    ensures within { IfSome result IsWidthWithin }
{
    let word = reading.text(argument)?;
    Some(width_in(reading, word.as_str()))
}

/// The words of a command line in which an option that stands alone, with no value after it, has an empty one.
pub fn with_lone(alloc: Global, line: &[String], option: &str) -> Result<Vec<String>, AllocError> {
    let mut words = Vec::new(alloc);
    for (place, word) in line.iter().enumerate() {
        words.push(word.clone()?)?;
        if word.as_str() == option && !has_value(line, place) {
            words.push(String::new(alloc))?;
        }
    }
    Ok(words)
}

/// Whether a word stands after the one at a place that may be a value.
fn has_value(line: &[String], place: usize) -> bool {
    match line.get(place.saturating_add(1)) {
        Some(next) => !next.as_str().starts_with('-'),
        None => false,
    }
}

/// The paths of the texts that a plan is made of.
#[derive(Drop)]
pub struct PlanPaths {
    pub program: String,
    /// The constants of the program that words give values, where it is a model.
    pub constants: Vec<ConstantWord>,
    pub network: String,
    /// The report from which the plan goes on, where it does.
    pub from: Option<String>,
}

impl PlanPaths {
    /// The paths that the words of a command with `PROGRAM`, `CONSTANT`, `NETWORK` and `FROM` name.
    pub fn of(reading: &mut Reading) -> PlanPaths {
        let constants = constants_in(reading);
        PlanPaths::with(reading, constants)
    }

    /// The paths that the words name, where the constants are read.
    pub fn with(reading: &mut Reading, constants: Vec<ConstantWord>) -> PlanPaths {
        let program = reading.needed_text(&PROGRAM_ARGUMENT);
        let network = reading.needed_text(&NETWORK_ARGUMENT);
        let from = reading.text(&FROM_ARGUMENT);
        PlanPaths {
            program,
            constants,
            network,
            from,
        }
    }
}

/// The rounds of a word `FIRST..LAST`, so many between two that are shown.
fn span_of(word: &str, every: u32) -> Option<Span> {
    let (first, last) = word.split_once("..")?;
    let first = number(first, 0, MOST_ROUNDS)?;
    let last = number(last, 0, MOST_ROUNDS)?;
    Span::new(first, last, every)
}

/// Notes that a word names no rounds.
fn refuse_span(reading: &mut Reading, found: &str) {
    reading.refuse_as(format!(in reading.alloc();
        "--rounds: expected FIRST..LAST, whole numbers from 0 to 1000000000, the first not the greater one, found `{found}`"
    ));
}

/// The rounds that `--rounds` and `--every` name. Where they name none, invalid arguments are noted.
pub fn span_in(reading: &mut Reading) -> Option<Span> {
    let every = reading.number_or(&EVERY_ARGUMENT, 1);
    let found = reading.needed_text(&ROUNDS_ARGUMENT);
    let span = span_of(found.as_str(), every);
    if span.is_none() {
        refuse_span(reading, found.as_str());
    }
    span
}

/// Puts a part of a text after the others.
fn put_part(parts: &mut Vec<String>, reading: &mut Reading, part: &str) {
    let part = reading.copied(part);
    if parts.push(part).is_err() {
        reading.refuse(WordsFault::Memory);
    }
}

/// The words between the commas of a text.
fn parts_of(reading: &mut Reading, text: &str) -> Vec<String> {
    let mut parts = Vec::new(reading.alloc());
    for part in text.split(',') {
        put_part(&mut parts, reading, part);
    }
    parts
}

/// The fields that `--only` names, where it is given.
pub fn only_in(reading: &mut Reading) -> Option<Vec<String>> {
    let text = reading.text(&ONLY_ARGUMENT)?;
    Some(parts_of(reading, text.as_str()))
}
