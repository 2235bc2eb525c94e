//! `init`: other initial values of a network.
ghost use Rattle.std.specs.Prelude.{◌≤◌, IfOk, IfSome};

use app_commands::{
    AS_PACKED, AS_PACKED_ARGUMENT, FILE_OPTION, NAMES, NAMES_ARGUMENT, NETWORK, NETWORK_ARGUMENT,
    OVERLAP, QUIET, QUIET_ARGUMENT, REPEATED, RandomWord, SEED, SET, SET_RANDOM,
    SET_RANDOM_ARGUMENT, SetWord, WIDTH, overlap_in, random_in, sets_in,
};
use app_table::{Argument, Choice, Command, Kind, OPTION, Reading, Value, WordsFault, number};
use link_net::MOST_NODES;
use std::alloc::Global;

/// `SEED` where values of all nodes are drawn, too.
const DRAWS_SEED: Argument = Argument {
    help: "By what --set-random and --random draw; the same seed draws the same on every machine",
    needs: None,
    ..SEED
};

/// `DRAWS_SEED`, as it is read.
static SEED_ARGUMENT: Argument = DRAWS_SEED;

const RANDOM: Argument = Argument {
    name: "random",
    value_name: "FIELD=LOW..HIGH",
    help: "Give a field of each node a number from LOW to HIGH, both included, drawn by the seed; as often as wanted",
    needs: Some("seed"),
    ..REPEATED
};

/// `RANDOM`, as it is read.
static RANDOM_ARGUMENT: Argument = RANDOM;

const CLEAR: Argument = Argument {
    name: "clear",
    value_name: "FIELD",
    help: "Leave aside the initial values that the network gives a field, before others are given; as often as wanted",
    ..REPEATED
};

/// `CLEAR`, as it is read.
static CLEAR_ARGUMENT: Argument = CLEAR;

const CELLS: Argument = Argument {
    name: "cells",
    kind: Kind::Repeated,
    value_name: "FIELD=FILE@X,Y",
    help: "Give a field the states of a pattern of cells, RLE or plain text, as initial values where it has live ones: 1 in a pattern of two states; its top left corner stands at column X and row Y of the grid; as often as wanted",
    needs: Some("width"),
    ..FILE_OPTION
};

/// `CELLS`, as it is read.
static CELLS_ARGUMENT: Argument = CELLS;

const GRID_WIDTH: Argument = Argument {
    name: "width",
    value: WIDTH,
    value_name: "W",
    help: "How many columns the grid or torus has: node W * row + column stands at a column and a row",
    needs: Some("cells"),
    ..OPTION
};

/// `GRID_WIDTH`, as it is read.
static GRID_WIDTH_ARGUMENT: Argument = GRID_WIDTH;

const MODEL: Argument = Argument {
    name: "model",
    help: "The model whose fields are given values, by which --set and --set-random take the names of its states: a file whose name ends in .model",
    ..FILE_OPTION
};

/// `MODEL`, as it is read.
static MODEL_ARGUMENT: Argument = MODEL;

const PHASE: Argument = Argument {
    name: "phase",
    value: Value::Choice(&[
        Choice {
            name: "0",
            aliases: &[],
        },
        Choice {
            name: "1",
            aliases: &[],
        },
        Choice {
            name: "2",
            aliases: &[],
        },
    ]),
    value_name: "P",
    help: "The phase in which all nodes begin: 0, 1 or 2",
    ..OPTION
};

/// `PHASE`, as it is read.
static PHASE_ARGUMENT: Argument = PHASE;

/// `init` and what it takes.
static INIT: Command = Command {
    name: "init",
    aliases: &["open"],
    called: "unison init",
    about: "Give a network other initial values, by numbers, names, at random, or by patterns of cells",
    notes: "Prints the network with other initial values, as a network file, or with --packed as a packed network of any size; where several give one to the same field and node, the last one counts; --set counts over --cells, that over --set-random, and that over --random.\nAn example: unison init examples/path.toml --set 'dist=*:9' --set dist=0:0 > start.toml\nAnother: unison init examples/path.toml --set state=0..1:2 --set-random state=1:33.3% --seed 7 > start.toml\nAnother: unison init road.net --set-random state=1:100 --seed 7 --packed > start.net\n",
    arguments: &[
        NETWORK, SET, SET_RANDOM, OVERLAP, RANDOM, DRAWS_SEED, CELLS, GRID_WIDTH, CLEAR, NAMES,
        MODEL, PHASE, AS_PACKED, QUIET,
    ],
    subcommands: &[],
};

/// The table of `init`.
pub fn init_command() -> &'static Command {
    &INIT
}

/// A word of `--random FIELD=LOW..HIGH`.
#[derive(Drop)]
pub struct RangeWord {
    pub field: String,
    /// The least number that is drawn; nothing is where it is the greater one.
    pub low: u32,
    /// The greatest number that is drawn.
    pub high: u32,
}

/// A word of `--cells FIELD=FILE@X,Y`.
#[derive(Drop)]
pub struct CellsWord {
    pub field: String,
    /// The path of the pattern.
    pub path: String,
    /// The column of the grid where the pattern's first column stands, counted from 0.
    pub column: u32,
    /// The row of the grid where the pattern's first row stands, counted from 0.
    pub row: u32,
}

/// What `init` is asked for.
#[derive(Drop)]
pub struct InitRequest {
    /// The path of the network.
    pub network: String,
    /// The path of the names by which nodes are called, where they are.
    pub names: Option<String>,
    /// The path of the model by whose states values are called, where they are.
    pub model: Option<String>,
    pub sets: Vec<SetWord>,
    pub random: Vec<RandomWord>,
    /// Whether each word of `random` draws among all nodes, and not among those that the others leave.
    pub overlap: bool,
    pub values: Vec<RangeWord>,
    /// The fields whose initial values in the network file are left aside.
    pub cleared: Vec<String>,
    pub cells: Vec<CellsWord>,
    /// How many columns the grid has in which patterns are put; where there are none, 1.
    pub width: u32,
    /// By what nodes and numbers are drawn; where none are, 0.
    pub seed: u32,
    /// The phase in which all nodes open; where there is none, that of the file.
    pub phase: Option<u8>,
    /// Whether a packed network is written in the place of a network file.
    pub packed: bool,
    /// Whether notes are left out.
    pub quiet: bool,
}

/// The parts of a word of `--random`.
fn range_parts(word: &str) -> Option<(&str, u32, u32)> {
    let (field, rest) = word.split_once('=')?;
    let (low, high) = rest.split_once("..")?;
    let low = number(low, 0, 4_294_967_295)?;
    let high = number(high, 0, 4_294_967_295)?;
    Some((field, low, high))
}

/// Notes that a word of `--random` has not its parts.
fn refuse_range(reading: &mut Reading, word: &str) {
    reading.refuse_as(format!(in reading.alloc();
        "--random: expected FIELD=LOW..HIGH, with two whole numbers from 0 to 4294967295 after the first =, found `{word}`"
    ));
}

/// The word of `--random`, where it has its parts.
fn range_word(reading: &mut Reading, word: &str) -> Option<RangeWord> {
    let (field, low, high) = range_parts(word)?;
    let field = reading.copied(field);
    Some(RangeWord { field, low, high })
}

/// Puts a word after the others.
fn put_range(values: &mut Vec<RangeWord>, reading: &mut Reading, word: &str) {
    match range_word(reading, word) {
        Some(found) => {
            if values.push(found).is_err() {
                reading.refuse(WordsFault::Memory);
            }
        }
        None => refuse_range(reading, word),
    }
}

/// The words of `--random`, in their order.
fn values_in(reading: &mut Reading) -> Vec<RangeWord> {
    let words = reading.texts(&RANDOM_ARGUMENT);
    let mut values = Vec::new(reading.alloc());
    for word in &words {
        put_range(&mut values, reading, word.as_str());
    }
    values
}

/// Refuses a seed where nothing is drawn.
fn check_draws(reading: &mut Reading) {
    let draws = reading.has(&SET_RANDOM_ARGUMENT) || reading.has(&RANDOM_ARGUMENT);
    if reading.has(&SEED_ARGUMENT) && !draws {
        reading.refuse_words(
            "--seed: nothing is drawn; give --set-random or --random, or leave --seed out",
        );
    }
}

/// The parts of a word of `--cells`: what stands before the first `=`, what follows up to the last `@`, and the two numbers
/// after it.
fn cells_parts(word: &str) -> Option<(&str, &str, u32, u32)> {
    let (field, rest) = word.split_once('=')?;
    let (path, place) = rest.rsplit_once('@')?;
    let (column, row) = place.split_once(',')?;
    let column = number(column, 0, MOST_NODES - 1)?;
    let row = number(row, 0, MOST_NODES - 1)?;
    Some((field, path, column, row))
}

/// Notes that a word of `--cells` has not its parts.
fn refuse_cells(reading: &mut Reading, word: &str) {
    reading.refuse_as(format!(in reading.alloc();
        "--cells: expected FIELD=FILE@X,Y, with a column and a row from 0 to 65535 after the last @, found `{word}`"
    ));
}

/// The word of `--cells`, where it has its parts.
fn cells_word(reading: &mut Reading, word: &str) -> Option<CellsWord> {
    let (field, path, column, row) = cells_parts(word)?;
    let field = reading.copied(field);
    let path = reading.copied(path);
    Some(CellsWord {
        field,
        path,
        column,
        row,
    })
}

/// Puts a word after the others.
fn put_cells(cells: &mut Vec<CellsWord>, reading: &mut Reading, word: &str) {
    match cells_word(reading, word) {
        Some(pattern) => {
            if cells.push(pattern).is_err() {
                reading.refuse(WordsFault::Memory);
            }
        }
        None => refuse_cells(reading, word),
    }
}

/// The words of `--cells`, in their order.
fn cells_in(reading: &mut Reading) -> Vec<CellsWord> {
    let words = reading.texts(&CELLS_ARGUMENT);
    let mut cells = Vec::new(reading.alloc());
    for word in &words {
        put_cells(&mut cells, reading, word.as_str());
    }
    cells
}

/// The phase that the words ask for, where they ask for one.
fn phase_in(reading: &mut Reading) -> Option<u8>
    ensures phase { IfSome result (λ phase. phase ≤ 2) }
{
    match reading.choice(&PHASE_ARGUMENT)? {
        "0" => Some(0),
        "1" => Some(1),
        _ => Some(2),
    }
}

/// What plain words ask for.
fn request_in(reading: &mut Reading) -> InitRequest
    ensures phase { IfSome result.phase (λ phase. phase ≤ 2) }
    ensures width { (1 ≤ result.width) × (result.width ≤ MOST_NODES) }
{
    let phase = phase_in(reading);
    let seed = reading.number_or(&SEED_ARGUMENT, 0);
    let width = reading.number_or(&GRID_WIDTH_ARGUMENT, 1);
    check_draws(reading);
    let random = random_in(reading);
    let overlap = overlap_in(reading);
    let values = values_in(reading);
    let cleared = reading.texts(&CLEAR_ARGUMENT);
    let cells = cells_in(reading);
    let sets = sets_in(reading);
    let names = reading.text(&NAMES_ARGUMENT);
    let model = reading.text(&MODEL_ARGUMENT);
    let network = reading.needed_text(&NETWORK_ARGUMENT);
    InitRequest {
        network,
        names,
        model,
        sets,
        random,
        overlap,
        values,
        cleared,
        cells,
        width,
        seed,
        phase,
        packed: reading.has(&AS_PACKED_ARGUMENT),
        quiet: reading.has(&QUIET_ARGUMENT),
    }
}

impl InitRequest {
    /// What the words ask for, the command's name first.
    pub fn parse(alloc: Global, line: &[String]) -> Result<InitRequest, WordsFault>
        ensures phase { IfOk result (λ r. IfSome r.phase (λ phase. phase ≤ 2)) }
        ensures width { IfOk result (λ r. (1 ≤ r.width) × (r.width ≤ MOST_NODES)) }
    {
        let mut reading = Reading::of(alloc, init_command(), line)?;
        let asked = request_in(&mut reading);
        reading.end(asked)
    }
}
